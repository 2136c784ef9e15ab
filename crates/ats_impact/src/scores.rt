//! The scores of documents, from one table of how often each document has each term of a query.

ghost use Rattle.std.specs.Prelude.{◌≡◌, ◌≤◌, ◌<◌, ◌+◌, ◌^◌, [], List, ℕ, length, map, count_by, nat_lt, slice_index, slice_index_or, if◌then◌else◌, IfOk};
ghost use Rattle.std.specs.List.{All};
ghost use Rattle.std.specs.Str.{bytes_eq};
ghost use Rattle.ats_terms.specs.Terms.{terms, occurrences};
ghost use Rattle.ats_terms.specs.Query.{IsQuery};
ghost use Rattle.ats_impact.specs.Score.{coefficient, part, score, total_terms};
ghost use Rattle.ats_impact.specs.Inner.Score.{counts};

use crate::collection::{Collection, Document};
use crate::memory::OutOfMemory;
use crate::numbers::{idf, impact};
use ats_terms::{Query, Terms};
use std::alloc::Global;
use std::marker::Model;

/// How often each term of a query occurs in a document.
#[derive(Drop)]
pub(crate) struct Counts {
    items: Vec<u32>,
}

impl Model for Counts {
    ghost use Rattle.std.specs.Prelude.{List, ℕ};

    ghost Value = { List ℕ };

    ghost view = { λ c. c.items.items };
}

impl Counts {
    fn get(&self, k: usize) -> u32
        requires { k < length self.now }
        ensures { result ≡ slice_index self.now k }
    {
        self.items[k]
    }
}

// Counts the term, if it is one of the query's.
fn count_term(counts: &mut [u32], query: &Query, term: &[u8])
    requires query { IsQuery query.now }
    requires same { length counts.old ≡ length query.now }
    requires space { All (λ count. count < 2 ^ 31) counts.old }
    ensures { (k : ℕ) → k < length query.now → slice_index counts.new k
        ≡ slice_index counts.old k + (if bytes_eq (slice_index_or query.now k ([], 0)).0 term.now then 1 else 0) }
{
    if let Some(k) = query.find(term) {
        counts[k] += 1;
    }
}

// How often each term of the query occurs among these.
fn count_terms(alloc: Global, query: &Query, terms: &Terms) -> Result<Counts, OutOfMemory>
    requires { length terms.now ≤ 2 ^ 20 }
    ensures { IfOk result (λ counts. counts ≡ map (λ pair. occurrences pair.0 terms.now) query.now) }
{
    let mut items = vec![in alloc; 0u32; query.len()]?;
    for i in 0..terms.len() {
        count_term(&mut items, query, terms.get(i));
    }
    Ok(Counts { items })
}

/// How often each document has each term of the query.
pub(crate) fn table(
    alloc: Global,
    documents: &[Document],
    query: &Query,
) -> Result<Vec<Counts>, OutOfMemory>
    ensures { IfOk result (λ table. table.items ≡ map (counts query.now) documents.now) }
{
    let mut table = Vec::with_capacity(alloc, documents.len())?;
    for document in documents {
        table.push(count_terms(alloc, query, document.terms())?)?;
    }
    Ok(table)
}

// How many rows of the table have a count at this place.
fn frequency(table: &[Counts], k: usize) -> u32
    requires few { length table.now ≤ 65536 }
    requires inside { All (λ row. k < length row) table.now }
    ensures { result ≡ count_by (λ row. nat_lt 0 (slice_index row k)) table.now }
{
    let mut found: u32 = 0;
    for counts in table {
        if counts.get(k) > 0 {
            found += 1;
        }
    }
    found
}

/// The weight of each term of the query times its idf.
pub(crate) fn coefficients(
    alloc: Global,
    collection: &Collection,
    query: &Query,
    table: &[Counts],
) -> Result<Vec<u64>, OutOfMemory>
    requires { table.now ≡ map (counts query.now) collection.now }
    ensures value { IfOk result (λ made. made.items ≡ map (coefficient collection.now) query.now) }
    ensures small { IfOk result (λ made. All (λ c. c < 2 ^ 40) made.items) }
{
    let mut coefficients = Vec::new(alloc);
    let n = collection.documents();
    for k in 0..query.len() {
        let idf = idf(n, frequency(table, k));
        coefficients.push(u64::from(query.weight(k)) * u64::from(idf))?;
    }
    Ok(coefficients)
}

// What a term of the query adds to a document's score.
fn part(collection: &Collection, document: &Document, factor: u64, count: u32) -> u64
    requires within { count ≤ length (terms document.now) }
    requires among { length (terms document.now) ≤ total_terms collection.now }
    requires small { factor < 2 ^ 40 }
    ensures value { (pair : List ℕ × ℕ) → factor ≡ coefficient collection.now pair
        → count ≡ occurrences pair.0 (terms document.now) → result ≡ part collection.now document.now pair }
    ensures small { result < 2 ^ 56 }
{
    if count == 0 {
        return 0;
    }
    let impact = impact(
        count,
        collection.total(),
        document.len(),
        collection.documents(),
    );
    factor * u64::from(impact)
}

/// The score of a document, from its row of the table and the coefficients.
pub(crate) fn score(
    collection: &Collection,
    query: &Query,
    document: &Document,
    counted: &Counts,
    coefficients: &[u64],
) -> u64
    requires among { length (terms document.now) ≤ total_terms collection.now }
    requires counted { counted.now ≡ counts query.now document.now }
    requires coefficients { coefficients.now ≡ map (coefficient collection.now) query.now }
    requires small { All (λ c. c < 2 ^ 40) coefficients.now }
    ensures { result ≡ score collection.now query.now document.now }
{
    let mut sum: u64 = 0;
    for k in 0..query.len() {
        sum += part(collection, document, coefficients[k], counted.get(k));
    }
    sum
}
