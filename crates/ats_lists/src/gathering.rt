//! Gathers postings with their terms, document by document, and joins those of two runs.

ghost use Rattle.std.specs.Prelude.{◌≡◌, ◌<◌, ◌≤◌, ◌+◌, ◌++◌, [], ℕ, length, map, slice_index_or, IfOk, OnOk};
ghost use Rattle.std.specs.List.{All};
ghost use Rattle.std.specs.List.Sorted.{IsStrictlySortedBy};
ghost use Rattle.ats_terms.specs.Terms.{terms};
ghost use Rattle.ats_terms.specs.Query.{byte_cmp, counted};
ghost use Rattle.ats_postings.specs.Postings.{text_of};
ghost use Rattle.ats_postings.specs.Lists.{by_impact, lists_of, AreLists};
ghost use Rattle.ats_postings.specs.Inner.Lists.{AreGathered};
ghost use Rattle.ats_lists.specs.Inner.Gathered.{entries_under, pairs_of, renumbered, term_of, AreNewNumbers, HasRun, IsLogOf};

use crate::key::Key;
use crate::memory::OutOfMemory;
use crate::numbering::{Numbering, Places};
use crate::term_list::TermList;
use ats_impact::{Collection, impact};
use ats_postings::Entry;
use ats_terms::TermCounts;
use std::alloc::Global;
use std::marker::Model;

// An entry under the number of its term.
#[derive(Clone, Copy)]
pub(crate) struct Logged {
    number: u32,
    entry: Entry,
}

/// Entries with their terms, in the order of documents. They are appended under the numbers of their terms, and sorted
/// by term only at the end, so that adding an entry touches little memory.
#[derive(Drop)]
pub(crate) struct Gathered {
    numbering: Numbering,
    log: Vec<Logged>,
}

impl Model for Gathered {
    ghost use Rattle.ats_lists.specs.Inner.Gathered.{pairs_of, IsLogOf, Pairs};

    ghost Value = { Pairs };

    ghost view = { λ g. pairs_of g.numbering g.log.items };

    ghost invariant = { λ g. IsLogOf g.numbering g.log.items };
}

// Replaces the number of each entry by the one in `numbers`.
fn replace_numbers(log: &mut Vec<Logged>, numbers: &[u32])
    requires { All (λ logged. logged.number < length numbers.now) log.old.items }
    ensures { log.new.items ≡ map (renumbered numbers.now) log.old.items }
{
    for i in 0..log.len() {
        log[i].number = numbers[log[i].number as usize];
    }
}

// The distinct terms in byte order, and the entries under their terms' places among these.
fn placed(gathered: Gathered) -> Result<(Vec<Key>, Vec<Logged>), OutOfMemory>
    ensures rises { IfOk result (λ made. IsStrictlySortedBy byte_cmp made.0.items) }
    ensures log { IfOk result (λ made. IsLogOf made.0.items made.1.items) }
    ensures pairs { IfOk result (λ made. pairs_of made.0.items made.1.items ≡ gathered) }
{
    let Gathered { numbering, mut log } = gathered;
    let Places { terms, places } = numbering.into_places()?;
    replace_numbers(&mut log, &places);
    Ok((terms, log))
}

// Each term with room for the entries under its number.
fn empty_lists(alloc: Global, terms: Vec<Key>, log: &[Logged]) -> Result<Vec<TermList>, OutOfMemory>
    requires { All (λ logged. logged.number < length terms.items) log.now }
    ensures { IfOk result (λ empty_lists. empty_lists.items ≡ map (λ term. (term, [])) terms.items) }
{
    let mut counts: Vec<usize> = Vec::new(alloc);
    counts.resize(terms.len(), 0)?;
    for logged in log {
        let at = logged.number as usize;
        counts[at] = counts[at].saturating_add(1);
    }
    let mut empty_lists = Vec::with_capacity(alloc, terms.len())?;
    for term in terms {
        let count = counts[empty_lists.len()];
        empty_lists.push(TermList::with_room(alloc, term.into_term(), count)?)?;
    }
    Ok(empty_lists)
}

// Each term with the entries under its number, in the order in which they were added.
fn parted(alloc: Global, terms: Vec<Key>, log: &[Logged]) -> Result<Vec<TermList>, OutOfMemory>
    requires { All (λ logged. logged.number < length terms.items) log.now }
    ensures size { IfOk result (λ lists. length lists.items ≡ length terms.items) }
    ensures entries { IfOk result (λ lists. (n : ℕ) → n < length terms.items
        → slice_index_or lists.items n ([], []) ≡ (term_of terms.items n, entries_under n log.now)) }
{
    let mut lists = empty_lists(alloc, terms, log)?;
    for logged in log {
        lists[logged.number as usize].push(logged.entry)?;
    }
    Ok(lists)
}

// Puts the entries of each list in order.
fn sort_each(lists: &mut Vec<TermList>) -> Result<(), OutOfMemory>
    requires { All (λ list. AreGathered list.1) lists.old.items }
    ensures { OnOk result (lists.new.items ≡ map (λ list. (list.0, by_impact 2200 list.1)) lists.old.items) }
{
    for i in 0..lists.len() {
        lists[i].sort()?;
    }
    Ok(())
}

// The numbers of another run's terms here. A term that has none gets one.
fn renumber(
    alloc: Global,
    numbering: &mut Numbering,
    others: &Numbering,
) -> Result<Vec<u32>, OutOfMemory>
    ensures { IfOk result (λ numbers.
        AreNewNumbers numbering.old others.now numbering.new (length others.now) numbers.items) }
{
    let mut numbers = Vec::with_capacity(alloc, others.len())?;
    for i in 0..others.len() {
        numbers.push(numbering.number(others.term(i))?)?;
    }
    Ok(numbers)
}

// Appends another run's entries under their new numbers.
fn append(log: &mut Vec<Logged>, numbers: &[u32], more: &[Logged]) -> Result<(), OutOfMemory>
    requires { All (λ logged. logged.number < length numbers.now) more.now }
    ensures { OnOk result (log.new.items ≡ log.old.items ++ map (renumbered numbers.now) more.now) }
{
    log.reserve(more.len())?;
    for logged in more {
        log.push(Logged {
            number: numbers[logged.number as usize],
            entry: logged.entry,
        })?;
    }
    Ok(())
}

impl Gathered {
    /// No entries.
    pub(crate) fn new(alloc: Global) -> Self
        ensures { result ≡ [] }
    {
        Gathered {
            numbering: Numbering::new(alloc),
            log: Vec::new(alloc),
        }
    }

    /// The same entries. If terms have many numbers, those of each term are merged. If memory runs out, the run is
    /// dropped.
    pub(crate) fn with_few_numbers(self, alloc: Global) -> Result<Self, OutOfMemory>
        ensures { IfOk result (λ made. made ≡ self) }
    {
        if !self.numbering.has_many() {
            return Ok(self);
        }
        let (terms, log) = placed(self)?;
        let numbering = Numbering::of(alloc, terms)?;
        Ok(Gathered { numbering, log })
    }

    /// Appends an entry of the next document for each of its terms. If memory runs out, the run is dropped.
    pub(crate) fn add_document(
        self,
        collection: &Collection,
        doc: u32,
        counts: &TermCounts,
    ) -> Result<Self, OutOfMemory>
        requires inside { doc < length collection.now }
        requires counts { counts.now ≡ counted (terms (text_of collection.now doc)) }
        ensures after { (first : ℕ) → first ≤ doc → HasRun first doc collection.now self
            → IfOk result (HasRun first (doc + 1) collection.now) }
        ensures few { doc < 65536 }
    {
        let Gathered {
            mut numbering,
            mut log,
        } = self;
        let documents = collection.documents();
        let total = collection.total();
        let len = collection.terms(doc).len() as u32;
        for i in 0..counts.len() {
            let impact = impact(counts.count(i), total, len, documents);
            let number = numbering.number(counts.term(i))?;
            let entry = Entry { doc, impact };
            log.push(Logged { number, entry })?;
        }
        Ok(Gathered { numbering, log })
    }

    /// This run and then the other one. If memory runs out, both are dropped.
    pub(crate) fn join(self, alloc: Global, next: Self) -> Result<Self, OutOfMemory>
        ensures { IfOk result (λ joined. joined ≡ self ++ next) }
    {
        let Gathered {
            mut numbering,
            mut log,
        } = self;
        let Gathered {
            numbering: others,
            log: more,
        } = next;
        let numbers = renumber(alloc, &mut numbering, &others)?;
        append(&mut log, &numbers, &more)?;
        Ok(Gathered { numbering, log })
    }

    /// The lists of all texts, after all their documents were added.
    pub(crate) fn sorted(
        self,
        alloc: Global,
        collection: &Collection,
    ) -> Result<Vec<TermList>, OutOfMemory>
        requires { HasRun 0 (length collection.now) collection.now self }
        ensures same { IfOk result (λ lists. lists.items ≡ lists_of collection.now) }
        ensures lists { OnOk result (AreLists (length collection.now) (lists_of collection.now)) }
    {
        // There is one list for each distinct term, so 32 bits count the lists.
        prove!(collection.total() <= 1 << 24);
        let (terms, log) = placed(self)?;
        let mut lists = parted(alloc, terms, &log)?;
        sort_each(&mut lists)?;
        Ok(lists)
    }
}
