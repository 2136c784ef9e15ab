//! How often each term occurs in a text.

ghost use Rattle.std.specs.Prelude.{◌≡◌, ◌<◌, ◌≤◌, ◌-◌, ◌^◌, ◌↔◌, [], List, ℕ, length, slice_index_or, sum_by, IsTrue, IfOk};
ghost use Rattle.std.specs.List.{All};
ghost use Rattle.std.specs.List.Sorted.{IsPermutation, IsSorted};
ghost use Rattle.ats_terms.specs.Terms.{IsTerm};
ghost use Rattle.ats_terms.specs.Order.{byte_cmp};
ghost use Rattle.ats_terms.specs.Query.{counted};
ghost use Rattle.ats_terms.specs.Counted.{Counts};
ghost use Rattle.ats_terms.specs.Distinct.{AreDistinct};

use crate::key::Key;
use crate::terms::{OutOfMemory, Terms, pack};
use std::alloc::Global;
use std::marker::Model;

/// The distinct terms of a list of terms in byte order, each with how often it occurs in the list.
///
/// They take the bytes of the distinct terms, and 8 bytes more for each term.
#[derive(Drop)]
pub struct TermCounts {
    terms: Terms,
    counts: Vec<u32>,
}

impl Model for TermCounts {
    ghost use Rattle.std.specs.Prelude.{◌≡◌, List, ℕ, length};
    ghost use Rattle.std.specs.List.{zip};
    ghost use Rattle.ats_terms.specs.Distinct.{AreDistinct};

    ghost Value = { List (List ℕ × ℕ) };

    ghost view = { λ t. zip t.terms t.counts.items };

    ghost invariant = { λ t. (length t.counts.items ≡ length t.terms) × AreDistinct (zip t.terms t.counts.items) };
}

// The terms as keys, in byte order.
fn in_order<'a>(alloc: Global, terms: &'a Terms) -> Result<Vec<Key<'a>>, OutOfMemory>
    ensures same { IfOk result (λ sorted. IsPermutation terms.now sorted.items) }
    ensures order { IfOk result (λ sorted. IsSorted byte_cmp sorted.items) }
    ensures terms { IfOk result (λ sorted. All IsTerm sorted.items) }
{
    let mut sorted = Vec::with_capacity(alloc, terms.len())?;
    for i in 0..terms.len() {
        sorted.push(Key::of(terms.get(i)))?;
    }
    sorted.sort_unstable();
    Ok(sorted)
}

// Whether a place has the same term as the one before it.
fn repeats(sorted: &[Key<'_>], i: usize) -> bool
    requires { i < length sorted.now }
    ensures { IsTrue result ↔ (0 < i) × (slice_index_or sorted.now i [] ≡ slice_index_or sorted.now (i - 1) []) }
{
    i > 0 && sorted[i] == sorted[i - 1]
}

// The number of terms that do not repeat the one before, and the number of their bytes.
fn sizes_of(sorted: &[Key<'_>]) -> (usize, usize) {
    let (mut terms, mut bytes): (usize, usize) = (0, 0);
    for i in 0..sorted.len() {
        if !repeats(sorted, i) {
            terms = terms.saturating_add(1);
            bytes = bytes.saturating_add(sorted[i].term().len());
        }
    }
    (terms, bytes)
}

// The terms without those that repeat the one before, each with the length of its run.
fn runs(alloc: Global, sorted: &[Key<'_>]) -> Result<TermCounts, OutOfMemory>
    requires few { length sorted.now < 2 ^ 32 }
    requires order { IsSorted byte_cmp sorted.now }
    requires terms { All IsTerm sorted.now }
    ensures { IfOk result (λ made. made ≡ counted sorted.now) }
{
    let (count, size) = sizes_of(sorted);
    let mut bytes = Vec::with_capacity(alloc, size)?;
    let mut ends = Vec::with_capacity(alloc, count)?;
    let mut counts: Vec<u32> = Vec::with_capacity(alloc, count)?;
    for i in 0..sorted.len() {
        if repeats(sorted, i) {
            let run = counts.len() - 1;
            counts[run] += 1;
            continue;
        }
        pack(&mut bytes, &mut ends, sorted[i].term())?;
        counts.push(1)?;
    }
    let terms = Terms::packed(bytes, ends);
    Ok(TermCounts { terms, counts })
}

impl TermCounts {
    /// The distinct terms of a list: it is sorted, and the runs of equal terms are measured. A list of 2^32 terms or more
    /// is reported as out of memory.
    pub fn of(alloc: Global, terms: &Terms) -> Result<Self, OutOfMemory>
        ensures counted { IfOk result (λ made. made ≡ counted terms.now) }
        ensures counts { IfOk result (Counts terms.now) }
        ensures sum { IfOk result (λ made. sum_by (λ pair. pair.1) made ≡ length terms.now) }
        ensures few { IfOk result (λ made. length made ≤ length terms.now) }
    {
        if terms.len() > u32::MAX as usize {
            return Err(OutOfMemory);
        }
        let sorted = in_order(alloc, terms)?;
        let made = runs(alloc, &sorted)?;
        Ok(made)
    }

    /// The same terms and counts, in memory of their own.
    pub fn copy(&self, alloc: Global) -> Result<Self, OutOfMemory>
        ensures { IfOk result (λ made. made ≡ self.now) }
    {
        let terms = self.terms.copy(alloc)?;
        let counts = Vec::from_slice(alloc, &self.counts)?;
        Ok(TermCounts { terms, counts })
    }

    /// The number of distinct terms.
    pub fn len(&self) -> usize
        ensures value { result ≡ length self.now }
        ensures distinct { AreDistinct self.now }
    {
        self.counts.len()
    }

    /// Term `i` in byte order, counted from 0.
    pub fn term(&self, i: usize) -> &[u8]
        requires { i < length self.now }
        ensures value { (d : List ℕ × ℕ) → result.now ≡ (slice_index_or self.now i d).0 }
        ensures term { IsTerm result.now }
    {
        self.terms.get(i)
    }

    /// How often term `i` occurs in the list.
    pub fn count(&self, i: usize) -> u32
        requires { i < length self.now }
        ensures value { (d : List ℕ × ℕ) → result ≡ (slice_index_or self.now i d).1 }
        ensures some { 1 ≤ result }
    {
        self.counts[i]
    }
}
