//! The largest of a growing list of values.

ghost use Rattle.std.specs.Prelude.{◌≡◌, ◌<◌, ◌≤◌, ◌+◌, ◌^◌, ◌↔◌, ◌∷◌, [], ℕ, List, length, slice_index, slice_set, IfOk, IsTrue};
ghost use Rattle.std.specs.List.Sorted.{IsPermutation};
ghost use Rattle.ats_bound.specs.Inner.Best.{AreBest, Ascends, AscendsBut, count_at_least};

use crate::memory::OutOfMemory;
use std::alloc::Global;
use std::marker::Model;

/// The largest values of a list, one or more.
///
/// The values ascend. A 0 fills the place of each that is still missing, so no call after the first allocates.
#[derive(Drop)]
pub(crate) struct Best {
    values: Vec<u64>,
}

impl Model for Best {
    ghost use Rattle.std.specs.Prelude.{List, ℕ};
    ghost use Rattle.ats_bound.specs.Inner.Best.{AreKept};

    ghost Value = { List ℕ };

    ghost view = { λ b. b.values.items };

    ghost invariant = { λ b. AreKept b.values.items };
}

// Moves the value at a place after those that are lower.
fn sift(values: &mut [u64], place: usize)
    requires inside { place < length values.old }
    requires others { AscendsBut place values.old }
    ensures same { IsPermutation values.old values.new }
    ensures ascends { Ascends values.new }
{
    for next in place + 1..values.len() {
        if values[next - 1] <= values[next] {
            return;
        }
        values.swap(next - 1, next);
    }
}

impl Best {
    /// No value yet, and room for this many.
    pub(crate) fn new(alloc: Global, size: usize) -> Result<Best, OutOfMemory>
        requires { 1 ≤ size }
        ensures size { IfOk result (λ best. length best ≡ size) }
        ensures none { IfOk result (λ best. AreBest best []) }
    {
        Ok(Best {
            values: vec![in alloc; 0u64; size]?,
        })
    }

    /// The smallest of the values kept; 0 if one is still missing.
    pub(crate) fn least(&self) -> u64
        ensures { (all : List ℕ) (threshold : ℕ) → AreBest self.now all → 1 ≤ threshold
            → (threshold ≤ result) ↔ (length self.now ≤ count_at_least threshold all) }
    {
        self.values[0]
    }

    /// The value after the smallest one. If only one is kept it is the most that a value can be.
    pub(crate) fn next(&self) -> u64
        ensures { (all : List ℕ) (threshold : ℕ) → AreBest self.now all → 1 ≤ threshold → threshold < 2 ^ 64
            → (threshold ≤ result) ↔ (length self.now ≤ count_at_least threshold all + 1) }
    {
        self.values.get(1).copied().unwrap_or(u64::MAX)
    }

    /// Whether at most so many of the values added are at least this one; no if more are than are kept.
    pub(crate) fn lacks(&self, many: usize, least: u64) -> bool
        ensures { IsTrue result → (all : List ℕ) → AreBest self.now all → count_at_least least all ≤ many }
    {
        let kept = self.values.len();
        many < kept && self.values[kept - 1 - many] < least
    }

    // Replaces the value at a place by one that is no lower.
    fn put(&mut self, place: usize, value: u64)
        requires inside { place < length self.old }
        requires more { slice_index self.old place ≤ value }
        ensures size { length self.new ≡ length self.old }
        ensures same { IsPermutation (slice_set self.old place value) self.new }
    {
        let values = &mut self.values;
        values[place] = value;
        sift(values.as_mut_slice(), place);
    }

    /// Adds one value.
    pub(crate) fn add(&mut self, value: u64)
        ensures size { length self.new ≡ length self.old }
        ensures best { (all after : List ℕ)
            → AreBest self.old all → IsPermutation (value ∷ all) after → AreBest self.new after }
    {
        if self.values[0] < value {
            self.put(0, value);
        }
    }

    /// Raises a value of the list from `from` to `to`.
    pub(crate) fn raise(&mut self, from: u64, to: u64)
        requires { from ≤ to }
        ensures size { length self.new ≡ length self.old }
        ensures best { (all : List ℕ) (i : ℕ) → AreBest self.old all → i < length all → slice_index all i ≡ from
            → AreBest self.new (slice_set all i to) }
    {
        match self.values.binary_search(&from) {
            Ok(place) => self.put(place, to),
            Err(_) => self.add(to),
        }
    }
}
