//! Gives numbers to terms in the order in which they first appear.

ghost use Rattle.std.specs.Prelude.{◌≡◌, ◌⊎◌, ◌↔◌, ◌<◌, ◌≤◌, ◌-◌, ◌^◌, ◌++◌, ◌∷◌, [], ℕ, List, length, false, IsTrue, IfOk, IfSome, OnOk};
ghost use Rattle.std.specs.List.{All};
ghost use Rattle.std.specs.List.Sorted.{IsSortedByKey, IsStrictlySortedBy};
ghost use Rattle.std.specs.Ordering.{is_lt};
ghost use Rattle.ats_terms.specs.Query.{byte_cmp};
ghost use Rattle.ats_terms.specs.Front.{front as front_of, AreBytes};
ghost use Rattle.ats_lists.specs.Inner.Gathered.{term_of, AreNewNumbers, AreNumbered, AreSlotsOf, IsSlotOf};

use crate::key::Key;
use crate::memory::OutOfMemory;
use ats_terms::front;
use std::alloc::Global;
use std::marker::Model;
use std::mem::replace;

// A term that was numbered lately: its first 8 bytes as a number, its number, and its length plus one. An empty slot is
// all zeros.
#[derive(Clone, Copy)]
pub(crate) struct Slot {
    first: u64,
    number: u32,
    size: u8,
}

const EMPTY: Slot = Slot {
    first: 0,
    number: 0,
    size: 0,
};

/// Terms with their numbers: a term's number is how many were numbered before it.
///
/// A set-associative table, which grows with the terms, finds the number of a term. A term that others pushed out of
/// the table gets a further number, so a term may have several. The numbers of one term are merged when there are many
/// numbers, and at the end. So a run keeps at most 2^17 keys, or two for each distinct term, plus those of one document. A
/// term of at most 8 bytes is found exactly by what its slot holds.
#[derive(Drop)]
pub(crate) struct Numbering {
    alloc: Global,
    terms: Vec<Key>,
    table: Vec<Slot>,
    many: usize,
}

impl Model for Numbering {
    ghost use Rattle.std.specs.Prelude.{List, ℕ};
    ghost use Rattle.ats_lists.specs.Inner.Gathered.{AreSlotsOf};

    ghost Value = { List (List ℕ) };

    ghost view = { λ n. n.terms.items };

    ghost invariant = { λ n. AreSlotsOf n.terms.items n.table.items };
}

/// Distinct terms in byte order, and for each number of a term its place among them.
#[derive(Drop)]
pub(crate) struct Places {
    pub(crate) terms: Vec<Key>,
    pub(crate) places: Vec<u32>,
}

// A term may use each of 4 slots.
const WAYS: usize = 4;

// The smallest number of slots in a table that is not empty.
const FEWEST_SLOTS: usize = 1 << 10;

// A table with more slots does not grow.
const MOST_SLOTS: usize = 1 << 19;

// Numbers are merged when there are at least this many, and at least twice as many as distinct terms after the last
// merge.
const MANY: usize = 1 << 17;

// Terms of at most this length are compared only by the number of their first bytes.
const FIRST_BYTES: usize = 8;

// The first of the slots that a term may use in a table of `slots` slots. Other terms may use the same.
fn first_slot_of(slots: usize, first: u64, term: &[u8]) -> usize
    ensures { result < 2 ^ 34 }
{
    let mixed = (first ^ term.len() as u64).wrapping_mul(0x9e37_79b9_7f4a_7c15);
    let set = (mixed >> 32).wrapping_mul((slots / WAYS) as u64) >> 32;
    set as usize * WAYS
}

// The number in a slot, if the slot belongs to the term.
fn number_in(terms: &[Key], slot: &Slot, first: u64, term: &[u8]) -> Option<u32>
    requires slot { (slot.now.size ≡ 0) ⊎ IsSlotOf terms.now slot.now }
    requires first { first ≡ front_of 8 term.now }
    requires bytes { AreBytes term.now }
    ensures { IfSome result (λ n. (n < length terms.now) × (term_of terms.now n ≡ term.now)) }
{
    if slot.first != first || slot.size as usize != term.len() + 1 {
        return None;
    }
    if term.len() <= FIRST_BYTES {
        return Some(slot.number);
    }
    let own = terms.get(slot.number as usize)?;
    if own.term() == term {
        Some(slot.number)
    } else {
        None
    }
}

// The number of a term, if it is in one of its slots.
fn found(terms: &[Key], table: &[Slot], first: u64, term: &[u8]) -> Option<u32>
    requires slots { AreSlotsOf terms.now table.now }
    requires first { first ≡ front_of 8 term.now }
    requires bytes { AreBytes term.now }
    ensures { IfSome result (λ n. (n < length terms.now) × (term_of terms.now n ≡ term.now)) }
{
    let at = first_slot_of(table.len(), first, term);
    for way in 0..WAYS {
        let slot = table.get(at + way)?;
        if let Some(n) = number_in(terms, slot, first, term) {
            return Some(n);
        }
    }
    None
}

// Puts a term into the first of its slots, and what was there into the next, so that the oldest drops out. A term that
// is too long for the table stays out.
fn remember(terms: &[Key], table: &mut Vec<Slot>, number: u32)
    requires slots { AreSlotsOf terms.now table.old.items }
    requires inside { number < length terms.now }
    ensures { AreSlotsOf terms.now table.new.items }
{
    let own = &terms[number as usize];
    let Ok(size) = u8::try_from(own.term().len() + 1) else {
        return;
    };
    let at = first_slot_of(table.len(), own.front(), own.term());
    let mut newer = Slot {
        first: own.front(),
        number,
        size,
    };
    for way in 0..WAYS {
        if let Some(slot) = table.get_mut(at + way) {
            newer = replace(slot, newer);
        }
    }
}

// Enlarges the table if `count` is at least half its slots and it may still grow, and puts the first `count` terms in
// again.
fn make_space(terms: &[Key], table: &mut Vec<Slot>, count: u32) -> Result<(), OutOfMemory>
    requires slots { AreSlotsOf terms.now table.old.items }
    requires inside { count ≤ length terms.now }
    ensures { AreSlotsOf terms.now table.new.items }
{
    if (count as usize) < table.len() / 2 || table.len() > MOST_SLOTS {
        return Ok(());
    }
    table.clear();
    table.resize(FEWEST_SLOTS.max(WAYS * count as usize), EMPTY)?;
    for number in 0..count {
        remember(terms, table, number);
    }
    Ok(())
}

// Each term with its number.
fn numbered(alloc: Global, terms: Vec<Key>) -> Result<Vec<(Key, u32)>, OutOfMemory>
    ensures { IfOk result (λ all. AreNumbered terms.items all.items) }
{
    let mut all = Vec::with_capacity(alloc, terms.len())?;
    for term in terms {
        let Ok(number) = u32::try_from(all.len()) else {
            return Err(OutOfMemory);
        };
        all.push((term, number))?;
    }
    Ok(all)
}

// Whether a term is the last one.
fn ends_with(terms: &[Key], term: &Key) -> bool
    ensures { IsTrue result
        ↔ (0 < length terms.now) × (term_of terms.now (length terms.now - 1) ≡ term.now) }
{
    let len = terms.len();
    len > 0 && terms[len - 1] == *term
}

// The place of a term appended after the others, or that of the last one if it is the same.
fn place_of(terms: &mut Vec<Key>, term: Key) -> Result<u32, OutOfMemory>
    requires rises { IsStrictlySortedBy byte_cmp terms.old.items }
    requires above { All (λ before. is_lt (byte_cmp term before) ≡ false) terms.old.items }
    ensures rises { OnOk result (IsStrictlySortedBy byte_cmp terms.new.items) }
    ensures place { IfOk result (λ n. (n < length terms.new.items) × (term_of terms.new.items n ≡ term)) }
    ensures more { IfOk result (λ n. (terms.new.items ≡ terms.old.items)
        ⊎ ((n ≡ length terms.old.items) × (terms.new.items ≡ terms.old.items ++ term ∷ []))) }
{
    let Ok(place) = u32::try_from(terms.len()) else {
        return Err(OutOfMemory);
    };
    if ends_with(terms, &term) {
        return Ok(place - 1);
    }
    terms.push(term)?;
    Ok(place)
}

// Merges the numbers of each term, which are next to each other.
fn together(alloc: Global, sorted: Vec<(Key, u32)>) -> Result<Places, OutOfMemory>
    requires order { IsSortedByKey (λ pair. pair.0) byte_cmp sorted.items }
    requires inside { All (λ pair. pair.1 < length sorted.items) sorted.items }
    ensures rises { IfOk result (λ made. IsStrictlySortedBy byte_cmp made.terms.items) }
    ensures places { IfOk result (λ made. (terms : List (List ℕ)) → AreNumbered terms sorted.items
        → AreNewNumbers [] terms made.terms.items (length terms) made.places.items) }
{
    let mut places: Vec<u32> = Vec::new(alloc);
    places.resize(sorted.len(), 0)?;
    let mut terms = Vec::with_capacity(alloc, sorted.len())?;
    for (term, number) in sorted {
        places[number as usize] = place_of(&mut terms, term)?;
    }
    Ok(Places { terms, places })
}

impl Numbering {
    /// No term has a number.
    pub(crate) fn new(alloc: Global) -> Self
        ensures { result ≡ [] }
    {
        Numbering {
            alloc,
            terms: Vec::new(alloc),
            table: Vec::new(alloc),
            many: MANY,
        }
    }

    /// Terms whose numbers are their places.
    pub(crate) fn of(alloc: Global, terms: Vec<Key>) -> Result<Self, OutOfMemory>
        ensures { IfOk result (λ made. made ≡ terms.items) }
    {
        let Ok(count) = u32::try_from(terms.len()) else {
            return Err(OutOfMemory);
        };
        let many = MANY.max(terms.len().saturating_mul(2));
        let mut table = Vec::new(alloc);
        make_space(&terms, &mut table, count)?;
        Ok(Numbering {
            alloc,
            terms,
            table,
            many,
        })
    }

    /// Whether there are many numbers, so that those of each term should be merged.
    pub(crate) fn has_many(&self) -> bool {
        self.terms.len() >= self.many
    }

    /// How many numbers there are.
    pub(crate) fn len(&self) -> usize
        ensures { result ≡ length self.now }
    {
        self.terms.len()
    }

    /// The term of a number.
    pub(crate) fn term(&self, number: usize) -> &[u8]
        requires { number < length self.now }
        ensures { result.now ≡ term_of self.now number }
    {
        self.terms[number].term()
    }

    /// A number of a term. A term that the table does not find gets the next number.
    pub(crate) fn number(&mut self, term: &[u8]) -> Result<u32, OutOfMemory>
        ensures number { IfOk result (λ n. (n < length self.new) × (term_of self.new n ≡ term.now)) }
        ensures more { IfOk result (λ n. (self.new ≡ self.old)
            ⊎ ((n ≡ length self.old) × (self.new ≡ self.old ++ term.now ∷ []))) }
    {
        if let Some(n) = found(&self.terms, &self.table, front(term), term) {
            return Ok(n);
        }
        let Ok(n) = u32::try_from(self.terms.len()) else {
            return Err(OutOfMemory);
        };
        self.terms.push(Key::of(self.alloc, term)?)?;
        make_space(&self.terms, &mut self.table, n)?;
        remember(&self.terms, &mut self.table, n);
        Ok(n)
    }

    /// The distinct terms in byte order, and for each number the place of its term among them.
    pub(crate) fn into_places(self) -> Result<Places, OutOfMemory>
        ensures rises { IfOk result (λ made. IsStrictlySortedBy byte_cmp made.terms.items) }
        ensures places { IfOk result (λ made.
            AreNewNumbers [] self made.terms.items (length self) made.places.items) }
    {
        let Numbering {
            alloc,
            terms,
            table: _,
            many: _,
        } = self;
        let mut sorted = numbered(alloc, terms)?;
        sorted.sort_unstable();
        let made = together(alloc, sorted)?;
        Ok(made)
    }
}
