//! What shows that a cut does not show yet what a shard is asked for.

ghost use Rattle.std.specs.Prelude.{◌<◌, ◌≤◌, ◌+◌, ◌^◌, ℕ, List, length, IsTrue};
ghost use Rattle.ats_bound.specs.Cursors.{shown_on};
ghost use Rattle.ats_bound.specs.Cut.{bracket};
ghost use Rattle.ats_bound.specs.Floors.{span_at};
ghost use Rattle.ats_bound.specs.Inner.Best.{AreBest};
ghost use Rattle.ats_bound.specs.Inner.MetDocuments.{AreMetDocuments, lows, met_at};
ghost use Rattle.ats_bound.specs.Inner.Running.{IsCrossing, IsSparse, IsUnshownAt, count_above};

use crate::best::Best;
use crate::bounds::bracket_of;
use crate::bracket::Bracket;
use crate::cursors::Cursors;
use crate::met_documents::MetDocuments;
use crate::settling::is_in_span;
use crate::span::Span;
use std::alloc::Global;

// Whether a bracket goes above the floor and lies within no span.
fn crosses(bracket: Bracket, spans: &[Span], floor: u64) -> bool
    ensures { IsTrue result → IsCrossing spans.now floor bracket }
{
    if bracket.hi <= floor {
        return false;
    }
    for span in spans {
        if is_in_span(bracket, *span) {
            return false;
        }
    }
    true
}

// The most that the rows from this one on may score, or the floor if that is more.
fn most_from(spans: &[Span], row: usize, floor: u64) -> u64
    ensures floor { floor ≤ result }
    ensures each { (k : ℕ) → row ≤ k → k < length spans.now → (span_at spans.now k).upper ≤ result }
{
    let mut most = floor;
    for k in row..spans.len() {
        most = most.max(spans[k].upper);
    }
    most
}

// Whether the document in this slot may score more than this.
fn is_above(cursors: &Cursors<'_>, known: &MetDocuments, slot: usize, score: u64) -> bool
    requires { AreMetDocuments (shown_on cursors.now) known.now }
    ensures inside { IsTrue result → slot < length known.now }
    ensures small { IsTrue result → slot + 1 < 2 ^ 64 }
    ensures above { IsTrue result → score < (bracket (shown_on cursors.now) (met_at known.now slot).doc).hi }
{
    slot < known.len() && bracket_of(cursors, known.get(slot)).hi > score
}

// How many documents in these slots, which ascend, may score more than this. It counts none in a slot out of order.
fn how_many_above(cursors: &Cursors<'_>, known: &MetDocuments, slots: &[usize], score: u64) -> usize
    requires { AreMetDocuments (shown_on cursors.now) known.now }
    ensures { result ≤ count_above score (shown_on cursors.now) known.now }
{
    let mut count: usize = 0;
    let mut next: usize = 0;
    for slot in slots {
        if next <= *slot && is_above(cursors, known, *slot, score) {
            count += 1;
            next = *slot + 1;
        }
    }
    count
}

/// A slot whose bracket lies within no span, or more slots above an edge than rows, or fewer, as long as they show that
/// the answer is not the one that is asked for.
///
/// Brackets only narrow, so what once shows nothing never does again: [`Unshown::find`] goes once through the slots and
/// once through the rows, and for each row once through the slots above its edge. What it misses costs only time.
#[derive(Drop)]
pub(crate) struct Unshown {
    low: usize,
    slot: usize,
    row: usize,
    crowd: Crowd,
}

// Slots, in ascending order, of documents that may score more than the rows from one on: of all before a place, as many
// as are needed to show that they are too many.
#[derive(Drop)]
struct Crowd {
    place: usize,
    slots: Vec<usize>,
}

impl Crowd {
    fn new(alloc: Global) -> Crowd {
        Crowd {
            place: 0,
            slots: Vec::new(alloc),
        }
    }

    // Begins anew, for another score.
    fn clear(&mut self) {
        self.place = 0;
        self.slots.clear();
    }

    // Drops those that may no longer score more than this, and goes on to others until there are more than `many`. If
    // memory runs out, one is left out.
    fn gather(&mut self, cursors: &Cursors<'_>, known: &MetDocuments, many: usize, score: u64)
        requires { AreMetDocuments (shown_on cursors.now) known.now }
    {
        self.slots
            .retain(|slot| is_above(cursors, known, *slot, score));
        for slot in self.place..known.len() {
            if self.slots.len() > many {
                return;
            }
            self.place = slot + 1;
            if is_above(cursors, known, slot, score) {
                let _ = self.slots.push(slot);
            }
        }
    }
}

impl Unshown {
    pub(crate) fn new(alloc: Global) -> Unshown {
        Unshown {
            low: 0,
            slot: 0,
            row: 0,
            crowd: Crowd::new(alloc),
        }
    }

    /// Whether some slots show it.
    pub(crate) fn find(
        &mut self,
        cursors: &Cursors<'_>,
        known: &MetDocuments,
        best: &Best,
        spans: &[Span],
        floor: u64,
    ) -> bool
        requires known { AreMetDocuments (shown_on cursors.now) known.now }
        requires best { AreBest best.now (lows known.now) }
        ensures { IsTrue result → IsUnshownAt spans.now floor (shown_on cursors.now) known.now }
    {
        if self.are_too_few(best, spans) {
            return true;
        }
        for slot in self.slot..known.len() {
            self.slot = slot;
            if crosses(bracket_of(cursors, known.get(slot)), spans, floor) {
                return true;
            }
        }
        self.slot = known.len();
        self.are_too_many(cursors, known, spans, floor)
    }

    // Whether fewer documents than rows score what one of these rows must score.
    fn are_too_few(&mut self, best: &Best, spans: &[Span]) -> bool
        ensures { IsTrue result → (all : List ℕ) → AreBest best.now all → IsSparse spans.now all }
    {
        for row in self.low..spans.len() {
            self.low = row;
            if best.lacks(row, spans[row].lower) {
                return true;
            }
        }
        self.low = spans.len();
        false
    }

    // Whether more documents may score above an edge than there are rows above it.
    fn are_too_many(
        &mut self,
        cursors: &Cursors<'_>,
        known: &MetDocuments,
        spans: &[Span],
        floor: u64,
    ) -> bool
        requires { AreMetDocuments (shown_on cursors.now) known.now }
        ensures { IsTrue result → IsUnshownAt spans.now floor (shown_on cursors.now) known.now }
    {
        for row in self.row..=spans.len() {
            self.row = row;
            let score = most_from(spans, row, floor);
            self.crowd.gather(cursors, known, row, score);
            if row < how_many_above(cursors, known, &self.crowd.slots, score) {
                return true;
            }
            self.crowd.clear();
        }
        false
    }
}
