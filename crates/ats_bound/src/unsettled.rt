//! Slots that show that no answer is settled yet.

ghost use Rattle.std.specs.Prelude.{IsTrue};
ghost use Rattle.ats_bound.specs.Cursors.{shown_on};
ghost use Rattle.ats_bound.specs.Inner.MetDocuments.{AreMetDocuments};
ghost use Rattle.ats_bound.specs.Inner.Running.{IsOpenAt};

use crate::bounds::{bracket_of, is_around, overlap};
use crate::cursors::Cursors;
use crate::met_documents::MetDocuments;
use std::alloc::Global;
use std::cmp::Reverse;

// A slot whose document was one of the best when it was seen, with its bounds at that moment.
#[derive(Clone, Copy)]
struct Row {
    slot: usize,
    lo: u64,
    hi: u64,
}

/// One slot, or two, whose brackets show that no answer is settled, as long as they do.
///
/// Lower bounds never fall, upper bounds never rise, and the smallest of the best scores never falls. So a document
/// whose upper bound is not above that score is never checked again: [`Unsettled::look`] goes once through the slots,
/// and keeps those of the best documents apart. What it misses costs only time.
#[derive(Drop)]
pub(crate) struct Unsettled {
    idle: bool,
    around: usize,
    left: usize,
    right: usize,
    place: usize,
    rows: Vec<Row>,
}

impl Unsettled {
    pub(crate) fn new(alloc: Global) -> Unsettled {
        Unsettled::of(alloc, false)
    }

    /// One that searches for nothing, for a walk that does not end at a settled answer.
    pub(crate) fn idle(alloc: Global) -> Unsettled {
        Unsettled::of(alloc, true)
    }

    fn of(alloc: Global, idle: bool) -> Unsettled {
        Unsettled {
            idle,
            around: 0,
            left: 0,
            right: 0,
            place: 0,
            rows: Vec::new(alloc),
        }
    }

    /// Whether these slots show that no answer is settled. The score is the smallest of the best lower bounds.
    pub(crate) fn stands(&self, cursors: &Cursors<'_>, known: &MetDocuments, score: u64) -> bool
        requires { AreMetDocuments (shown_on cursors.now) known.now }
        ensures { IsTrue result → IsOpenAt score (shown_on cursors.now) known.now }
    {
        let size = known.len();
        if self.around < size && is_around(score, bracket_of(cursors, known.get(self.around))) {
            return true;
        }
        if self.left >= size || self.right >= size {
            return false;
        }
        let left = bracket_of(cursors, known.get(self.left));
        let right = bracket_of(cursors, known.get(self.right));
        overlap(score, left, right)
    }

    /// Searches for other slots after these no longer show it.
    pub(crate) fn look(&mut self, cursors: &Cursors<'_>, known: &MetDocuments, score: u64)
        requires { AreMetDocuments (shown_on cursors.now) known.now }
    {
        if self.idle || cursors.threshold() > score || self.stands(cursors, known, score) {
            return;
        }
        if self.sweep(cursors, known, score) {
            return;
        }
        self.refresh(cursors, known);
        self.rows.retain(|row| row.hi > score);
        self.rows
            .sort_unstable_by_key(|row| (Reverse(row.lo), Reverse(row.hi)));
        self.compare(score);
    }

    // Goes on through the slots to a document whose bracket lies around the score, and keeps those above it apart. If
    // memory runs out, one is left out.
    fn sweep(&mut self, cursors: &Cursors<'_>, known: &MetDocuments, score: u64) -> bool
        requires { AreMetDocuments (shown_on cursors.now) known.now }
    {
        for slot in self.place..known.len() {
            self.place = slot;
            let bracket = bracket_of(cursors, known.get(slot));
            if is_around(score, bracket) {
                self.around = slot;
                return true;
            }
            if bracket.hi > score {
                let _ = self.rows.push(Row {
                    slot,
                    lo: bracket.lo,
                    hi: bracket.hi,
                });
            }
        }
        self.place = known.len();
        false
    }

    // Updates the bounds of the rows.
    fn refresh(&mut self, cursors: &Cursors<'_>, known: &MetDocuments)
        requires { AreMetDocuments (shown_on cursors.now) known.now }
    {
        for row in &mut self.rows {
            if row.slot < known.len() {
                let bracket = bracket_of(cursors, known.get(row.slot));
                row.lo = bracket.lo;
                row.hi = bracket.hi;
            }
        }
    }

    // Takes the last row if its bracket lies around the score, else the neighbours that overlap most.
    fn compare(&mut self, score: u64) {
        let mut most = 0;
        for i in 1..self.rows.len() {
            let above = self.rows[i - 1];
            let below = self.rows[i];
            let shared = below
                .hi
                .saturating_sub(above.lo)
                .min(above.hi.saturating_sub(below.lo));
            if shared > most {
                most = shared;
                self.left = above.slot;
                self.right = below.slot;
            }
        }
        if let Some(row) = self.rows.last() {
            if row.lo < score {
                self.around = row.slot;
            }
        }
    }
}
