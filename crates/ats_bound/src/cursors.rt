//! The state of a walk in the schedule.

ghost use Rattle.std.specs.Prelude.{◌≡◌, ◌↔◌, ◌<◌, ◌≤◌, ◌+◌, ◌*◌, ◌^◌, ℕ, length, map, set, sum, slice_index, IfOk, IsNone, MatchOption};
ghost use Rattle.ats_bound.specs.Cut.{missing, rest, threshold};
ghost use Rattle.ats_bound.specs.Cursors.{IsStage, entry_on, lane_on, shown_on};
ghost use Rattle.ats_bound.specs.Inner.Cursors.{named_by};
ghost use Rattle.ats_bound.specs.Schedule.{AreAllShown, AreWholeLanes, IsCut, IsNextLane, IsOpen, first_cut, shown, whole_lanes, most_gain};

use crate::cut::Cut;
use crate::lane::Lane;
use crate::memory::OutOfMemory;
use crate::turns::{first_counts, rest};
use std::alloc::Global;
use std::marker::Model;

/// The lists of a query, how many entries of each are shown, what the rest of each can add to a score, and what all
/// rests together can add.
#[derive(Drop)]
pub(crate) struct Cursors<'a> {
    lanes: Vec<Lane<'a>>,
    counts: Vec<u32>,
    rests: Vec<u32>,
    threshold: u64,
}

impl<'a> Model for Cursors<'a> {
    ghost use Rattle.ats_bound.specs.Cursors.{Stage};
    ghost use Rattle.ats_bound.specs.Inner.Cursors.{AreRests};
    ghost use Rattle.ats_bound.specs.Schedule.{whole_lanes};

    ghost Value = { Stage };

    ghost view = { λ f. record { lanes = whole_lanes f.lanes.items; cut = f.counts.items } };

    ghost invariant = { λ f.
        AreRests (record { lanes = whole_lanes f.lanes.items; cut = f.counts.items }) f.rests.items f.threshold };
}

/// What an entry adds to the score of its document.
#[derive(Clone, Copy)]
pub(crate) struct Gain {
    pub(crate) doc: u32,
    pub(crate) gain: u32,
}

// What the rest of each list can add.
fn rests(alloc: Global, lanes: &[Lane<'_>], counts: &[u32]) -> Result<Vec<u32>, OutOfMemory>
    requires lanes { AreWholeLanes (whole_lanes lanes.now) }
    requires cut { IsCut (whole_lanes lanes.now) counts.now }
    ensures { IfOk result (λ rests. rests.items ≡ map rest (shown (whole_lanes lanes.now) counts.now)) }
{
    let mut rests: Vec<u32> = Vec::new(alloc);
    for (i, lane) in lanes.iter().enumerate() {
        rests.push(rest(lane, counts[i]))?;
    }
    Ok(rests)
}

// The sum of rests.
fn total(rests: &[u32]) -> u64
    requires { length rests.now ≤ 32 }
    ensures { result ≡ sum rests.now }
{
    rests.iter().map(|rest| *rest as u64).sum()
}

impl<'a> Cursors<'a> {
    /// The first cut: one entry of each list is shown.
    pub(crate) fn new(alloc: Global, lanes: &[Lane<'a>]) -> Result<Cursors<'a>, OutOfMemory>
        requires { AreWholeLanes (whole_lanes lanes.now) }
        ensures { IfOk result (λ cursors.
            cursors ≡ record { lanes = whole_lanes lanes.now; cut = first_cut (whole_lanes lanes.now) }) }
    {
        let counts = first_counts(alloc, lanes)?;
        let rests = rests(alloc, lanes, &counts)?;
        let threshold = total(&rests);
        Ok(Cursors {
            lanes: lanes.to_vec(alloc)?,
            counts,
            rests,
            threshold,
        })
    }

    /// The list that shows one more entry in the next turn. `None` if nothing that is not shown can add to a score,
    /// which is when all lists are whole.
    pub(crate) fn next_lane(&self) -> Option<u32>
        ensures next { MatchOption result (threshold (shown_on self.now) ≡ 0) (IsNextLane self.now.lanes self.now.cut) }
        ensures whole { IsNone result ↔ AreAllShown (shown_on self.now) }
        ensures stage { IsStage self.now }
    {
        let mut place = 0;
        let mut greatest = 0;
        for (i, rest) in self.rests.iter().enumerate() {
            if *rest > greatest {
                place = i;
                greatest = *rest;
            }
        }
        if greatest == 0 {
            None
        } else {
            Some(place as u32)
        }
    }

    /// What the next entry of a list adds to the score of its document.
    pub(crate) fn gain(&self, lane: u32) -> Gain
        requires inside { lane < length self.now.lanes }
        requires more { IsOpen self.now.lanes self.now.cut lane }
        ensures doc { result.doc ≡ (entry_on self.now lane).doc }
        ensures gain { result.gain ≡ (lane_on self.now lane).coefficient * (entry_on self.now lane).impact }
        ensures few { result.gain ≤ most_gain }
    {
        let list = self.lanes[lane as usize];
        let entry = list.entries[self.counts[lane as usize] as usize];
        Gain {
            doc: entry.doc,
            gain: list.coefficient * entry.impact as u32,
        }
    }

    /// Shows one more entry of a list.
    pub(crate) fn advance(&mut self, lane: u32)
        requires inside { lane < length self.old.lanes }
        requires more { IsOpen self.old.lanes self.old.cut lane }
        ensures lanes { self.new.lanes ≡ self.old.lanes }
        ensures cut { self.new.cut ≡ set self.old.cut lane (slice_index self.old.cut lane + 1) }
    {
        let i = lane as usize;
        self.counts[i] += 1;
        let rest = rest(&self.lanes[i], self.counts[i]);
        self.rests[i] = rest;
        self.threshold = total(&self.rests);
    }

    /// The most that a document can score that no shown entry names.
    pub(crate) fn threshold(&self) -> u64
        ensures { result ≡ threshold (shown_on self.now) }
    {
        self.threshold
    }

    /// The most that the lists can add to a document's score that do not name it. The binary digits of the number show
    /// which do, the first list by the lowest digit.
    pub(crate) fn missing(&self, named: u32) -> u64
        ensures sum { (doc : ℕ) → named ≡ named_by (shown_on self.now) doc → result ≡ missing (shown_on self.now) doc }
        ensures few { result ≤ 2 ^ 37 }
    {
        let mut sum: u64 = 0;
        let mut digits = named;
        for rest in &self.rests {
            if digits % 2 == 0 {
                sum += *rest as u64;
            }
            digits /= 2;
        }
        sum
    }

    /// How many entries of each list are shown.
    pub(crate) fn cut(self) -> Cut
        ensures { result ≡ self.entry.cut }
    {
        let Cursors {
            lanes: _,
            counts,
            rests: _,
            threshold: _,
        } = self;
        Cut::of(counts)
    }
}
