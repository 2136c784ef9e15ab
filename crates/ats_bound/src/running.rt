//! A walk with no random access, from cut to cut.

ghost use Rattle.std.specs.Prelude.{◌≡◌, ◌↔◌, ◌<◌, ◌≤◌, ◌+◌, ◌*◌, ◌^◌, ℕ, [], List, length, set, slice_index, slice_index_or, MatchOption, IsNone, IsTrue, IfOk, OnOk, OnErr};
ghost use Rattle.ats_bound.specs.declared.bracket.Bracket.{Bracket as Bounded};
ghost use Rattle.ats_bound.specs.Inner.Best.{AreBest};
ghost use Rattle.ats_bound.specs.Cut.{bracket, threshold};
ghost use Rattle.ats_bound.specs.Floors.{IsWithinBy};
ghost use Rattle.ats_bound.specs.Inner.MetDocuments.{AreMetDocuments, Meets, lows, met_at};
ghost use Rattle.ats_bound.specs.Schedule.{AreAllShown, AreBracketsOf, AreWholeLanes, IsNextLane, IsOpen, IsWholeLane, first_cut, shown, whole_lane, whole_lanes, most_gain};
ghost use Rattle.ats_bound.specs.Running.{shown_in};
ghost use Rattle.ats_bound.specs.QuickTest.{PassesQuickTest, TellsSettled};
ghost use Rattle.ats_bound.specs.Stopped.{IsStoppedAt};

use crate::best::Best;
use crate::bounds::brackets;
use crate::choosing::choose_rows;
use crate::cursors::{Cursors, Gain};
use crate::lane::Lane;
use crate::memory::OutOfMemory;
use crate::met_documents::{Met, MetDocuments};
use crate::settling::{rows_settled, within};
use crate::span::Span;
use crate::unsettled::Unsettled;
use crate::unshown::Unshown;
use crate::walk::Walk;
use ats_impact::Top;
use std::alloc::Global;
use std::marker::Model;

/// A walk that bounds scores by the shown entries only, at some cut of the schedule.
///
/// Contracts see it as its whole lists, the number of rows and its cut. What is known of each met document is kept from
/// cut to cut, so that one more entry costs little. A slot that shows that no answer is settled is remembered as long
/// as it does.
#[derive(Drop)]
pub struct Running<'a> {
    alloc: Global,
    cursors: Cursors<'a>,
    rows: usize,
    known: MetDocuments,
    best: Best,
    unsettled: Unsettled,
    unshown: Unshown,
}

impl<'a> Model for Running<'a> {
    ghost use Rattle.ats_bound.specs.Running.{Standing};
    ghost use Rattle.ats_bound.specs.Inner.Running.{IsRunning};

    ghost Value = { Standing };

    ghost view = { λ r. record { lanes = r.cursors.lanes; rows = r.rows; cut = r.cursors.cut } };

    ghost invariant = { λ r. IsRunning r.cursors r.rows r.known r.best };
}

// The digit of a list among those that show which lists name a document.
fn digit(lane: u32) -> u32
    requires { lane < 32 }
    ensures { result ≡ 2 ^ lane }
{
    1 << lane
}

// What the first entry of a list adds to the score of its document.
fn first_gain(lane: &Lane<'_>) -> Gain
    requires { IsWholeLane (whole_lane lane.now) }
    ensures doc { result.doc ≡ (slice_index_or lane.now.entries.now 0 record { doc = 0; impact = 0 }).doc }
    ensures gain { result.gain
        ≡ lane.now.coefficient * (slice_index_or lane.now.entries.now 0 record { doc = 0; impact = 0 }).impact }
    ensures few { result.gain ≤ most_gain }
{
    let entry = lane.entries[0];
    Gain {
        doc: entry.doc,
        gain: lane.coefficient * entry.impact as u32,
    }
}

// Adds to what is known that one more entry names a document. If memory runs out, nothing changes.
fn meet(
    known: &mut MetDocuments,
    best: &mut Best,
    gain: Gain,
    digit: u32,
) -> Result<(), OutOfMemory>
    requires { (slot : ℕ) → slot < length known.old → (met_at known.old slot).doc ≡ gain.doc
        → ((met_at known.old slot).lo + gain.gain < 2 ^ 64) × ((met_at known.old slot).named + digit < 2 ^ 32) }
    ensures met { OnOk result (Meets known.old known.new gain.doc gain.gain digit) }
    ensures best { OnOk result (AreBest best.old (lows known.old) → AreBest best.new (lows known.new)) }
    ensures size { length best.new ≡ length best.old }
    ensures same { OnErr result (known.new ≡ known.old) }
    ensures same_best { OnErr result (best.new ≡ best.old) }
{
    match known.find(gain.doc) {
        Some(slot) => {
            let met = known.get(slot);
            let lo = met.lo + gain.gain as u64;
            best.raise(met.lo, lo);
            known.set(
                slot,
                Met {
                    doc: met.doc,
                    lo,
                    named: met.named + digit,
                },
            );
        }
        None => {
            known.push(Met {
                doc: gain.doc,
                lo: gain.gain as u64,
                named: digit,
            })?;
            best.add(gain.gain as u64);
        }
    }
    Ok(())
}

// Adds the documents that the first entries of the lists name.
fn meet_first(
    lanes: &[Lane<'_>],
    known: &mut MetDocuments,
    best: &mut Best,
) -> Result<(), OutOfMemory>
    requires lanes { AreWholeLanes (whole_lanes lanes.now) }
    requires none { known.old ≡ [] }
    requires best { AreBest best.old [] }
    ensures known { OnOk result
        (AreMetDocuments (shown (whole_lanes lanes.now) (first_cut (whole_lanes lanes.now))) known.new) }
    ensures best { OnOk result (AreBest best.new (lows known.new)) }
    ensures size { length best.new ≡ length best.old }
{
    for (i, lane) in lanes.iter().enumerate() {
        meet(known, best, first_gain(lane), digit(i as u32))?;
    }
    Ok(())
}

impl<'a> Running<'a> {
    /// Begins at the first cut, which shows one entry of each list.
    pub fn new(alloc: Global, lanes: &[Lane<'a>], top: Top) -> Result<Running<'a>, OutOfMemory>
        requires { AreWholeLanes (whole_lanes lanes.now) }
        ensures { IfOk result (λ running.
            running ≡ record { lanes = whole_lanes lanes.now; rows = top; cut = first_cut (whole_lanes lanes.now) }) }
    {
        Running::begin(alloc, lanes, top.get() as usize, Unsettled::new(alloc))
    }

    /// Begins there for an answer of so many rows, which may be none. Such a walk ends by [`Running::within`], and
    /// looks for nothing that [`Running::settled`] would need to be quick.
    pub fn with_rows(
        alloc: Global,
        lanes: &[Lane<'a>],
        rows: usize,
    ) -> Result<Running<'a>, OutOfMemory>
        requires { AreWholeLanes (whole_lanes lanes.now) }
        ensures { IfOk result (λ running.
            running ≡ record { lanes = whole_lanes lanes.now; rows = rows; cut = first_cut (whole_lanes lanes.now) }) }
    {
        Running::begin(alloc, lanes, rows, Unsettled::idle(alloc))
    }

    // Begins at the first cut.
    fn begin(
        alloc: Global,
        lanes: &[Lane<'a>],
        rows: usize,
        unsettled: Unsettled,
    ) -> Result<Running<'a>, OutOfMemory>
        requires { AreWholeLanes (whole_lanes lanes.now) }
        ensures { IfOk result (λ running.
            running ≡ record { lanes = whole_lanes lanes.now; rows = rows; cut = first_cut (whole_lanes lanes.now) }) }
    {
        let cursors = Cursors::new(alloc, lanes)?;
        let mut known = MetDocuments::new(alloc);
        let mut best = Best::new(alloc, rows.max(1))?;
        meet_first(lanes, &mut known, &mut best)?;
        Ok(Running {
            alloc,
            cursors,
            rows,
            known,
            best,
            unsettled,
            unshown: Unshown::new(alloc),
        })
    }

    /// The list that shows one more entry in the next turn; `None` if all lists are whole.
    pub fn next_lane(&self) -> Option<u32>
        ensures next { MatchOption result (threshold (shown_in self.now) ≡ 0) (IsNextLane self.now.lanes self.now.cut) }
        ensures whole { IsNone result ↔ AreAllShown (shown_in self.now) }
    {
        self.cursors.next_lane()
    }

    /// Shows one more entry of a list. If memory runs out, the walk stays at its cut.
    pub fn advance(&mut self, lane: u32) -> Result<(), OutOfMemory>
        requires inside { lane < length self.old.lanes }
        requires more { IsOpen self.old.lanes self.old.cut lane }
        ensures ok { OnOk result (self.new ≡ record {
          lanes = self.old.lanes;
          rows = self.old.rows;
          cut = set self.old.cut lane (slice_index self.old.cut lane + 1);
        }) }
        ensures err { OnErr result (self.new ≡ self.old) }
    {
        let gain = self.cursors.gain(lane);
        meet(&mut self.known, &mut self.best, gain, digit(lane))?;
        self.cursors.advance(lane);
        let score = self.best.least();
        self.unsettled.look(&self.cursors, &self.known, score);
        Ok(())
    }

    /// Whether the chosen answer is settled, and so whether any answer is. Out of memory is returned only if the
    /// necessary test passes.
    pub fn settled(&self) -> Result<bool, OutOfMemory>
        ensures told { IfOk result (TellsSettled bracket self.now.lanes self.now.rows self.now.cut) }
        ensures wanted { OnErr result ((brackets : List Bounded) → AreBracketsOf (shown_in self.now) brackets
            → PassesQuickTest brackets (threshold (shown_in self.now)) self.now.rows) }
    {
        let rows = self.rows;
        if rows == 0 {
            return Ok(true);
        }
        let threshold = self.cursors.threshold();
        if threshold == 0 {
            return Ok(true);
        }
        let score = self.best.least();
        if threshold > score {
            return Ok(false);
        }
        if self.unsettled.stands(&self.cursors, &self.known, score) {
            return Ok(false);
        }
        let brackets = brackets(self.alloc, &self.cursors, &self.known)?;
        let picks = choose_rows(self.alloc, brackets.as_slice(), rows)?;
        Ok(rows_settled(brackets.as_slice(), picks.as_slice(), threshold, rows))
    }

    /// Whether the chosen answer is all that is asked of a shard: it has a row for each span, which lies within it, and
    /// no other document can score above the floor.
    pub fn within(&mut self, spans: &[Span], floor: u64) -> Result<bool, OutOfMemory>
        ensures within { IfOk result (λ within. IsTrue within
            ↔ IsWithinBy bracket self.old.lanes (record { spans = spans.now; floor = floor }) self.old.cut) }
        ensures same { self.new ≡ self.old }
    {
        let threshold = self.cursors.threshold();
        if threshold > floor {
            return Ok(false);
        }
        if self
            .unshown
            .find(&self.cursors, &self.known, &self.best, spans, floor)
        {
            return Ok(false);
        }
        let brackets = brackets(self.alloc, &self.cursors, &self.known)?;
        let picks = choose_rows(self.alloc, brackets.as_slice(), spans.len())?;
        Ok(within(
            brackets.as_slice(),
            picks.as_slice(),
            threshold,
            spans,
            floor,
        ))
    }

    /// The cut, the brackets of the documents met there by document ascending, the chosen answer and the
    /// threshold.
    pub fn finish(self) -> Result<Walk, OutOfMemory>
        ensures { IfOk result (IsStoppedAt bracket self.entry.lanes self.entry.rows self.entry.cut) }
    {
        let Running {
            alloc,
            cursors,
            rows,
            known,
            best: _,
            unsettled: _,
            unshown: _,
        } = self;
        let threshold = cursors.threshold();
        let brackets = brackets(alloc, &cursors, &known)?;
        let picks = choose_rows(alloc, brackets.as_slice(), rows)?;
        Ok(Walk {
            cut: cursors.cut(),
            brackets,
            picks,
            threshold,
        })
    }
}
