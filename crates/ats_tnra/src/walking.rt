//! The walk with no random access, from the first cut to the one at which it ends.

ghost use Rattle.std.specs.Prelude.{◌≡◌, ◌↔◌, ℕ, List, length, IsTrue, IfOk, IfSome, MatchOption};
ghost use Rattle.ats_bound.specs.Chosen.{IsChosen};
ghost use Rattle.ats_bound.specs.Cut.{bracket, threshold};
ghost use Rattle.ats_bound.specs.Floors.{AreWithin, IsFirstWithinBy};
ghost use Rattle.ats_bound.specs.Settled.{IsSettled};
ghost use Rattle.ats_bound.specs.Schedule.{AreBracketsOf, AreWholeLanes, IsFirstSettled, first_cut, shown, whole_lanes};
ghost use Rattle.ats_tnra.specs.Inner.Ends.{EndsAt, HasRun, rows_of};

use crate::memory::OutOfMemory;
use ats_bound::{Lane, Running, Span, Walk};
use ats_impact::Top;
use std::alloc::Global;

// The walk at the first cut, for an answer of at most `top` rows, or else of one for each span.
fn begin<'a>(
    alloc: Global,
    lanes: &[Lane<'a>],
    top: &Option<Top>,
    spans: &[Span],
) -> Result<Running<'a>, OutOfMemory>
    requires { AreWholeLanes (whole_lanes lanes.now) }
    ensures { IfOk result (λ walk. walk ≡ record {
      lanes = whole_lanes lanes.now;
      rows = rows_of top.now spans.now;
      cut = first_cut (whole_lanes lanes.now);
    }) }
{
    match top {
        Some(top) => Ok(Running::new(alloc, lanes, *top)?),
        None => Ok(Running::with_rows(alloc, lanes, spans.len())?),
    }
}

// Whether the walk ends at its cut: where its answer is settled if there is a `top`, or else where it is within the
// spans.
fn is_reached(
    walk: &mut Running<'_>,
    top: &Option<Top>,
    spans: &[Span],
    floor: u64,
) -> Result<bool, OutOfMemory>
    requires { walk.old.rows ≡ rows_of top.now spans.now }
    ensures reached { IfOk result (λ reached. IsTrue reached
        ↔ EndsAt walk.old.lanes top.now (record { spans = spans.now; floor = floor }) walk.old.cut) }
    ensures same { walk.new ≡ walk.old }
{
    match top {
        Some(_) => Ok(walk.settled()?),
        None => Ok(walk.within(spans, floor)?),
    }
}

// The walk at the first cut at which it ends, or at the last cut if it ends at none.
fn run<'a>(
    alloc: Global,
    lanes: &[Lane<'a>],
    top: &Option<Top>,
    spans: &[Span],
    floor: u64,
) -> Result<Running<'a>, OutOfMemory>
    requires { AreWholeLanes (whole_lanes lanes.now) }
    ensures { IfOk result (HasRun (whole_lanes lanes.now) top.now (record { spans = spans.now; floor = floor })) }
{
    let mut walk = begin(alloc, lanes, top, spans)?;
    while let Some(lane) = walk.next_lane() {
        if is_reached(&mut walk, top, spans, floor)? {
            return Ok(walk);
        }
        walk.advance(lane)?;
    }
    Ok(walk)
}

/// The first cut of the schedule at which an answer is settled, with the brackets of the documents met
/// there by document ascending, the chosen answer and the threshold.
///
/// The schedule begins with one entry of each list. Each turn shows one more entry of the list that is not whole and
/// whose coefficient times last shown impact is the largest; a tie goes to the first such lane.
pub fn walk(alloc: Global, lanes: &[Lane<'_>], top: Top) -> Result<Walk, OutOfMemory>
    requires { AreWholeLanes (whole_lanes lanes.now) }
    ensures cut { IfOk result (λ walk. IsFirstSettled (whole_lanes lanes.now) top walk.cut) }
    ensures brackets { IfOk result (λ walk. AreBracketsOf (shown (whole_lanes lanes.now) walk.cut) walk.brackets) }
    ensures threshold { IfOk result (λ walk. walk.threshold ≡ threshold (shown (whole_lanes lanes.now) walk.cut)) }
    ensures picks { IfOk result (λ walk. IsChosen walk.brackets top walk.picks) }
    ensures settled { IfOk result (λ walk. IsSettled walk.brackets walk.picks walk.threshold top) }
{
    let walk = run(alloc, lanes, &Some(top), &[], 0)?;
    Ok(walk.finish()?)
}

/// The first cut of the schedule of [`walk`] at which all that is asked of a shard of a catalog is shown, with the same
/// beside it: a row for each span, which lies within it, and nothing else above the floor. `None` if no cut shows it.
pub fn walk_within(
    alloc: Global,
    lanes: &[Lane<'_>],
    spans: &[Span],
    floor: u64,
) -> Result<Option<Walk>, OutOfMemory>
    requires { AreWholeLanes (whole_lanes lanes.now) }
    ensures cut { IfOk result (λ found. MatchOption found
        ((cut : List ℕ) → ¬ IsFirstWithinBy bracket (whole_lanes lanes.now)
        (record { spans = spans.now; floor = floor }) cut)
        (λ walk. IsFirstWithinBy bracket (whole_lanes lanes.now)
        (record { spans = spans.now; floor = floor }) walk.cut)) }
    ensures brackets { IfOk result (λ found. IfSome found
        (λ walk. AreBracketsOf (shown (whole_lanes lanes.now) walk.cut) walk.brackets)) }
    ensures threshold { IfOk result (λ found. IfSome found
        (λ walk. walk.threshold ≡ threshold (shown (whole_lanes lanes.now) walk.cut))) }
    ensures picks { IfOk result (λ found. IfSome found (λ walk. IsChosen walk.brackets (length spans.now) walk.picks)) }
    ensures within { IfOk result (λ found. IfSome found (λ walk.
        AreWithin walk.brackets walk.picks walk.threshold (record { spans = spans.now; floor = floor }))) }
{
    let mut walk = run(alloc, lanes, &None, spans, floor)?;
    if !is_reached(&mut walk, &None, spans, floor)? {
        return Ok(None);
    }
    Ok(Some(walk.finish()?))
}
