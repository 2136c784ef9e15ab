//! The turns of the schedule.

ghost use Rattle.std.specs.Prelude.{◌≡◌, ◌≤◌, length, IfOk};
ghost use Rattle.ats_bound.specs.Cut.{lane_of, rest};
ghost use Rattle.ats_bound.specs.Schedule.{IsWholeLane, first_cut, whole_lane, whole_lanes};

use crate::lane::Lane;
use crate::memory::OutOfMemory;
use std::alloc::Global;

/// The most that the entries of a lane after the first `count` can add to a score.
pub(crate) fn rest(lane: &Lane<'_>, count: u32) -> u32
    requires whole { IsWholeLane (whole_lane lane.now) }
    requires some { 1 ≤ count }
    requires most { count ≤ length lane.now.entries.now }
    ensures { result ≡ rest (lane_of lane.now.coefficient lane.now.entries.now count) }
{
    let shown = count as usize;
    if shown == lane.entries.len() {
        return 0;
    }
    lane.coefficient * lane.entries[shown - 1].impact as u32
}

/// The first cut: one entry of each list.
pub(crate) fn first_counts(alloc: Global, lanes: &[Lane<'_>]) -> Result<Vec<u32>, OutOfMemory>
    ensures { IfOk result (λ counts. counts.items ≡ first_cut (whole_lanes lanes.now)) }
{
    Ok(vec![in alloc; 1u32; lanes.len()]?)
}
