//! Scores from impacts that are looked up.

ghost use Rattle.std.specs.Prelude.{◌≡◌, ◌<◌, ℕ, length, slice_index, IfOk};
ghost use Rattle.ats_bound.specs.Schedule.{AreWholeLanes, whole_lanes};
ghost use Rattle.ats_bound.specs.Scored.{first_document};
ghost use Rattle.ats_tra.specs.Inner.Looked.{score_by};

use crate::access::RandomAccess;
use crate::memory::OutOfMemory;
use ats_bound::Lane;
use std::alloc::Global;

/// The score of a document.
pub(crate) fn score<A: RandomAccess>(access: &A, lanes: &[Lane<'_>], doc: u32) -> u64
    requires { AreWholeLanes (whole_lanes lanes.now) }
    ensures { result ≡ score_by (A.table access.now) (whole_lanes lanes.now) doc }
{
    let mut sum: u64 = 0;
    for (i, lane) in lanes.iter().enumerate() {
        sum += lane.coefficient as u64 * access.impact(i as u32, doc) as u64;
    }
    sum
}

/// The scores of the documents that the first entries name, one for each list.
pub(crate) fn first_scores<A: RandomAccess>(
    alloc: Global,
    access: &A,
    lanes: &[Lane<'_>],
) -> Result<Vec<u64>, OutOfMemory>
    requires { AreWholeLanes (whole_lanes lanes.now) }
    ensures size { IfOk result (λ scores. length scores.items ≡ length lanes.now) }
    ensures scores { IfOk result (λ scores. (i : ℕ) → i < length lanes.now
        → slice_index scores.items i
        ≡ score_by (A.table access.now) (whole_lanes lanes.now) (first_document (whole_lanes lanes.now) i)) }
{
    let mut scores: Vec<u64> = Vec::new(alloc);
    for lane in lanes {
        scores.push(score(access, lanes, lane.first_document()))?;
    }
    Ok(scores)
}
