//! The walk of the lists, by either algorithm.

ghost use Rattle.std.specs.Prelude.{◌≡◌, ◌≤◌, ℕ, List, map, length, IfOk, IfSome, MatchOption};
ghost use Rattle.ats_bound.specs.Chosen.{IsChosen};
ghost use Rattle.ats_bound.specs.Floors.{IsFirstWithinBy, floors_of_share};
ghost use Rattle.ats_bound.specs.Schedule.{AreBracketsBy, AreWholeLanes, IsFirstSettledBy, shown, whole_lanes};
ghost use Rattle.ats_proof.specs.declared.record.Algorithm.TheVariants.{Tra};
ghost use Rattle.ats_honest.specs.Lanes.{bounding, lane_of};

use crate::access::Impacts;
use crate::fault::OutOfMemory;
use crate::present_terms::PresentTerms;
use ats_bound::{Lane, Share, Walk};
use ats_hash::HashKind;
use ats_impact::Top;
use ats_index::Index;
use ats_proof::Algorithm;
use std::alloc::Global;

/// The end of the walk of the lists of the present terms.
pub(crate) fn walk<H: HashKind>(
    alloc: Global,
    index: &Index<H>,
    present: &PresentTerms<'_>,
    lanes: &[Lane<'_>],
    top: Top,
    algorithm: Algorithm,
) -> Result<Walk, OutOfMemory>
    requires whole { AreWholeLanes (whole_lanes lanes.now) }
    requires own { whole_lanes lanes.now ≡ map (lane_of index.now.texts) present.now }
    ensures cut { IfOk result
        (λ walk. IsFirstSettledBy (bounding algorithm (whole_lanes lanes.now)) (whole_lanes lanes.now) top walk.cut) }
    ensures brackets { IfOk result
        (λ walk. AreBracketsBy (bounding algorithm (whole_lanes lanes.now))
        (shown (whole_lanes lanes.now) walk.cut) walk.brackets) }
    ensures picks { IfOk result (λ walk. IsChosen walk.brackets top walk.picks) }
    ensures rows { IfOk result (λ walk. length walk.picks ≤ top) }
{
    match algorithm {
        Algorithm::Tra => Ok(ats_tra::walk(alloc, lanes, top, &Impacts { index, present })?),
        Algorithm::Tnra => Ok(ats_tnra::walk(alloc, lanes, top)?),
    }
}

/// The end of the walk at which a share is shown by scores that are looked up; `None` if no cut shows it.
pub(crate) fn walk_share<H: HashKind>(
    alloc: Global,
    index: &Index<H>,
    present: &PresentTerms<'_>,
    lanes: &[Lane<'_>],
    share: Share,
) -> Result<Option<Walk>, OutOfMemory>
    requires whole { AreWholeLanes (whole_lanes lanes.now) }
    requires own { whole_lanes lanes.now ≡ map (lane_of index.now.texts) present.now }
    ensures cut { IfOk result (λ found. MatchOption found
        ((cut : List ℕ) → ¬ IsFirstWithinBy (bounding Tra (whole_lanes lanes.now)) (whole_lanes lanes.now)
        (floors_of_share share) cut)
        (λ walk. IsFirstWithinBy (bounding Tra (whole_lanes lanes.now)) (whole_lanes lanes.now) (floors_of_share share)
        walk.cut)) }
    ensures brackets { IfOk result (λ found. IfSome found (λ walk.
        AreBracketsBy (bounding Tra (whole_lanes lanes.now)) (shown (whole_lanes lanes.now) walk.cut) walk.brackets)) }
    ensures picks { IfOk result (λ found. IfSome found (λ walk. IsChosen walk.brackets share.rows walk.picks)) }
    ensures rows { IfOk result (λ found. IfSome found (λ walk. length walk.picks ≤ share.rows)) }
{
    let found = ats_tra::walk_within(alloc, lanes, share, &Impacts { index, present })?;
    Ok(found)
}
