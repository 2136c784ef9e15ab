//! The walk with random access, from the first cut to the one at which it ends.

ghost use Rattle.std.specs.Prelude.{◌≡◌, ◌↔◌, ℕ, List, IsTrue, IfOk, IfSome, MatchOption};
ghost use Rattle.ats_bound.specs.Chosen.{IsChosen};
ghost use Rattle.ats_bound.specs.Cut.{threshold};
ghost use Rattle.ats_bound.specs.Floors.{AreWithin, IsFirstWithinBy, floors_of_share};
ghost use Rattle.ats_bound.specs.Lookup.{looked_up};
ghost use Rattle.ats_bound.specs.Cursors.{shown_on};
ghost use Rattle.ats_bound.specs.Scored.{exactly};
ghost use Rattle.ats_bound.specs.Settled.{IsSettled};
ghost use Rattle.ats_bound.specs.Schedule.{AreBracketsBy, AreWholeLanes, Bounding, IsFirstSettledBy, shown, whole_lanes};
ghost use Rattle.ats_tra.specs.Inner.Ends.{EndsAt, HasRun, rows_of};
ghost use Rattle.ats_tra.specs.Inner.Looked.{score_by};

use crate::access::RandomAccess;
use crate::looking::{first_scores, score};
use crate::memory::OutOfMemory;
use ats_bound::{Lane, Scored, Share, Walk};
use ats_impact::Top;
use std::alloc::Global;

// Where a walk ends: where an answer of at most so many rows is settled, or where a share is shown.
#[derive(Drop)]
enum End {
    Settled(Top),
    Within(Share),
}

impl End {
    // How many rows the answer may have.
    fn rows(&self) -> u32
        ensures { result ≡ rows_of self.now }
    {
        match self {
            End::Settled(top) => top.get(),
            End::Within(share) => share.rows,
        }
    }

    // Whether the walk ends at its cut.
    fn is_reached(&self, walk: &Scored<'_>) -> bool
        requires { walk.now.rows ≡ rows_of self.now }
        ensures { (bounds : Bounding) → AreBracketsBy bounds (shown_on walk.now.stage) walk.now.brackets
            → IsTrue result ↔ EndsAt bounds walk.now.stage.lanes self.now walk.now.stage.cut }
    {
        match self {
            End::Settled(_) => walk.settled(),
            End::Within(share) => walk.within(share.floor),
        }
    }
}

// The score of a document, which is not summed again if the document is met already.
fn score_at<A: RandomAccess>(access: &A, lanes: &[Lane<'_>], walk: &Scored<'_>, doc: u32) -> u64
    requires lanes { AreWholeLanes (whole_lanes lanes.now) }
    requires known { AreBracketsBy (exactly (score_by (A.table access.now) (whole_lanes lanes.now)))
        (shown_on walk.now.stage) walk.now.brackets }
    ensures { result ≡ score_by (A.table access.now) (whole_lanes lanes.now) doc }
{
    match walk.score_of(doc) {
        Some(score) => score,
        None => score(access, lanes, doc),
    }
}

// The walk at the first cut at which it ends, or at the last cut if it ends at none.
fn run<'a, A: RandomAccess>(
    alloc: Global,
    lanes: &[Lane<'a>],
    end: &End,
    access: &A,
) -> Result<Scored<'a>, OutOfMemory>
    requires { AreWholeLanes (whole_lanes lanes.now) }
    ensures { IfOk result (HasRun (looked_up (A.table access.now)) (whole_lanes lanes.now) end.now) }
{
    let scores = first_scores(alloc, access, lanes)?;
    let mut walk = Scored::new(alloc, lanes, end.rows(), &scores)?;
    while let Some(lane) = walk.next_lane() {
        if end.is_reached(&walk) {
            return Ok(walk);
        }
        let doc = walk.next_document(lane);
        let score = score_at(access, lanes, &walk, doc);
        walk.advance(lane, score)?;
    }
    Ok(walk)
}

/// The first cut of the schedule at which an answer is settled by the scores of the documents met there,
/// with these scores as brackets by document ascending, the chosen answer and the threshold.
///
/// The schedule begins with one entry of each list. Each turn shows one more entry of the list that is not whole and
/// whose coefficient times last shown impact is the largest; a tie goes to the first such lane. The score of a document
/// is summed once, when it is first met.
pub fn walk<A: RandomAccess>(
    alloc: Global,
    lanes: &[Lane<'_>],
    top: Top,
    access: &A,
) -> Result<Walk, OutOfMemory>
    requires { AreWholeLanes (whole_lanes lanes.now) }
    ensures cut { IfOk result (λ walk.
        IsFirstSettledBy (looked_up (A.table access.now)) (whole_lanes lanes.now) top walk.cut) }
    ensures brackets { IfOk result (λ walk.
        AreBracketsBy (looked_up (A.table access.now)) (shown (whole_lanes lanes.now) walk.cut) walk.brackets) }
    ensures threshold { IfOk result (λ walk. walk.threshold ≡ threshold (shown (whole_lanes lanes.now) walk.cut)) }
    ensures picks { IfOk result (λ walk. IsChosen walk.brackets top walk.picks) }
    ensures settled { IfOk result (λ walk. IsSettled walk.brackets walk.picks walk.threshold top) }
{
    let walk = run(alloc, lanes, &End::Settled(top), access)?;
    Ok(walk.finish()?)
}

/// The first cut of the schedule of [`walk`] at which all that is asked of a shard is shown, with the same beside it;
/// `None` if no cut shows it.
pub fn walk_within<A: RandomAccess>(
    alloc: Global,
    lanes: &[Lane<'_>],
    share: Share,
    access: &A,
) -> Result<Option<Walk>, OutOfMemory>
    requires { AreWholeLanes (whole_lanes lanes.now) }
    ensures cut { IfOk result (λ found. MatchOption found
        ((cut : List ℕ)
        → ¬ IsFirstWithinBy (looked_up (A.table access.now)) (whole_lanes lanes.now) (floors_of_share share) cut)
        (λ walk. IsFirstWithinBy (looked_up (A.table access.now)) (whole_lanes lanes.now) (floors_of_share share)
        walk.cut)) }
    ensures brackets { IfOk result (λ found. IfSome found (λ walk.
        AreBracketsBy (looked_up (A.table access.now)) (shown (whole_lanes lanes.now) walk.cut) walk.brackets)) }
    ensures threshold { IfOk result (λ found. IfSome found
        (λ walk. walk.threshold ≡ threshold (shown (whole_lanes lanes.now) walk.cut))) }
    ensures picks { IfOk result (λ found. IfSome found (λ walk. IsChosen walk.brackets share.rows walk.picks)) }
    ensures within { IfOk result (λ found. IfSome found
        (λ walk. AreWithin walk.brackets walk.picks walk.threshold (floors_of_share share))) }
{
    let end = End::Within(share);
    let walk = run(alloc, lanes, &end, access)?;
    if !end.is_reached(&walk) {
        return Ok(None);
    }
    Ok(Some(walk.finish()?))
}
