//! Whether the answer is settled, by the marks.

ghost use Rattle.std.specs.Prelude.{◌≡◌, ◌⊎◌, ◌↔◌, ◌+◌, ◌*◌, ◌≤◌, ◌<◌, ◌^◌, ℕ, List, length, IsTrue, MatchOption};
ghost use Rattle.std.specs.List.{All};
ghost use Rattle.ats_bound.specs.Cut.{ShownLane, threshold as threshold_of};
ghost use Rattle.ats_bound.specs.Schedule.{Bounding};
ghost use Rattle.ats_client.specs.Inner.Bounds.{upper, AreBelow, lower_before, AreFalling, AreOthersWithin};
ghost use Rattle.ats_client.specs.Groups.{AreRowsRight, IsAnswerSettled};
ghost use Rattle.ats_client.specs.Marked.{AreMarks, AreNoted};

use ats_bound::{Mark, Work};
use ats_hash::Steps;
use ats_impact::Top;
use ats_proof::ProofView;

/// The most that a document scores, if no document that is not met scores more than the threshold.
pub(crate) fn upper(mark: Mark, threshold: u64) -> u64
    requires held { mark.held ≤ threshold }
    requires small { mark.lo + threshold < 2 ^ 64 }
    ensures { result ≡ upper threshold mark }
{
    mark.lo + (threshold - mark.held)
}

// Whether an answer has at most `most` rows, and either exactly as many, or a row for each met document while no other
// can score.
fn is_whole(rows: u32, most: u32, met: u32, threshold: u64) -> bool
    ensures { IsTrue result ↔ ((rows ≤ most) × ((rows ≡ most) ⊎ ((met ≤ rows) × (threshold ≡ 0)))) }
{
    rows == most || (rows < most && met <= rows && threshold == 0)
}

// The least that the last row scores, or the largest number if there is no row. `None` if some row can score more than
// the least that the row before it scores.
fn last_lower(proof: &ProofView<'_>, work: &Work, threshold: u64, steps: &mut Steps) -> Option<u64>
    requires rows { All (λ index. index < length work.now.marks) proof.now.answer }
    requires below { AreBelow threshold work.now.marks }
    requires count { steps.old ≤ 2 ^ 63 }
    ensures falling { MatchOption result
        (¬ AreFalling threshold work.now.marks proof.now.answer (length proof.now.answer))
        (λ score. AreFalling threshold work.now.marks proof.now.answer (length proof.now.answer)
        × (score ≡ lower_before work.now.marks proof.now.answer (length proof.now.answer))) }
    ensures least { steps.old ≤ steps.new }
    ensures most { steps.new ≤ steps.old + 2 * length proof.now.answer }
{
    let mut score = u64::MAX;
    for k in 0..proof.answers() {
        let mark = work.get(proof.answer(k, steps), steps);
        if upper(mark, threshold) > score {
            return None;
        }
        score = mark.lo;
    }
    Some(score)
}

// Whether no document outside the answer can score more than `score`.
fn others_are_within(marks: u32, work: &Work, threshold: u64, score: u64, steps: &mut Steps) -> bool
    requires all { marks ≡ length work.now.marks }
    requires below { AreBelow threshold work.now.marks }
    requires count { steps.old ≤ 2 ^ 63 }
    ensures within { IsTrue result ↔ AreOthersWithin threshold work.now.marks score }
    ensures least { steps.old ≤ steps.new }
    ensures most { steps.new ≤ steps.old + marks }
{
    for i in 0..marks {
        let mark = work.get(i, steps);
        if !mark.row && upper(mark, threshold) > score {
            return false;
        }
    }
    true
}

/// Whether what is shown settles the answer. Each row and each mark is read once.
///
/// The threshold is the most that a document that is not met can score. An answer with fewer rows than it may have is
/// settled only if each met document has a row, and no other document can score.
pub(crate) fn settled(
    proof: &ProofView<'_>,
    work: &Work,
    threshold: u64,
    top: Top,
    steps: &mut Steps,
) -> bool
    requires marks { (bounds : Bounding) × (lanes : List ShownLane)
        × AreMarks bounds lanes proof.now.met work.now.marks × (threshold ≡ threshold_of lanes) }
    requires small { threshold < 2 ^ 48 }
    requires rows { AreRowsRight proof.now.met proof.now.answer }
    requires noted { AreNoted proof.now.answer work.now.marks }
    requires count { steps.old ≤ 2 ^ 62 + 2 ^ 56 }
    ensures settled { (bounds : Bounding) (lanes : List ShownLane)
        → AreMarks bounds lanes proof.now.met work.now.marks → threshold ≡ threshold_of lanes
        → (IsTrue result ↔ IsAnswerSettled bounds lanes proof.now.met proof.now.answer top) }
    ensures least { steps.old ≤ steps.new }
    ensures most { steps.new ≤ steps.old + 2 * length proof.now.answer + length proof.now.met }
{
    let met = proof.met();
    if !is_whole(proof.answers(), top.get(), met, threshold) {
        return false;
    }
    match last_lower(proof, work, threshold, steps) {
        None => false,
        Some(score) => threshold <= score && others_are_within(met, work, threshold, score, steps),
    }
}
