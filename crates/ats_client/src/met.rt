//! Whether each met document is named.

ghost use Rattle.std.specs.Prelude.{◌≡◌, ◌+◌, ◌≤◌, ◌^◌, List, length, OnOk, IfErr};
ghost use Rattle.ats_bound.specs.Cut.{ShownLane};
ghost use Rattle.ats_bound.specs.Schedule.{Bounding};
ghost use Rattle.ats_client.specs.Groups.{AreAllMet, IsMetFault};
ghost use Rattle.ats_client.specs.Marked.{AreMarks};

use ats_bound::Work;
use ats_hash::Steps;
use ats_proof::ProofView;
use ats_refusal::Refusal;

/// Whether some entry names each met document, by the marks of the entries. Each mark is read once, up to
/// the first of a document that no entry names.
pub(crate) fn met(proof: &ProofView<'_>, work: &Work, steps: &mut Steps) -> Result<(), Refusal>
    requires size { length work.now.marks ≡ length proof.now.met }
    requires count { steps.old ≤ 2 ^ 62 + 2 ^ 50 }
    ensures all { OnOk result
        ((bounds : Bounding) (lanes : List ShownLane)
        → AreMarks bounds lanes proof.now.met work.now.marks → AreAllMet lanes proof.now.met) }
    ensures unmet { IfErr result
        (λ refusal. (bounds : Bounding) (lanes : List ShownLane)
        → AreMarks bounds lanes proof.now.met work.now.marks → IsMetFault lanes proof.now.met refusal) }
    ensures least { steps.old ≤ steps.new }
    ensures most { steps.new ≤ steps.old + length proof.now.met }
    ensures bound { steps.new ≤ steps.old + 2 ^ 32 }
{
    for index in 0..proof.met() {
        if work.get(index, steps).list == 0 {
            return Err(Refusal::Unmet { index });
        }
    }
    Ok(())
}
