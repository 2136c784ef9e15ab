//! The slots of the query's terms.

ghost use Rattle.std.specs.Prelude.{◌≡◌, ◌≤◌, ◌+◌, ◌*◌, ◌^◌, OnOk, IfErr, length};
ghost use Rattle.ats_client.specs.Groups.{AreSlotsRight, IsSlotsFault};

use crate::walk::Walk;
use ats_hash::Steps;
use ats_proof::ProofView;
use ats_refusal::Refusal;
use ats_terms::Query;

/// Checks that the slot of each term shows it in the dictionary section.
pub(crate) fn slots(query: &Query, proof: &ProofView<'_>, steps: &mut Steps) -> Result<(), Refusal>
    requires each { length proof.now.slots ≡ length query.now }
    requires space { steps.old ≤ 2 ^ 62 + 2 ^ 40 }
    ensures holds { OnOk result (AreSlotsRight query.now proof.now) }
    ensures fault { IfErr result (IsSlotsFault query.now proof.now) }
    ensures cost { steps.new ≤ steps.old + 2 ^ 24 }
    ensures most { steps.new ≤ steps.old + length proof.now.dict + 2 * length proof.now.slots }
{
    proof.facts();
    let mut walk = Walk::over(proof.dict());
    for i in 0..query.len() {
        let slot = proof.slot(i as u32, steps);
        if !walk.shows(query.term(i), slot, steps) {
            return Err(Refusal::SlotWrong { term: i as u32 });
        }
    }
    Ok(())
}
