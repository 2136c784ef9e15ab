//! The check of a proof that shows all documents with every term of a query.

ghost use Rattle.std.specs.Prelude.{◌≡◌, ◌≤◌, ◌+◌, ◌*◌, ◌^◌, length, IsOk, OnOk, IfErr};
ghost use Rattle.ats_base.specs.Rules.{AllHold};
ghost use Rattle.ats_proof.specs.Value.{items_of};
ghost use Rattle.ats_client.specs.Accepts.{section_rules};
ghost use Rattle.ats_all_check.specs.Headline.{AreBothOrCollide};
ghost use Rattle.ats_all_check.specs.Rules.{AcceptsBoth, IsFirstBothRefusal, IsSectionFault};

use crate::slots::are_present;
use ats_bound::Work;
use ats_client::{check, shows_whole_list};
use ats_hash::{Hash32, Steps};
use ats_impact::Top;
use ats_proof::{Algorithm, ProofView};
use ats_refusal::{BothRefusal, Refusal};
use ats_terms::Query;

// Checks what a proof without rows shows. Whether its answer would be settled says nothing of that.
fn sections<'a, H: Hash32>(
    root: &[u8; 32],
    query: &Query,
    proof: &ProofView<'a>,
    work: &mut Work,
    steps: &mut Steps,
) -> Result<(), BothRefusal>
    requires none { length proof.now.answer ≡ 0 }
    requires work { length proof.now.met ≤ work.old.room }
    requires count { steps.old ≤ 2 ^ 62 }
    ensures holds { OnOk result (AllHold (section_rules H.hash root.now query.now proof.now)) }
    ensures fault { IfErr result (IsSectionFault H.hash root.now query.now proof.now) }
    ensures room { work.new.room ≡ work.old.room }
    ensures steps { steps.new ≤ steps.old + 8 * items_of proof.now + 64 }
{
    let Ok(top) = Top::new(1) else { unreachable!() };
    let Err(refusal) = check::<H>(root, query, top, proof, work, steps) else {
        return Ok(());
    };
    match refusal {
        Refusal::NotSettled => Ok(()),
        _ => Err(BothRefusal::Section(refusal)),
    }
}

// The check, rule by rule.
fn checked<'a, H: Hash32>(
    root: &[u8; 32],
    query: &Query,
    proof: &ProofView<'a>,
    work: &mut Work,
    steps: &mut Steps,
) -> Result<(), BothRefusal>
    requires work { length proof.now.met ≤ work.old.room }
    requires count { steps.old ≤ 2 ^ 62 }
    ensures accepts { OnOk result (AcceptsBoth H.hash root.now query.now proof.now) }
    ensures refused { IfErr result (IsFirstBothRefusal H.hash root.now query.now proof.now) }
    ensures room { work.new.room ≡ work.old.room }
    ensures steps { steps.new ≤ steps.old + 12 * items_of proof.now + 128 }
{
    proof.facts();
    match proof.algorithm() {
        Algorithm::Tra => {}
        Algorithm::Tnra => return Err(BothRefusal::NotTra),
    }
    let rows = proof.answers();
    if rows != 0 {
        return Err(BothRefusal::AnswerShown { rows });
    }
    sections::<H>(root, query, proof, work, steps)?;
    if are_present(proof, steps) && !shows_whole_list(query, proof, steps) {
        return Err(BothRefusal::NoWholeList);
    }
    Ok(())
}

/// Checks whether a proof shows all documents that have every term of the query, in the archive that the root commits to.
/// If it breaks a rule, returns the first one. The documents themselves are read by
/// [`both_documents`](crate::both_documents).
///
/// It allocates nothing. The marks are begun again; what they held before is ignored, and their content afterwards is
/// unspecified.
pub fn check_both<'a, H: Hash32>(
    root: &[u8; 32],
    query: &Query,
    proof: &ProofView<'a>,
    work: &mut Work,
    steps: &mut Steps,
) -> Result<(), BothRefusal>
    requires work { length proof.now.met ≤ work.old.room }
    requires count { steps.old ≤ 2 ^ 62 }
    ensures accepts { OnOk result (AcceptsBoth H.hash root.now query.now proof.now) }
    ensures both { OnOk result (AreBothOrCollide H.hash root.now query.now proof.now) }
    ensures exact { AcceptsBoth H.hash root.now query.now proof.now → IsOk result }
    ensures refused { IfErr result (IsFirstBothRefusal H.hash root.now query.now proof.now) }
    ensures room { work.new.room ≡ work.old.room }
    ensures steps { steps.new ≤ steps.old + 12 * items_of proof.now + 128 }
{
    proof.facts();
    // The terms of a query rise in byte order.
    let _facts = query.len();
    checked::<H>(root, query, proof, work, steps)
}
