//! Checks the prefixes of all present terms.

ghost use Rattle.std.specs.Prelude.{◌≡◌, ◌<◌, ◌≤◌, ◌+◌, ◌*◌, ◌^◌, sum_by, [], length, OnOk, IfOk, IfErr};
ghost use Rattle.ats_bound.specs.Cut.{bracket, threshold as threshold_of};
ghost use Rattle.ats_proof.specs.Value.{items_of_prefix};
ghost use Rattle.ats_client.specs.Presented.{lanes_of};
ghost use Rattle.ats_client.specs.Inner.KeptTerms.{kept_terms};
ghost use Rattle.ats_client.specs.Groups.{AreSlotsRight, AreListsRight, IsListsFault};
ghost use Rattle.ats_client.specs.Marked.{AreMarks, AreNoted};

use crate::kept_terms::PresentTerms;
use crate::next_term::present;
use crate::one_list::list;
use crate::walk::Walk;
use ats_bound::Work;
use ats_hash::{Hash32, Steps};
use ats_proof::ProofView;
use ats_refusal::Refusal;
use ats_terms::Query;

/// Checks the prefixes of all present terms, makes the marks of the met documents, and keeps the terms. Returns the
/// most that a document that is not met can score.
pub(crate) fn lists<'a, H: Hash32>(
    query: &Query,
    proof: &ProofView<'a>,
    terms: &mut PresentTerms,
    work: &mut Work,
    steps: &mut Steps,
) -> Result<u64, Refusal>
    requires each { length proof.now.slots ≡ length query.now }
    requires right { AreSlotsRight query.now proof.now }
    requires none { terms.old ≡ [] }
    requires work { length proof.now.met ≤ work.old.room }
    requires space { steps.old ≤ 2 ^ 62 + 2 ^ 42 }
    ensures fault { IfErr result (IsListsFault H.hash query.now proof.now) }
    ensures right { OnOk result (AreListsRight H.hash query.now proof.now) }
    ensures terms { OnOk result (terms.new ≡ kept_terms query.now proof.now) }
    ensures marks { OnOk result (AreMarks bracket (lanes_of query.now proof.now) proof.now.met work.new.marks) }
    ensures free { OnOk result (AreNoted [] work.new.marks) }
    ensures threshold { IfOk result (λ threshold. threshold ≡ threshold_of (lanes_of query.now proof.now)) }
    ensures small { IfOk result (λ threshold. threshold < 2 ^ 48) }
    ensures room { work.new.room ≡ work.old.room }
    ensures cost { steps.new ≤ steps.old + 2 ^ 42 }
    ensures most { steps.new
        ≤ steps.old + length proof.now.met + length proof.now.dict + 4 * length proof.now.slots
        + 6 * sum_by items_of_prefix proof.now.lists }
{
    proof.facts();
    work.begin(proof.met(), steps);
    let mut walk = Walk::over(proof.dict());
    let mut left = proof.lists();
    let documents = proof.header().documents;
    let mut threshold = 0;
    for i in 0..query.len() {
        if let Some(one) = present(query, proof, i as u32, &mut walk, &mut left, steps) {
            let term = one.kept(documents);
            threshold += list::<H>(&one, term.coefficient, proof, work, steps)?;
            terms.push(term);
        }
    }
    Ok(threshold)
}
