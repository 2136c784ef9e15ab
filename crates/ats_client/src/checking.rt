//! The check of a whole proof, in two steps: what it shows and its rows, and whether that settles the answer.

ghost use Rattle.std.specs.Prelude.{◌≡◌, ◌≤◌, ◌+◌, ◌*◌, ◌^◌, ℕ, List, length, IsOk, OnOk, IfOk, IfErr};
ghost use Rattle.ats_terms.specs.Query.{IsQuery};
ghost use Rattle.ats_bound.specs.Cut.{threshold as threshold_of};
ghost use Rattle.ats_proof.specs.Value.{items_of};
ghost use Rattle.ats_client.specs.Presented.{lanes_of};
ghost use Rattle.ats_client.specs.Bracketing.{bounds_of};
ghost use Rattle.ats_client.specs.Accepts.{AcceptsShown, IsFirstShownRefusal, Accepts, IsFirstRefusal};
ghost use Rattle.ats_client.specs.Marked.{AreMarks, AreNoted};
ghost use Rattle.ats_client.specs.Rows.{IsLeftByCheck};
ghost use Rattle.ats_client.specs.Bounded.{AreBoundedOrCollide};
ghost use Rattle.ats_client.specs.Headline.{IsTopOrCollides};

use crate::all_lists::lists;
use crate::documents::{documents, documents_tree};
use crate::kept_terms::PresentTerms;
use crate::met::met;
use crate::opening::{dictionary, opened};
use crate::rows::rows;
use crate::settled::settled;
use crate::slots::slots;
use ats_bound::Work;
use ats_hash::{Hash32, Steps};
use ats_impact::Top;
use ats_proof::ProofView;
use ats_refusal::Refusal;
use ats_terms::Query;

/// Checks what a proof shows and that its rows name met documents, each once, but not whether that settles the answer.
/// Returns the most that any document can score that no entry names, or the first rule that the proof breaks.
///
/// The marks are begun again; what they held before is ignored. After a refusal their content is unspecified. With a
/// call of [`row`](crate::row) for each row and one of [`rest`](crate::rest), the steps are at most 8 for each item of the
/// proof, and 64.
#[tactic(auto, using(crate::proofs::Counts::items_are))]
pub fn check_shown<'a, H: Hash32>(
    root: &[u8; 32],
    query: &Query,
    proof: &ProofView<'a>,
    work: &mut Work,
    steps: &mut Steps,
) -> Result<u64, Refusal>
    requires work { length proof.now.met ≤ work.old.room }
    requires count { steps.old ≤ 2 ^ 62 }
    ensures holds { OnOk result (AcceptsShown H.hash root.now query.now proof.now) }
    ensures exact { AcceptsShown H.hash root.now query.now proof.now → IsOk result }
    ensures bounded { OnOk result (AreBoundedOrCollide H.hash root.now query.now proof.now) }
    ensures asked { OnOk result (IsQuery query.now) }
    ensures threshold { IfOk result (λ threshold. threshold ≡ threshold_of (lanes_of query.now proof.now)) }
    ensures marks { OnOk result
        (AreMarks (bounds_of proof.now) (lanes_of query.now proof.now) proof.now.met work.new.marks) }
    ensures left { IfOk result (λ threshold. IsLeftByCheck query.now proof.now work.new.marks threshold) }
    ensures noted { OnOk result (AreNoted proof.now.answer work.new.marks) }
    ensures refused { IfErr result (λ refusal. IsFirstShownRefusal H.hash root.now query.now proof.now refusal) }
    ensures room { work.new.room ≡ work.old.room }
    ensures steps { steps.new + 3 * length proof.now.answer ≤ steps.old + 7 * items_of proof.now + 64 }
{
    proof.facts();
    opened::<H>(root, query, proof, steps)?;
    dictionary::<H>(proof, steps)?;
    slots(query, proof, steps)?;
    let mut terms = PresentTerms::none();
    let threshold = lists::<H>(query, proof, &mut terms, work, steps)?;
    met(proof, work, steps)?;
    documents_tree::<H>(proof, steps)?;
    documents::<H>(query, proof, &terms, threshold, work, steps)?;
    rows(proof, work, steps)?;
    Ok(threshold)
}

/// Checks whether a proof shows that its answer is right: the best `top` documents for the query in the archive that
/// the root commits to. Returns the most that any document can score that no entry names, or the first rule that the
/// proof breaks.
///
/// The marks are begun again; what they held before is ignored. After a refusal their content is unspecified.
pub fn check<'a, H: Hash32>(
    root: &[u8; 32],
    query: &Query,
    top: Top,
    proof: &ProofView<'a>,
    work: &mut Work,
    steps: &mut Steps,
) -> Result<u64, Refusal>
    requires work { length proof.now.met ≤ work.old.room }
    requires count { steps.old ≤ 2 ^ 62 }
    ensures accepts { OnOk result (Accepts H.hash root.now query.now top proof.now) }
    ensures headline { OnOk result (IsTopOrCollides H.hash root.now query.now top proof.now) }
    ensures exact { Accepts H.hash root.now query.now top proof.now → IsOk result }
    ensures threshold { IfOk result (λ threshold. threshold ≡ threshold_of (lanes_of query.now proof.now)) }
    ensures marks { OnOk result
        (AreMarks (bounds_of proof.now) (lanes_of query.now proof.now) proof.now.met work.new.marks) }
    ensures left { IfOk result (λ threshold. IsLeftByCheck query.now proof.now work.new.marks threshold) }
    ensures refused { IfErr result (λ refusal. IsFirstRefusal H.hash root.now query.now top proof.now refusal) }
    ensures room { work.new.room ≡ work.old.room }
    ensures steps { steps.new ≤ steps.old + 8 * items_of proof.now + 64 }
{
    proof.facts();
    let threshold = check_shown::<H>(root, query, proof, work, steps)?;
    if !settled(proof, work, threshold, top, steps) {
        return Err(Refusal::NotSettled);
    }
    Ok(threshold)
}
