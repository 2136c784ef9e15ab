//! What an audit says of an accepted answer, as a contract of a function that does nothing.

ghost use Rattle.std.specs.Prelude.{◌≡◌, ℕ, List};
ghost use Rattle.ats_terms.specs.Query.{IsQuery};
ghost use Rattle.ats_proof.specs.Value.{Proof};
ghost use Rattle.ats_client.specs.Bytes.{IsAcceptedBytes};
ghost use Rattle.ats_audit.specs.Verdicts.{IsTopOrTold};

use ats_hash::HashKind;

/// For each archive with the root, either the rows of an accepted proof are right, or the audit against that archive
/// returns two different strings with equal digests.
pub fn accepted_answers_are_audited<H: HashKind>()
    ensures { (root : List ℕ) (query : List (List ℕ × ℕ)) (r : ℕ) (bytes : List ℕ) (proof : Proof) → IsQuery query
        → IsAcceptedBytes H.hash root query r bytes proof → IsTopOrTold H.hash root query r bytes proof }
{}
