//! What an audit of an accepted proof finds, as the contract of a function that does nothing.

ghost use Rattle.std.specs.Prelude.{ℕ, List};
ghost use Rattle.ats_terms.specs.Query.{IsQuery};
ghost use Rattle.ats_proof.specs.Value.{Proof};
ghost use Rattle.ats_all_check.specs.Bytes.{AreAcceptedBytes};
ghost use Rattle.ats_all_proof.specs.Verdicts.{AreBothOrTold};

use ats_hash::HashKind;

/// For each archive with the root, either the documents that an accepted proof shows are all that have every term of the
/// query, or every verdict on the bytes against that archive contains two different strings with equal digests.
pub fn accepted_documents_are_both<H: HashKind>()
    ensures { (root : List ℕ) (query : List (List ℕ × ℕ)) (bytes : List ℕ) (proof : Proof) → IsQuery query
        → AreAcceptedBytes H.hash root query bytes proof → AreBothOrTold H.hash root query bytes proof }
{}
