//! Which documents have every term, and that refusals are unique, as contracts of functions that do nothing.

ghost use Rattle.std.specs.Prelude.{◌≡◌, ◌↔◌, ◌<◌, ℕ, List, [], length, slice_index_or};
ghost use Rattle.std.specs.List.{All, Contains};
ghost use Rattle.std.specs.List.Sorted.{IsStrictlyIncreasing};
ghost use Rattle.ats_impact.specs.Score.{count};
ghost use Rattle.ats_proof.specs.Value.{Proof};
ghost use Rattle.ats_all_check.specs.Bytes.{AreAcceptedBytes, AreRefusedBytes};
ghost use Rattle.ats_all_check.specs.Documents.{both};
ghost use Rattle.ats_refusal.specs.declared.documents.BothRefusal.{BothRefusal};

use ats_hash::HashKind;

/// A document is among all that have every term of a query exactly if it is one of the texts and each term occurs there.
/// They are listed in the order of their numbers, each once.
pub fn both_has_all_documents()
    ensures has { (texts : List (List ℕ)) (query : List (List ℕ × ℕ)) (doc : ℕ) → Contains (both texts query) doc
        ↔ ((doc < length texts)
        × All (λ (pair : List ℕ × ℕ). 0 < count pair.0 (slice_index_or texts doc [])) query) }
    ensures rise { (texts : List (List ℕ)) (query : List (List ℕ × ℕ)) → IsStrictlyIncreasing (both texts query) }
{}

/// Bytes are refused by at most one rule, and by none if they are accepted.
pub fn bytes_are_refused_once<H: HashKind>()
    ensures one { (root : List ℕ) (query : List (List ℕ × ℕ)) (bytes : List ℕ) (a b : BothRefusal)
        → AreRefusedBytes H.hash root query bytes a → AreRefusedBytes H.hash root query bytes b → a ≡ b }
    ensures apart { (root : List ℕ) (query : List (List ℕ × ℕ)) (bytes : List ℕ) (proof : Proof) (refusal : BothRefusal)
        → AreAcceptedBytes H.hash root query bytes proof → AreRefusedBytes H.hash root query bytes refusal → ⊥ }
{}
