//! What the bytes that give a text say, when a text is accepted, and what follows for every archive with the root, as
//! contracts of functions that do nothing.

ghost use Rattle.std.specs.Prelude.{◌≡◌, ℕ, List};
ghost use Rattle.ats_text_check.specs.Accepts.{AcceptsText, IsFirstTextRefusal};
ghost use Rattle.ats_text_check.specs.Strings.{IsOwnOrCollides};
ghost use Rattle.ats_text_check.specs.Value.{TextProof, IsTextProof, IsTextInRange};
ghost use Rattle.ats_refusal.specs.declared.text.TextRefusal.{TextRefusal};

use ats_hash::HashKind;

/// Bytes say at most one text with its header and digests, and the parts are in their ranges. Each such value has at
/// most one spelling.
pub fn bytes_say_one_text()
    ensures one { (bytes : List ℕ) (proof other : TextProof)
        → IsTextProof bytes proof → IsTextProof bytes other → proof ≡ other }
    ensures range { (bytes : List ℕ) (proof : TextProof) → IsTextProof bytes proof → IsTextInRange proof }
    ensures spelling { (bytes others : List ℕ) (proof : TextProof)
        → IsTextProof bytes proof → IsTextProof others proof → bytes ≡ others }
{}

/// Each value whose parts are in their ranges has a spelling.
pub fn texts_in_range_are_spelled()
    ensures { (proof : TextProof) → IsTextInRange proof → (bytes : List ℕ) × IsTextProof bytes proof }
{}

/// A text has at most one first refusal, and none if it is accepted.
pub fn texts_have_one_refusal<H: HashKind>()
    ensures one { (root : List ℕ) (doc : ℕ) (proof : TextProof) (a b : TextRefusal)
        → IsFirstTextRefusal H.hash root doc proof a → IsFirstTextRefusal H.hash root doc proof b → a ≡ b }
    ensures none { (root : List ℕ) (doc : ℕ) (proof : TextProof) (refusal : TextRefusal)
        → AcceptsText H.hash root doc proof → IsFirstTextRefusal H.hash root doc proof refusal → ⊥ }
{}

/// The headline: for every archive with the root, either an accepted text is the archive's own, or the strings of the
/// check and those of the archive contain two different ones with equal digests.
pub fn accepted_texts_are_own<H: HashKind>()
    ensures { (root : List ℕ) (doc : ℕ) (bytes : List ℕ) (proof : TextProof)
        → IsTextProof bytes proof → AcceptsText H.hash root doc proof → IsOwnOrCollides H.hash root doc proof }
{}
