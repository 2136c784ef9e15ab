//! What an audit of an accepted text finds, and that what an archive gives is accepted, as contracts of functions that do
//! nothing.

ghost use Rattle.std.specs.Prelude.{◌≡◌, ◌<◌, ℕ, List, length, None};
ghost use Rattle.ats_commit.specs.Archive.{Archive};
ghost use Rattle.ats_commit.specs.Own.{AreTexts};
ghost use Rattle.ats_commit.specs.Root.{root_of};
ghost use Rattle.ats_text_check.specs.Accepts.{AcceptsText};
ghost use Rattle.ats_text_check.specs.Strings.{text_collision, IsOwnText};
ghost use Rattle.ats_text_check.specs.Value.{IsTextProof, TextProof};
ghost use Rattle.ats_text_proof.specs.Given.{given_text};
ghost use Rattle.ats_text_proof.specs.Verdicts.{IsTextVerdict, IsOwnOrTold};
ghost use Rattle.ats_text_proof.specs.declared.verdict.TextVerdict.{TextVerdict};
ghost use Rattle.ats_text_proof.specs.declared.verdict.TextVerdict.TheVariants.{Right};

use ats_hash::HashKind;

/// For every archive with the root, either an accepted text is the archive's own, or every verdict on its bytes against
/// that archive contains two different strings with equal digests.
pub fn accepted_texts_are_audited<H: HashKind>()
    ensures { (root : List ℕ) (doc : ℕ) (bytes : List ℕ) (proof : TextProof)
        → IsTextProof bytes proof → AcceptsText H.hash root doc proof → IsOwnOrTold H.hash root doc bytes proof }
{}

/// What an archive gives for one of its documents is spelled by some bytes, is accepted under the archive's root, has no
/// collision with the archive and is the archive's own text. So the only verdict on its bytes is that it is right.
pub fn given_texts_are_accepted<H: HashKind>()
    ensures spelled { (archive : Archive) (doc : ℕ) → AreTexts archive.texts → doc < length archive.texts
        → (bytes : List ℕ) × IsTextProof bytes (given_text H.hash archive doc) }
    ensures accepted { (archive : Archive) (doc : ℕ) → AreTexts archive.texts → doc < length archive.texts
        → AcceptsText H.hash (root_of H.hash archive) doc (given_text H.hash archive doc) }
    ensures none { (archive : Archive) (doc : ℕ) → AreTexts archive.texts → doc < length archive.texts
        → text_collision H.hash archive doc (given_text H.hash archive doc) ≡ None }
    ensures own { (archive : Archive) (doc : ℕ) → AreTexts archive.texts → doc < length archive.texts
        → IsOwnText archive doc (given_text H.hash archive doc) }
    ensures right { (archive : Archive) (doc : ℕ) (bytes : List ℕ) (verdict : TextVerdict)
        → AreTexts archive.texts → doc < length archive.texts
        → IsTextProof bytes (given_text H.hash archive doc)
        → IsTextVerdict H.hash archive doc bytes verdict → verdict ≡ Right }
{}
