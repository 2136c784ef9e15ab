//! The laws of honest proofs and the check together, as contracts of functions that do nothing.

ghost use Rattle.std.specs.Prelude.{◌≡◌, ◌≤◌, ℕ, List, All, None, length};
ghost use Rattle.ats_base.specs.Rules.{AllHold};
ghost use Rattle.ats_tree.specs.Differences.{IsOurs};
ghost use Rattle.ats_commit.specs.Archive.{Archive};
ghost use Rattle.ats_commit.specs.Ours.{ours};
ghost use Rattle.ats_commit.specs.Root.{root_of};
ghost use Rattle.ats_bound.specs.Schedule.{IsCut, shown};
ghost use Rattle.ats_proof.specs.declared.record.Algorithm.{Algorithm};
ghost use Rattle.ats_proof.specs.declared.record.Algorithm.TheVariants.{Tra};
ghost use Rattle.ats_proof.specs.Value.{Proof, IsProof};
ghost use Rattle.ats_client.specs.Accepts.{Accepts, section_rules};
ghost use Rattle.ats_client.specs.Strings.{strings_of, proof_collision};
ghost use Rattle.ats_honest.specs.Lanes.{lanes_of};
ghost use Rattle.ats_honest.specs.Honest.{AreMet, IsHonest, IsProved, IsShownAt};

use ats_hash::HashKind;

/// An honest proof by either algorithm is accepted under the root of its archive: no rule of the check refuses it. A
/// TRA proof needs an archive with a document, since a tree without leaves is never rebuilt. The same holds for
/// whatever proof the bytes of an honest one spell: bytes never spell a collection without documents.
pub fn honest_proofs_are_accepted<H: HashKind>()
    ensures proof { (archive : Archive) (query : List (List ℕ × ℕ)) (r : ℕ) (algorithm : Algorithm) (proof : Proof)
        → (algorithm ≡ Tra → 1 ≤ length archive.texts)
        → IsHonest H.hash archive query r algorithm proof → Accepts H.hash (root_of H.hash archive) query r proof }
    ensures bytes { (archive : Archive) (query : List (List ℕ × ℕ)) (r : ℕ) (algorithm : Algorithm) (bytes : List ℕ)
        → IsProved H.hash archive query r algorithm bytes
        → (proof : Proof) → IsProof bytes proof → Accepts H.hash (root_of H.hash archive) query r proof }
{}

/// The strings that are hashed from an honest proof by either algorithm are the archive's own, so no string of the
/// proof clashes with one of the archive. The same holds for whatever proof the bytes of an honest one spell.
pub fn honest_proofs_have_no_clash<H: HashKind>()
    ensures ours { (archive : Archive) (query : List (List ℕ × ℕ)) (r : ℕ) (algorithm : Algorithm) (proof : Proof)
        → (algorithm ≡ Tra → 1 ≤ length archive.texts)
        → IsHonest H.hash archive query r algorithm proof
        → All (IsOurs (ours H.hash archive query)) (strings_of H.hash query proof) }
    ensures none { (archive : Archive) (query : List (List ℕ × ℕ)) (r : ℕ) (algorithm : Algorithm) (proof : Proof)
        → (algorithm ≡ Tra → 1 ≤ length archive.texts)
        → IsHonest H.hash archive query r algorithm proof → proof_collision H.hash archive query proof ≡ None }
    ensures bytes { (archive : Archive) (query : List (List ℕ × ℕ)) (r : ℕ) (algorithm : Algorithm) (bytes : List ℕ)
        → IsProved H.hash archive query r algorithm bytes
        → (proof : Proof) → IsProof bytes proof → proof_collision H.hash archive query proof ≡ None }
{}

/// What a proof by either algorithm shows at any cut of the lists, with the documents that the cut meets, keeps the
/// rules of the check under the root of its archive that come before those of the rows. A TRA proof needs an archive
/// with a document.
pub fn shown_sections_hold<H: HashKind>()
    ensures { (archive : Archive) (query : List (List ℕ × ℕ)) (algorithm : Algorithm)
        (cut documents : List ℕ) (proof : Proof)
        → (algorithm ≡ Tra → 1 ≤ length archive.texts)
        → IsCut (lanes_of archive.texts query) cut → AreMet (shown (lanes_of archive.texts query) cut) documents
        → IsShownAt H.hash archive query algorithm cut documents proof
        → AllHold (section_rules H.hash (root_of H.hash archive) query proof) }
{}

/// The strings that are hashed from what a proof shows at any cut of the lists are the archive's own, so no string of
/// the proof clashes with one of the archive.
pub fn shown_sections_have_no_clash<H: HashKind>()
    ensures ours { (archive : Archive) (query : List (List ℕ × ℕ)) (algorithm : Algorithm)
        (cut documents : List ℕ) (proof : Proof)
        → IsCut (lanes_of archive.texts query) cut → AreMet (shown (lanes_of archive.texts query) cut) documents
        → IsShownAt H.hash archive query algorithm cut documents proof
        → All (IsOurs (ours H.hash archive query)) (strings_of H.hash query proof) }
    ensures none { (archive : Archive) (query : List (List ℕ × ℕ)) (algorithm : Algorithm)
        (cut documents : List ℕ) (proof : Proof)
        → IsCut (lanes_of archive.texts query) cut → AreMet (shown (lanes_of archive.texts query) cut) documents
        → IsShownAt H.hash archive query algorithm cut documents proof → proof_collision H.hash archive query proof ≡ None }
{}
