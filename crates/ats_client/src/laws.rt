//! What an accepted proof says of an archive, and that refusals are unique, as contracts of functions that do nothing.

ghost use Rattle.std.specs.Prelude.{◌≡◌, ◌⊎◌, ◌↔◌, ◌≤◌, ℕ, List, length};
ghost use Rattle.ats_tree.specs.Differences.{first_difference};
ghost use Rattle.ats_terms.specs.Query.{IsQuery};
ghost use Rattle.ats_commit.specs.Archive.{Archive};
ghost use Rattle.ats_commit.specs.Root.{root_of};
ghost use Rattle.ats_commit.specs.Ours.{ours};
ghost use Rattle.ats_commit.specs.Own.{AreTexts};
ghost use Rattle.ats_proof.specs.Value.{Proof, IsProof};
ghost use Rattle.ats_client.specs.Rows.{rows_of};
ghost use Rattle.ats_refusal.specs.declared.proof.Rejection.{Rejection};
ghost use Rattle.ats_refusal.specs.declared.proof.Refusal.{Refusal};
ghost use Rattle.ats_client.specs.Accepts.{AcceptsShown, IsFirstShownRefusal, Accepts, IsFirstRefusal};
ghost use Rattle.ats_client.specs.Bounded.{rest_of, AreBounded, AreSettledRows};
ghost use Rattle.ats_client.specs.Bracketing.{bounds_of};
ghost use Rattle.ats_client.specs.Groups.{AreRowsRight, IsAnswerSettled};
ghost use Rattle.ats_client.specs.Presented.{lanes_of};
ghost use Rattle.ats_client.specs.Bytes.{IsAcceptedBytes, IsRejectedBytes};
ghost use Rattle.ats_client.specs.Strings.{strings_of, proof_collision, IsOwn, IsBound};
ghost use Rattle.ats_client.specs.Documents.{IsDocsTree, IsDocsFault, AreDocumentsRight, IsDocumentsFault};
ghost use Rattle.ats_client.specs.Rooted.{AreRooted};
ghost use Rattle.ats_client.specs.Headline.{AreRight, IsTopOrCollides};

use ats_hash::HashKind;

/// If the sections of a proof, by either algorithm, rebuild to the roots that the proof has for them, from the root of
/// an archive down, then either all that they show is the archive's own, or the first string of the proof that differs
/// from the archive's has an equal digest and `proof_collision` finds that string.
pub fn rebuilt_sections_are_bound<H: HashKind>()
    ensures bound { (archive : Archive) (query : List (List ℕ × ℕ)) (bytes : List ℕ) (proof : Proof)
        → AreTexts archive.texts → IsQuery query
        → IsProof bytes proof → AreRooted H.hash (root_of H.hash archive) query proof
        → IsBound H.hash archive query proof }
    ensures collision { (archive : Archive) (query : List (List ℕ × ℕ)) (bytes : List ℕ) (proof : Proof)
        → AreTexts archive.texts → IsQuery query
        → IsProof bytes proof → AreRooted H.hash (root_of H.hash archive) query proof
        → proof_collision H.hash archive query proof
        ≡ first_difference (ours H.hash archive query) (strings_of H.hash query proof) }
{}

/// For every archive with the root, either what an accepted proof shows is the archive's own, or the first string of
/// the proof that differs from the archive's has an equal digest and `proof_collision` finds that string.
pub fn shown_leaves_are_bound<H: HashKind>()
    ensures bound { (archive : Archive) (query : List (List ℕ × ℕ)) (r : ℕ) (bytes : List ℕ) (proof : Proof)
        → AreTexts archive.texts → IsQuery query
        → IsProof bytes proof → Accepts H.hash (root_of H.hash archive) query r proof
        → IsBound H.hash archive query proof }
    ensures collision { (archive : Archive) (query : List (List ℕ × ℕ)) (r : ℕ) (bytes : List ℕ) (proof : Proof)
        → AreTexts archive.texts → IsQuery query
        → IsProof bytes proof → Accepts H.hash (root_of H.hash archive) query r proof
        → proof_collision H.hash archive query proof
        ≡ first_difference (ours H.hash archive query) (strings_of H.hash query proof) }
{}

/// If all that an accepted proof shows is an archive's own, its rows are right for the archive's texts.
pub fn own_leaves_make_rows_right<H: HashKind>()
    ensures { (archive : Archive) (query : List (List ℕ × ℕ)) (r : ℕ) (bytes : List ℕ) (proof : Proof)
        → AreTexts archive.texts → IsQuery query
        → IsProof bytes proof → Accepts H.hash (root_of H.hash archive) query r proof → IsOwn H.hash archive query proof
        → AreRight archive.texts query r (rows_of query proof) }
{}

/// If all that a proof shows is an archive's own, and the rules before the settling hold, its rows and its rest are right
/// for the archive's texts.
pub fn own_leaves_bound_rows<H: HashKind>()
    ensures { (archive : Archive) (query : List (List ℕ × ℕ)) (bytes : List ℕ) (proof : Proof)
        → AreTexts archive.texts → IsQuery query
        → IsProof bytes proof → AcceptsShown H.hash (root_of H.hash archive) query proof → IsOwn H.hash archive query proof
        → AreBounded archive.texts query (rows_of query proof) (rest_of query proof) }
{}

/// When the rows of a proof and its rest settle its answer of at most r.
///
/// They say exactly what the check asks, but for one corner: if there are fewer than r rows, the check wants a row for
/// each met document, also for one whose bracket ends at 0. If all that is shown is an archive's own there is no such
/// document: a met one scores above 0, and at most the end of its bracket.
pub fn rows_and_rests_settle()
    ensures { (query : List (List ℕ × ℕ)) (r : ℕ) (proof : Proof) → 1 ≤ r → AreRowsRight proof.met proof.answer
        → (IsAnswerSettled (bounds_of proof) (lanes_of query proof) proof.met proof.answer r
        ↔ (AreSettledRows r (rows_of query proof) (rest_of query proof)
        × ((length proof.answer ≡ r) ⊎ (length proof.met ≤ length proof.answer)))) }
{}

/// The headline: for each archive with the root, either the rows of an accepted proof are right, or `proof_collision` finds two
/// different strings with equal digests.
pub fn accepted_answers_are_top<H: HashKind>()
    ensures { (root : List ℕ) (query : List (List ℕ × ℕ)) (r : ℕ) (bytes : List ℕ) (proof : Proof)
        → IsQuery query → IsProof bytes proof
        → Accepts H.hash root query r proof → IsTopOrCollides H.hash root query r proof }
{}

/// A proof has at most one first refusal, and none if all rules hold.
pub fn proofs_have_one_refusal<H: HashKind>()
    ensures one { (root : List ℕ) (query : List (List ℕ × ℕ)) (r : ℕ) (proof : Proof) (a b : Refusal)
        → IsFirstRefusal H.hash root query r proof a → IsFirstRefusal H.hash root query r proof b → a ≡ b }
    ensures none { (root : List ℕ) (query : List (List ℕ × ℕ)) (r : ℕ) (proof : Proof) (refusal : Refusal)
        → Accepts H.hash root query r proof → IsFirstRefusal H.hash root query r proof refusal → ⊥ }
{}

/// A proof has at most one first refusal before the settling, and none if all rules before it hold.
pub fn shown_proofs_have_one_refusal<H: HashKind>()
    ensures one { (root : List ℕ) (query : List (List ℕ × ℕ)) (proof : Proof) (a b : Refusal)
        → IsFirstShownRefusal H.hash root query proof a → IsFirstShownRefusal H.hash root query proof b → a ≡ b }
    ensures none { (root : List ℕ) (query : List (List ℕ × ℕ)) (proof : Proof) (refusal : Refusal)
        → AcceptsShown H.hash root query proof → IsFirstShownRefusal H.hash root query proof refusal → ⊥ }
{}

/// Either the rules of the met documents hold or there is one first failure, never both: the documents tree, and then
/// the documents one after another, each with its tree and its slots.
pub fn documents_have_one_fault<H: HashKind>()
    ensures tree_one { (proof : Proof) (a b : Refusal)
        → IsDocsFault H.hash proof a → IsDocsFault H.hash proof b → a ≡ b }
    ensures tree_none { (proof : Proof) (refusal : Refusal)
        → IsDocsTree H.hash proof → IsDocsFault H.hash proof refusal → ⊥ }
    ensures tree_some { (proof : Proof)
        → IsDocsTree H.hash proof ⊎ ((refusal : Refusal) × IsDocsFault H.hash proof refusal) }
    ensures one { (query : List (List ℕ × ℕ)) (proof : Proof) (a b : Refusal)
        → IsDocumentsFault H.hash query proof a → IsDocumentsFault H.hash query proof b → a ≡ b }
    ensures none { (query : List (List ℕ × ℕ)) (proof : Proof) (refusal : Refusal)
        → AreDocumentsRight H.hash query proof → IsDocumentsFault H.hash query proof refusal → ⊥ }
    ensures some { (query : List (List ℕ × ℕ)) (proof : Proof)
        → AreDocumentsRight H.hash query proof ⊎ ((refusal : Refusal) × IsDocumentsFault H.hash query proof refusal) }
{}

/// Bytes are rejected in at most one way, and in none if they are accepted.
pub fn bytes_have_one_rejection<H: HashKind>()
    ensures one { (root : List ℕ) (query : List (List ℕ × ℕ)) (r : ℕ) (bytes : List ℕ) (a b : Rejection)
        → IsRejectedBytes H.hash root query r bytes a → IsRejectedBytes H.hash root query r bytes b → a ≡ b }
    ensures none { (root : List ℕ) (query : List (List ℕ × ℕ)) (r : ℕ) (bytes : List ℕ) (proof : Proof)
        (rejection : Rejection)
        → IsAcceptedBytes H.hash root query r bytes proof → IsRejectedBytes H.hash root query r bytes rejection → ⊥ }
{}
