//! The theorem: what a reader knows when a check of what came from elsewhere ends with status 0.
//!
//! These are laws as those of `laws`. `Ran` is what the contract of `run_with` says of each run, so they speak of the runs
//! of the program. A word that a clause names stands as it was typed.

ghost use Rattle.std.specs.Prelude.{◌≡◌, ◌⊎◌, ◌^◌, ℕ, List, [], ◌∷◌, codes, slice_get, Some, Ok};
ghost use Rattle.ats_terms.specs.Query.{IsQueryOf};
ghost use Rattle.ats_impact.specs.declared.rank.Row.{Row};
ghost use Rattle.ats_commit.specs.Archive.{Archive};
ghost use Rattle.ats_commit.specs.Own.{AreTexts};
ghost use Rattle.ats_commit.specs.Root.{root_of};
ghost use Rattle.ats_proof.specs.declared.record.Algorithm.{Algorithm};
ghost use Rattle.ats_client.specs.Headline.{AreRight};
ghost use Rattle.ats_all_check.specs.Documents.{both as with_every_term};
ghost use Rattle.ats_growth_check.specs.Headline.{HasGrown};
ghost use Rattle.ats_catalog_bytes.specs.Catalog.{IsCatalog, catalog_root};
ghost use Rattle.ats_catalog_check.specs.Headline.{AreRightIn};
ghost use Rattle.ats_catalog_check.specs.declared.row.CatalogRow.{CatalogRow};
ghost use Rattle.ats_plan.specs.Files.{IsFile};
ghost use Rattle.ats_console.specs.Words.{algorithm_of, number_of, root_word, verify_words, fetch_words, both_words, growth_words, catalog_words};
ghost use Rattle.ats_console.specs.Print.{lines, lines_of_catalog, lines_of_documents};
ghost use Rattle.ats_top.specs.Asked.{IsReplyVerified};
ghost use Rattle.ats_auditors.specs.Collided.{lines_of_proof_collision, lines_of_catalog_collision, lines_of_growth_collision, lines_of_text_collision};
ghost use Rattle.ats_checkers.specs.Commands.{IsBothChecked, IsCatalogChecked, IsFetched, IsGrowthChecked, IsVerified};
ghost use Rattle.ats_top.specs.Conversation.{Converses};
ghost use Rattle.ats_console.specs.Kinds.{line_of_grown, printed_text};
ghost use Rattle.ats_top.specs.Outside.{Outside};
ghost use Rattle.ats_top.specs.Run.{Ran};
ghost use Rattle.ats_top.specs.Serving.{Took};
ghost use Rattle.ats_top.specs.Theorem.{AuditsProof, AuditsText, AuditsBoth, AuditsGrowth, AuditsCatalog, IsCaught};

use ats_hash::HashKind;

/// If `verify` ends with status 0, it printed rows that are right for every archive whose root is its ROOT: their documents
/// are a top answer, and their bounds enclose the scores. Or they are wrong and caught: there are two different strings
/// with equal digests, and each `audit` of the accepted bytes over an index of that archive prints them with status 5,
/// unless it reports that memory ran out, or the shelf or the sink fails. The same holds of the rows of `ask`; of the text
/// that `fetch` prints, which is that of document DOC; of the documents that `both` prints, which are all that have every
/// term of the query; of the two numbers of `growth`, under whose roots no text was withdrawn or changed; and of the rows of
/// `catalog`, for every catalog with the root, whose indexes `audit-catalog` takes from a list. The accepted bytes are those
/// of the named file before the run, if the shelf reports its files; for `ask` they are those that arrived.
pub fn printed_answers_are_right<H: HashKind>()
    ensures verify { (root r query proof digest : List ℕ) (n : ℕ) (before now : Outside)
        → root_word root ≡ Some digest → number_of r ≡ Some n
        → Ran H.hash (verify_words root r query proof) before now 0
        → (terms : List (List ℕ × ℕ)) × IsQueryOf query terms
        × (bytes : List ℕ) × IsFile before.shelf.files proof (2 ^ 26) bytes
        × (rows : List Row) × Took before.sink now.sink (lines rows)
        × ((archive : Archive) → AreTexts archive.texts → root_of H.hash archive ≡ digest
        → AreRight archive.texts terms n rows
        ⊎ IsCaught H.hash lines_of_proof_collision (AuditsProof H.hash archive n query bytes)) }
    ensures ask { (root algorithm r query address digest : List ℕ) (by : Algorithm) (n : ℕ) (before now : Outside)
        → root_word root ≡ Some digest → algorithm_of algorithm ≡ Some by → number_of r ≡ Some n
        → Ran H.hash (codes "ask" ∷ root ∷ algorithm ∷ r ∷ query ∷ address ∷ []) before now 0
        → (terms : List (List ℕ × ℕ)) × IsQueryOf query terms
        × (bytes : List ℕ) × Converses address (record { algorithm = by; top = n; query = query })
        before.caller now.caller (Ok bytes)
        × (rows : List Row) × Took before.sink now.sink (lines rows)
        × ((archive : Archive) → AreTexts archive.texts → root_of H.hash archive ≡ digest
        → AreRight archive.texts terms n rows
        ⊎ IsCaught H.hash lines_of_proof_collision (AuditsProof H.hash archive n query bytes)) }
    ensures fetch { (root doc file digest : List ℕ) (n : ℕ) (before now : Outside)
        → root_word root ≡ Some digest → number_of doc ≡ Some n
        → Ran H.hash (fetch_words root doc file) before now 0
        → (bytes : List ℕ) × IsFile before.shelf.files file (2 ^ 21) bytes
        × (text : List ℕ) × Took before.sink now.sink (printed_text text)
        × ((archive : Archive) → AreTexts archive.texts → root_of H.hash archive ≡ digest
        → (slice_get archive.texts n ≡ Some text)
        ⊎ IsCaught H.hash lines_of_text_collision (AuditsText H.hash archive n bytes)) }
    ensures both { (root query proof digest : List ℕ) (before now : Outside) → root_word root ≡ Some digest
        → Ran H.hash (both_words root query proof) before now 0
        → (terms : List (List ℕ × ℕ)) × IsQueryOf query terms
        × (bytes : List ℕ) × IsFile before.shelf.files proof (2 ^ 26) bytes
        × (documents : List ℕ) × Took before.sink now.sink (lines_of_documents documents)
        × ((archive : Archive) → AreTexts archive.texts → root_of H.hash archive ≡ digest
        → (documents ≡ with_every_term archive.texts terms)
        ⊎ IsCaught H.hash lines_of_proof_collision (AuditsBoth H.hash archive query bytes)) }
    ensures growth { (old new file older_root newer_root : List ℕ) (before now : Outside)
        → root_word old ≡ Some older_root → root_word new ≡ Some newer_root
        → Ran H.hash (growth_words old new file) before now 0
        → (bytes : List ℕ) × IsFile before.shelf.files file 4096 bytes
        × (m : ℕ) × (n : ℕ) × Took before.sink now.sink (line_of_grown m n)
        × ((older newer : Archive) → AreTexts older.texts → AreTexts newer.texts
        → root_of H.hash older ≡ older_root → root_of H.hash newer ≡ newer_root
        → HasGrown older newer m n
        ⊎ IsCaught H.hash lines_of_growth_collision (AuditsGrowth H.hash older newer bytes)) }
    ensures catalog { (root r query file digest : List ℕ) (n : ℕ) (before now : Outside)
        → root_word root ≡ Some digest → number_of r ≡ Some n
        → Ran H.hash (catalog_words root r query file) before now 0
        → (terms : List (List ℕ × ℕ)) × IsQueryOf query terms
        × (bytes : List ℕ) × IsFile before.shelf.files file (2 ^ 28) bytes
        × (rows : List CatalogRow) × Took before.sink now.sink (lines_of_catalog rows)
        × ((catalog : List Archive) → IsCatalog catalog → catalog_root H.hash catalog ≡ digest
        → AreRightIn catalog terms n rows
        ⊎ IsCaught H.hash lines_of_catalog_collision (AuditsCatalog H.hash catalog n query bytes)) }
{}

/// If one of these commands ends with status 0, all that its check says holds of the bytes that it accepted, and the sink
/// took the text of this. So what an audit by `ats_audit`, `ats_text_proof`, `ats_all_proof`, `ats_growth_proof` or `ats_catalog_audit` says
/// of these bytes is known without an index's file.
pub fn accepted_answers_are_printed<H: HashKind>()
    ensures verify { (root r query proof digest : List ℕ) (n : ℕ) (before now : Outside)
        → root_word root ≡ Some digest → number_of r ≡ Some n
        → Ran H.hash (verify_words root r query proof) before now 0
        → (text : List ℕ) × IsVerified H.hash before.shelf.files
        (record { root = digest; r = n; query = query; proof = proof }) text × Took before.sink now.sink text }
    ensures ask { (root algorithm r query address digest : List ℕ) (by : Algorithm) (n : ℕ) (before now : Outside)
        → root_word root ≡ Some digest → algorithm_of algorithm ≡ Some by → number_of r ≡ Some n
        → Ran H.hash (codes "ask" ∷ root ∷ algorithm ∷ r ∷ query ∷ address ∷ []) before now 0
        → (text : List ℕ) × IsReplyVerified H.hash before.caller now.caller
        (record { root = digest; algorithm = by; r = n; query = query; address = address }) text
        × Took before.sink now.sink text }
    ensures fetch { (root doc file digest : List ℕ) (n : ℕ) (before now : Outside)
        → root_word root ≡ Some digest → number_of doc ≡ Some n
        → Ran H.hash (fetch_words root doc file) before now 0
        → (text : List ℕ) × IsFetched H.hash before.shelf.files (record { root = digest; doc = n; file = file }) text
        × Took before.sink now.sink text }
    ensures both { (root query proof digest : List ℕ) (before now : Outside) → root_word root ≡ Some digest
        → Ran H.hash (both_words root query proof) before now 0
        → (text : List ℕ) × IsBothChecked H.hash before.shelf.files (record { root = digest; query = query; proof = proof }) text
        × Took before.sink now.sink text }
    ensures growth { (old new file older_root newer_root : List ℕ) (before now : Outside)
        → root_word old ≡ Some older_root → root_word new ≡ Some newer_root
        → Ran H.hash (growth_words old new file) before now 0
        → (text : List ℕ) × IsGrowthChecked H.hash before.shelf.files
        (record { old = older_root; new = newer_root; file = file }) text × Took before.sink now.sink text }
    ensures catalog { (root r query file digest : List ℕ) (n : ℕ) (before now : Outside)
        → root_word root ≡ Some digest → number_of r ≡ Some n
        → Ran H.hash (catalog_words root r query file) before now 0
        → (text : List ℕ) × IsCatalogChecked H.hash before.shelf.files
        (record { root = digest; r = n; query = query; file = file }) text × Took before.sink now.sink text }
{}
