//! The laws of the commands together, as contracts of functions that do nothing.

ghost use Rattle.std.specs.Prelude.{◌≡◌, ◌≢◌, ◌⊎◌, ◌≤◌, ◌^◌, ℕ, List, All, length, codes, Some, IsSome};
ghost use Rattle.std.specs.List.{AllZip};
ghost use Rattle.ats_base.specs.Outside.{Holds};
ghost use Rattle.ats_base.specs.Links.{CallerTold};
ghost use Rattle.ats_terms.specs.Query.{IsQueryOf};
ghost use Rattle.ats_commit.specs.Archive.{Archive};
ghost use Rattle.ats_commit.specs.Own.{AreTexts};
ghost use Rattle.ats_commit.specs.Root.{root_of};
ghost use Rattle.ats_all_proof.specs.Made.{IsBothProof};
ghost use Rattle.ats_text_proof.specs.Given.{given_text};
ghost use Rattle.ats_text_check.specs.Value.{IsTextProof};
ghost use Rattle.ats_growth_proof.specs.Honest.{honest};
ghost use Rattle.ats_growth_check.specs.Value.{IsGrowth};
ghost use Rattle.ats_proof.specs.declared.record.Algorithm.{Algorithm};
ghost use Rattle.ats_index.specs.Spelling.{IsSpelling};
ghost use Rattle.ats_honest.specs.Honest.{IsProved};
ghost use Rattle.ats_catalog_bytes.specs.Catalog.{catalog_root};
ghost use Rattle.ats_catalog_honest.specs.Honest.{IsProvedCatalog};
ghost use Rattle.ats_console.specs.Words.{AskWords, ServeWords, AuditWords, SweepWords, GiveWords, AuditFetchWords, ProveBothWords, AuditBothWords, GrowWords, AuditGrowthWords, ProveCatalogWords, AuditCatalogWords, Command, Ask, Serve, Audit, Sweep, Give, AuditFetch, ProveBoth, AuditBoth, Grow, AuditGrowth, AuditCatalog, command_of, number_of, algorithm_of, root_word, root_words, prove_words, migrate_words, verify_words, fetch_words, both_words, growth_words, catalog_words, Auditor, Maker};
ghost use Rattle.ats_plan.specs.Files.{Files, IsFile, IsTold};
ghost use Rattle.ats_console.specs.Names.{HasNames};
ghost use Rattle.ats_console.specs.Read.{HasIndex};
ghost use Rattle.ats_console.specs.Steps.{IsRowCount, AsksRanking};
ghost use Rattle.ats_plan.specs.Plan.{Refuses, Passes, IsKnown};
ghost use Rattle.ats_top.specs.Commands.{plan_of};
ghost use Rattle.ats_makers.specs.Commands.{in_blocks, HasDocument, WithdrawsNothing, IsCatalogStored};
ghost use Rattle.ats_console.specs.declared.stops.Stop.{Stop};
ghost use Rattle.ats_console.specs.declared.stops.Stop.TheVariants.{Shelf as AtShelf};
ghost use Rattle.ats_console.specs.Stops.{status_of_stop, text_of_stop};
ghost use Rattle.ats_top.specs.Run.{AreOfCommand, StepsHold, Ran, Excuse};
ghost use Rattle.ats_top.specs.Outside.{Outside};
ghost use Rattle.ats_top.specs.Serving.{Took};
ghost use Rattle.ats_auditors.specs.Listed.{Listed, IsList, names_of};
ghost use Rattle.ats_auditors.specs.Gathered.{AreAllThere};
ghost use Rattle.ats_auditors.specs.Findings.{IsHonestLine};
ghost use Rattle.ats_top.specs.Conversation.{Converses};
ghost use Rattle.ats_top.specs.Asked.{question_of};
ghost use Rattle.ats_top.specs.Calling.{MayCall, MayOpen, ReplyDecides};

use ats_catalog_honest::{honest_catalogs_are_accepted, honest_catalogs_have_no_clash};
use ats_hash::HashKind;

/// If a file is the honest proof of a query over an archive, by either algorithm, `verify` serves it under the word of
/// the archive's root, for the same query and number of rows.
pub fn commands_accept_honest_proofs<H: HashKind>()
    ensures { (archive : Archive) (asked : List (List ℕ × ℕ)) (rows : ℕ) (algorithm : Algorithm) (bytes : List ℕ)
        (files : Files) (root r query name : List ℕ)
        → IsProved H.hash archive asked rows algorithm bytes
        → IsFile files name (2 ^ 26) bytes → root_word root ≡ Some (root_of H.hash archive)
        → number_of r ≡ Some rows → IsRowCount rows → IsQueryOf query asked
        → AreOfCommand (verify_words root r query name) (StepsHold H.hash files) }
{}

/// If a file is the honest proof of a query over the archive of an index, by either algorithm, `audit` serves it for
/// the same query and number of rows. Such a proof has no collision with the archive.
pub fn audits_accept_honest_proofs<H: HashKind>()
    ensures { (archive : Archive) (files : Files) (words : AuditWords)
        (asked : List (List ℕ × ℕ)) (algorithm : Algorithm) (bytes : List ℕ)
        → HasIndex H.hash files words.index archive → IsRowCount words.r → IsQueryOf words.query asked
        → IsProved H.hash archive asked words.r algorithm bytes
        → IsFile files words.proof (2 ^ 26) bytes → StepsHold H.hash files (Auditor (Audit words)) }
{}

/// `sweep` serves a list in which each line asks for the honest proof of its query over the archive of the index, by
/// either algorithm, if all the proofs are there within the limit. Each of them is found right.
pub fn sweeps_accept_honest_proofs<H: HashKind>()
    ensures { (archive : Archive) (files : Files) (words : SweepWords) (listed : List Listed)
        → HasIndex H.hash files words.index archive → IsList files words.list listed
        → AreAllThere files (names_of listed) → All (IsHonestLine H.hash files archive) listed
        → StepsHold H.hash files (Auditor (Sweep words)) }
{}

/// If a file holds the index bytes of an archive, which `build` stores, `root` serves it. TNRA `prove` serves it too,
/// for a query and a number of rows within the limits: no proof of these is too long. By either algorithm `prove`
/// serves it if the honest proof has no more bytes than a proof may have. `migrate` serves it too, `serve` comes to its
/// links with it, `audit` serves it with the honest proof of a query, and `give` for each of its documents. The same holds
/// for what `migrate` stores, since it is the index of an archive.
pub fn commands_accept_built_indexes<H: HashKind>()
    ensures root { (archive : Archive) (bytes : List ℕ) (files : Files) (name : List ℕ)
        → IsSpelling H.hash bytes archive → Holds files name bytes
        → AreOfCommand (root_words name) (StepsHold H.hash files) }
    ensures prove { (archive : Archive) (bytes : List ℕ) (files : Files) (name : List ℕ)
        → IsSpelling H.hash bytes archive → Holds files name bytes
        → (rows : ℕ) (r query proof : List ℕ) → number_of r ≡ Some rows → AsksRanking rows query
        → AreOfCommand (prove_words name (codes "tnra") r query proof) (StepsHold H.hash files) }
    ensures either { (archive : Archive) (bytes : List ℕ) (files : Files) (name : List ℕ)
        → IsSpelling H.hash bytes archive → Holds files name bytes
        → (algorithm : Algorithm) (asked : List (List ℕ × ℕ)) (rows : ℕ) (honest : List ℕ)
        → IsProved H.hash archive asked rows algorithm honest → length honest ≤ 2 ^ 26
        → (word r query proof : List ℕ) → algorithm_of word ≡ Some algorithm → number_of r ≡ Some rows
        → IsRowCount rows → IsQueryOf query asked
        → AreOfCommand (prove_words name word r query proof) (StepsHold H.hash files) }
    ensures migrate { (archive : Archive) (bytes : List ℕ) (files : Files) (name migrated : List ℕ)
        → IsSpelling H.hash bytes archive → Holds files name bytes
        → AreOfCommand (migrate_words name migrated) (StepsHold H.hash files) }
    ensures serve { (archive : Archive) (bytes : List ℕ) (files : Files) (words : ServeWords)
        → IsSpelling H.hash bytes archive → Holds files words.index bytes → Passes files (plan_of H.hash (Serve words)) }
    ensures audit { (archive : Archive) (bytes : List ℕ) (files : Files) (words : AuditWords)
        (asked : List (List ℕ × ℕ)) (algorithm : Algorithm) (honest : List ℕ)
        → IsSpelling H.hash bytes archive → Holds files words.index bytes → IsRowCount words.r
        → IsQueryOf words.query asked → IsProved H.hash archive asked words.r algorithm honest
        → IsFile files words.proof (2 ^ 26) honest → StepsHold H.hash files (Auditor (Audit words)) }
    ensures give { (archive : Archive) (bytes : List ℕ) (files : Files) (words : GiveWords)
        → IsSpelling H.hash bytes archive → Holds files words.index bytes → HasDocument archive words.doc
        → StepsHold H.hash files (Maker (Give words)) }
{}

/// If a file gives the text of a document of an archive, as `give` stores it, `fetch` serves it under the word of the
/// archive's root, and `audit-fetch` against an index of the archive: it has no collision with the archive.
pub fn commands_accept_given_texts<H: HashKind>()
    ensures fetch { (archive : Archive) (doc : ℕ) (bytes : List ℕ) (files : Files) (root word name : List ℕ)
        → AreTexts archive.texts → HasDocument archive doc → IsTextProof bytes (given_text H.hash archive doc)
        → IsFile files name (2 ^ 21) bytes → root_word root ≡ Some (root_of H.hash archive)
        → number_of word ≡ Some doc → AreOfCommand (fetch_words root word name) (StepsHold H.hash files) }
    ensures audit { (archive : Archive) (bytes : List ℕ) (files : Files) (words : AuditFetchWords)
        → HasIndex H.hash files words.index archive → HasDocument archive words.doc
        → IsTextProof bytes (given_text H.hash archive words.doc) → IsFile files words.file (2 ^ 21) bytes
        → StepsHold H.hash files (Auditor (AuditFetch words)) }
{}

/// `prove-both` serves the index of an archive and a query if its proof of all documents with every term has no more bytes
/// than a proof may have. A file that is this proof is accepted by `both` under the word of the archive's root, and by
/// `audit-both` against an index of the archive: it has no collision with the archive.
pub fn commands_accept_made_boths<H: HashKind>()
    ensures prove { (archive : Archive) (asked : List (List ℕ × ℕ)) (bytes : List ℕ) (files : Files) (words : ProveBothWords)
        → HasIndex H.hash files words.index archive → IsQueryOf words.query asked
        → IsBothProof H.hash archive asked bytes → length bytes ≤ 2 ^ 26
        → StepsHold H.hash files (Maker (ProveBoth words)) }
    ensures both { (archive : Archive) (asked : List (List ℕ × ℕ)) (bytes : List ℕ) (files : Files) (root query name : List ℕ)
        → IsQueryOf query asked → IsBothProof H.hash archive asked bytes → IsFile files name (2 ^ 26) bytes
        → root_word root ≡ Some (root_of H.hash archive) → AreOfCommand (both_words root query name) (StepsHold H.hash files) }
    ensures audit { (archive : Archive) (asked : List (List ℕ × ℕ)) (bytes : List ℕ) (files : Files) (words : AuditBothWords)
        → HasIndex H.hash files words.index archive → IsQueryOf words.query asked
        → IsBothProof H.hash archive asked bytes → IsFile files words.proof (2 ^ 26) bytes
        → StepsHold H.hash files (Auditor (AuditBoth words)) }
{}

/// If the texts of an archive are the first of another one's, `grow` serves their indexes. A file that shows this, as `grow`
/// stores it, is accepted by `growth` under the words of the two roots, and by `audit-growth` against indexes of the two
/// archives: it has no collision with them.
pub fn commands_accept_shown_growths<H: HashKind>()
    ensures grow { (older newer : Archive) (files : Files) (words : GrowWords)
        → HasIndex H.hash files words.old older → HasIndex H.hash files words.new newer → WithdrawsNothing older newer
        → StepsHold H.hash files (Maker (Grow words)) }
    ensures growth { (older newer : Archive) (bytes : List ℕ) (files : Files) (old new name : List ℕ)
        → AreTexts older.texts → AreTexts newer.texts → WithdrawsNothing older newer
        → IsGrowth bytes (honest H.hash older newer) → IsFile files name 4096 bytes
        → root_word old ≡ Some (root_of H.hash older) → root_word new ≡ Some (root_of H.hash newer)
        → AreOfCommand (growth_words old new name) (StepsHold H.hash files) }
    ensures audit { (older newer : Archive) (bytes : List ℕ) (files : Files) (words : AuditGrowthWords)
        → HasIndex H.hash files words.old older → HasIndex H.hash files words.new newer → WithdrawsNothing older newer
        → IsGrowth bytes (honest H.hash older newer) → IsFile files words.file 4096 bytes
        → StepsHold H.hash files (Auditor (AuditGrowth words)) }
{}

/// If the shelf reports its files, `prove-catalog` stores the honest file of the catalog of the indexes that its list names:
/// it reads each index twice, and finds the same archive. A file that is the honest one of a catalog, by any algorithms, is
/// accepted by `catalog` under the word of the catalog's root, and by `audit-catalog` against a list of indexes of the
/// catalog: it has no collision with the catalog.
pub fn commands_accept_proved_catalogs<H: HashKind>()
    ensures prove { (before now : Files) (words : ProveCatalogWords) (text : List ℕ) → IsTold before
        → (stored : IsCatalogStored H.hash before now words text)
        → IsProvedCatalog H.hash stored.file.catalog stored.query words.r (λ _. words.algorithm) stored.bytes }
    ensures catalog { (catalog : List Archive) (asked : List (List ℕ × ℕ)) (rows : ℕ) (by : ℕ → Algorithm)
        (bytes : List ℕ) (files : Files) (root r query name : List ℕ)
        → IsProvedCatalog H.hash catalog asked rows by bytes
        → IsFile files name (2 ^ 28) bytes → root_word root ≡ Some (catalog_root H.hash catalog)
        → number_of r ≡ Some rows → IsRowCount rows → IsQueryOf query asked
        → AreOfCommand (catalog_words root r query name) (StepsHold H.hash files) }
    ensures audit { (catalog : List Archive) (asked : List (List ℕ × ℕ)) (by : ℕ → Algorithm) (bytes : List ℕ)
        (files : Files) (words : AuditCatalogWords) (names : List (List ℕ))
        → HasNames files words.list names → AllZip (HasIndex H.hash files) names catalog
        → IsRowCount words.r → IsQueryOf words.query asked
        → IsProvedCatalog H.hash catalog asked words.r by bytes → IsFile files words.file (2 ^ 28) bytes
        → StepsHold H.hash files (Auditor (AuditCatalog words)) }
{
    honest_catalogs_are_accepted::<H>();
    honest_catalogs_have_no_clash::<H>();
}

/// An index in which lists stand in blocks has the same bytes if it is migrated again.
pub fn migrated_indexes_stay<H: HashKind>()
    ensures { (archive : Archive) (bytes again : List ℕ) (other : Archive)
        → IsSpelling H.hash bytes (in_blocks archive) → IsSpelling H.hash bytes other
        → IsSpelling H.hash again (in_blocks other) → again ≡ bytes }
{}

/// If the shelf reports its files, or the command comes to no file, at most one cause stops it by its words and files (`one`),
/// and none if each of its steps holds (`none`). So two runs of the same words over the same files end with the same status,
/// and if this is not 0 they print the same; or one of them has an excuse (`runs`). Commands that come to a link are left
/// out: they may hear something else each time.
pub fn commands_stop_in_one_way<H: HashKind>()
    ensures one { (files : Files) (command : Command) (a b : Stop) → IsKnown files (plan_of H.hash command)
        → Refuses AtShelf files (plan_of H.hash command) a → Refuses AtShelf files (plan_of H.hash command) b → a ≡ b }
    ensures none { (files : Files) (command : Command) (stop : Stop) → IsKnown files (plan_of H.hash command)
        → Passes files (plan_of H.hash command) → Refuses AtShelf files (plan_of H.hash command) stop → ⊥ }
    ensures runs { (said : List (List ℕ)) (command : Command) (before now since later : Outside) (a b : ℕ)
        → command_of said ≡ Some command → (MayCall command → ⊥) → (MayOpen command → ⊥)
        → IsKnown before.shelf.files (plan_of H.hash command) → since.shelf.files ≡ before.shelf.files
        → Ran H.hash said before now a → Ran H.hash said since later b
        → ((a ≡ b) × (a ≢ 0 → (text : List ℕ) × Took before.sink now.sink text × Took since.sink later.sink text))
        ⊎ (Excuse H.hash said before now a ⊎ Excuse H.hash said since later b) }
{}

/// If what is known of the files decides each step of a command, and its first step that does not hold stops it so, then its
/// run ends with the status of this stop, and the sink took exactly the stop's text; or the run has an excuse.
pub fn stops_are_printed<H: HashKind>()
    ensures { (said : List (List ℕ)) (command : Command) (stop : Stop) (before now : Outside) (status : ℕ)
        → command_of said ≡ Some command → IsKnown before.shelf.files (plan_of H.hash command)
        → Refuses AtShelf before.shelf.files (plan_of H.hash command) stop → Ran H.hash said before now status
        → ((status ≡ status_of_stop stop) × Took before.sink now.sink (text_of_stop stop))
        ⊎ Excuse H.hash said before now status }
{}

/// If the bytes that `ask` got are the honest proof of its query over an archive with its root, by either algorithm,
/// its reply decides status 0.
pub fn honest_replies_are_accepted<H: HashKind>()
    ensures { (archive : Archive) (asked : List (List ℕ × ℕ)) (algorithm : Algorithm) (bytes : List ℕ)
        (words : AskWords) (before now : CallerTold)
        → IsProved H.hash archive asked words.r algorithm bytes → words.root ≡ root_of H.hash archive
        → IsRowCount words.r → IsQueryOf words.query asked
        → Converses words.address (question_of words) before now (Ok bytes)
        → ReplyDecides H.hash before now (Ask words) 0 }
{}

/// If the caller reports, what arrived over the link of a command decides at most one status.
pub fn replies_decide_one_status<H: HashKind>()
    ensures { (before now : CallerTold) (command : Command) (a b : ℕ) → IsSome before.content
        → ReplyDecides H.hash before now command a → ReplyDecides H.hash before now command b → a ≡ b }
{}
