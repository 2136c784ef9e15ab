//! The laws of all honest proofs, as contracts of functions that do nothing.

ghost use Rattle.std.specs.Prelude.{◌≡◌, ◌<◌, ◌≤◌, ◌^◌, ℕ, List, All, length};
ghost use Rattle.ats_terms.specs.Query.{IsQuery};
ghost use Rattle.ats_postings.specs.Lists.{list};
ghost use Rattle.ats_lists.specs.declared.format.Format.TheVariants.{Two};
ghost use Rattle.ats_dict.specs.declared.spot.Spot.TheVariants.{At, Between};
ghost use Rattle.ats_doctree.specs.Impacts.{doc_terms};
ghost use Rattle.ats_doctree.specs.Sentinels.{impact_at};
ghost use Rattle.ats_commit.specs.Archive.{Archive};
ghost use Rattle.ats_commit.specs.Own.{AreTexts};
ghost use Rattle.ats_proof.specs.declared.record.Algorithm.{Algorithm};
ghost use Rattle.ats_proof.specs.declared.record.Algorithm.TheVariants.{Tnra};
ghost use Rattle.ats_proof.specs.Value.{Proof};
ghost use Rattle.ats_bound.specs.Ranked.{impact_in};
ghost use Rattle.ats_honest.specs.Documents.{IsTermSpot};
ghost use Rattle.ats_honest.specs.Honest.{IsCutShown, IsHonest, length_of};

use ats_hash::HashKind;

/// Every query over every archive has an honest proof by either algorithm, for any number of rows.
pub fn honest_proofs_exist<H: HashKind>()
    ensures { (archive : Archive) (query : List (List ℕ × ℕ)) (r : ℕ) (algorithm : Algorithm)
        → AreTexts archive.texts → IsQuery query
        → (proof : Proof) × IsHonest H.hash archive query r algorithm proof }
{}

/// There is only one honest proof of a query by an algorithm: the archive, the query and the number of rows determine
/// every part of it.
pub fn honest_proofs_are_one<H: HashKind>()
    ensures { (archive : Archive) (query : List (List ℕ × ℕ)) (r : ℕ) (algorithm : Algorithm) (a b : Proof)
        → IsHonest H.hash archive query r algorithm a → IsHonest H.hash archive query r algorithm b → a ≡ b }
{}

/// Every query over every archive has one proof by either algorithm that shows a given cut of its lists, with the
/// documents that the cut meets, and has no answer.
pub fn cuts_have_one_proof<H: HashKind>()
    ensures exists { (archive : Archive) (query : List (List ℕ × ℕ)) (algorithm : Algorithm) (cut : List ℕ)
        → IsQuery query → (proof : Proof) × IsCutShown H.hash archive query algorithm cut proof }
    ensures one { (archive : Archive) (query : List (List ℕ × ℕ)) (algorithm : Algorithm) (cut : List ℕ) (a b : Proof)
        → IsCutShown H.hash archive query algorithm cut a → IsCutShown H.hash archive query algorithm cut b → a ≡ b }
{}

/// No honest TNRA proof has more bytes than a proof may have: 2^26, for a query of at most 32 terms over an archive,
/// and at most 1,000 rows.
pub fn honest_proofs_are_short<H: HashKind>()
    ensures { (archive : Archive) (query : List (List ℕ × ℕ)) (r : ℕ) (proof : Proof)
        → AreTexts archive.texts → length query ≤ 32 → r ≤ 1000
        → IsHonest H.hash archive query r Tnra proof → length_of proof ≤ 2 ^ 26 }
{}

/// Over an archive whose lists stand in blocks, an honest proof shows each list with at most 7 digests, however many of
/// its entries are shown.
pub fn fronts_in_blocks_are_short<H: HashKind>()
    ensures { (archive : Archive) (query : List (List ℕ × ℕ)) (r : ℕ) (algorithm : Algorithm) (proof : Proof)
        → archive.format ≡ Two → IsHonest H.hash archive query r algorithm proof
        → All (λ prefix. length prefix.digests ≤ 7) proof.lists }
{}

/// The impacts that are looked up are those that the terms of the documents show: for a term at a leaf the impact
/// there, and 0 for a term between two neighbours.
pub fn impacts_are_shown_by_documents()
    ensures at { (texts : List (List ℕ)) (term : List ℕ) (doc p : ℕ)
        → doc < length texts → IsTermSpot (doc_terms texts doc) term (At p)
        → impact_in doc (list texts term) ≡ impact_at (doc_terms texts doc) p }
    ensures between { (texts : List (List ℕ)) (term : List ℕ) (doc p : ℕ)
        → doc < length texts → IsTermSpot (doc_terms texts doc) term (Between p)
        → impact_in doc (list texts term) ≡ 0 }
{}
