//! The laws of the honest file of a catalog, as contracts of functions that do nothing.

ghost use Rattle.std.specs.Prelude.{◌≡◌, ◌≤◌, ◌<◌, ◌⊎◌, ◌↔◌, ℕ, List, All, None, length};
ghost use Rattle.ats_terms.specs.Query.{IsQuery};
ghost use Rattle.ats_commit.specs.Archive.{Archive};
ghost use Rattle.ats_commit.specs.Root.{root_of};
ghost use Rattle.ats_bound.specs.Floors.{Floors};
ghost use Rattle.ats_proof.specs.declared.record.Algorithm.{Algorithm};
ghost use Rattle.ats_proof.specs.declared.record.Algorithm.TheVariants.{Tra};
ghost use Rattle.ats_proof.specs.Value.{Proof};
ghost use Rattle.ats_client.specs.Accepts.{AcceptsShown};
ghost use Rattle.ats_honest.specs.Honest.{IsHonestShare, IsHonestWithin};
ghost use Rattle.ats_catalog_bytes.specs.Catalog.{IsCatalog, archive_at, catalog_root};
ghost use Rattle.ats_catalog_bytes.specs.Value.{Framed, IsCatalogProof};
ghost use Rattle.ats_catalog_check.specs.Accepts.{AcceptsCatalog, AreProofs, shown_of};
ghost use Rattle.ats_catalog_check.specs.Headline.{score_in, size_in};
ghost use Rattle.ats_catalog_check.specs.Merge.{Shown, IsSettled};
ghost use Rattle.ats_catalog_check.specs.Strings.{catalog_collision};
ghost use Rattle.ats_catalog_honest.specs.Honest.{AreFramesOf, AreHonestProofs, AreProofsOfShares, IsHonestFile, IsProvedCatalog};
ghost use Rattle.ats_catalog_honest.specs.Ranking.{IsRankedBy, Ranked, shares_of};
ghost use Rattle.ats_catalog_honest.specs.Shares.{AreEdges, AreShared, Shares, ShowsWithin, floors_of, share_of};

use ats_hash::HashKind;

/// If each shard shows its share of an answer within its spans, and nothing else above the last edge, then the rows of
/// all shards, merged, are settled.
pub fn shares_are_settled()
    ensures { (shares : Shares) (r : ℕ) (shards : List Shown) → AreShared shares r shards → IsSettled r shards }
{}

/// The honest proof of a shard's share keeps each rule of the check but that its answer is settled, and shows its rows
/// within their spans and nothing else above the floor. A TRA proof needs an archive with a document.
pub fn honest_shards_show_their_share<H: HashKind>()
    ensures accepted { (archive : Archive) (query : List (List ℕ × ℕ)) (floors : Floors) (algorithm : Algorithm)
        (proof : Proof)
        → (algorithm ≡ Tra → 1 ≤ length archive.texts)
        → IsHonestWithin H.hash archive query floors algorithm proof
        → AcceptsShown H.hash (root_of H.hash archive) query proof }
    ensures within { (archive : Archive) (query : List (List ℕ × ℕ)) (floors : Floors) (algorithm : Algorithm)
        (proof : Proof)
        → IsHonestWithin H.hash archive query floors algorithm proof → ShowsWithin floors (shown_of query proof) }
{}

/// By TRA, which shows scores, a shard need not know the edges between rows: how many rows it is asked for, and the
/// last edge, determine its honest proof.
pub fn scores_need_no_edges<H: HashKind>()
    ensures { (catalog : List Archive) (query : List (List ℕ × ℕ)) (r : ℕ) (by : ℕ → Algorithm) (ranking : List Ranked)
        (shard : ℕ) (proof : Proof)
        → IsCatalog catalog → IsQuery query → IsRankedBy (size_in catalog) (score_in catalog query) ranking
        → shard < length catalog
        → (IsHonestWithin H.hash (archive_at catalog shard) query (floors_of (shares_of by r ranking) shard) Tra proof
        ↔ IsHonestShare H.hash (archive_at catalog shard) query (share_of (shares_of by r ranking) shard) proof) }
{}

/// If the shards of a file have the roots of a catalog, and bytes that spell the honest proofs of their shares of some
/// answer, then the file is accepted under the root of the catalog. Each row is of a shard that is there, below the
/// first row edges never rise, and the last one is 0 if there are fewer than r rows.
pub fn honest_shares_are_accepted<H: HashKind>()
    ensures { (catalog : List Archive) (query : List (List ℕ × ℕ)) (r : ℕ) (by : ℕ → Algorithm) (shares : Shares)
        (proofs : List Proof) (shards : List Framed)
        → AreEdges shares → All (λ owner. owner < length catalog) shares.owners → length shares.owners ≤ r
        → ((1 ≤ r) × (length shares.owners ≡ r)) ⊎ (shares.edges (length shares.owners) ≡ 0)
        → AreProofsOfShares H.hash catalog query by shares proofs → AreFramesOf H.hash catalog proofs shards
        → AcceptsCatalog H.hash (catalog_root H.hash catalog) query r shards }
{}

/// The honest file is accepted under the root of its catalog: no rule of the check refuses it. The same holds for
/// whatever its bytes spell.
pub fn honest_catalogs_are_accepted<H: HashKind>()
    ensures file { (catalog : List Archive) (query : List (List ℕ × ℕ)) (r : ℕ) (by : ℕ → Algorithm)
        (shards : List Framed)
        → 1 ≤ r → IsHonestFile H.hash catalog query r by shards
        → AcceptsCatalog H.hash (catalog_root H.hash catalog) query r shards }
    ensures bytes { (catalog : List Archive) (query : List (List ℕ × ℕ)) (r : ℕ) (by : ℕ → Algorithm) (bytes : List ℕ)
        → 1 ≤ r → IsProvedCatalog H.hash catalog query r by bytes
        → (shards : List Framed) → IsCatalogProof bytes shards
        → AcceptsCatalog H.hash (catalog_root H.hash catalog) query r shards }
{}

/// Every query over every catalog has the honest proofs of all shards, by any algorithms, for any number of rows.
pub fn honest_catalogs_exist<H: HashKind>()
    ensures { (catalog : List Archive) (query : List (List ℕ × ℕ)) (r : ℕ) (by : ℕ → Algorithm)
        → IsCatalog catalog → IsQuery query
        → (proofs : List Proof) × AreHonestProofs H.hash catalog query r by proofs }
{}

/// There is only one honest file: the catalog, the query, the number of rows and the algorithms determine each proof,
/// the file, and its bytes.
pub fn honest_catalogs_are_one<H: HashKind>()
    ensures proofs { (catalog : List Archive) (query : List (List ℕ × ℕ)) (r : ℕ) (by : ℕ → Algorithm)
        (a b : List Proof)
        → AreHonestProofs H.hash catalog query r by a → AreHonestProofs H.hash catalog query r by b → a ≡ b }
    ensures file { (catalog : List Archive) (query : List (List ℕ × ℕ)) (r : ℕ) (by : ℕ → Algorithm)
        (a b : List Framed)
        → IsHonestFile H.hash catalog query r by a → IsHonestFile H.hash catalog query r by b → a ≡ b }
    ensures bytes { (catalog : List Archive) (query : List (List ℕ × ℕ)) (r : ℕ) (by : ℕ → Algorithm)
        (a b : List ℕ)
        → IsProvedCatalog H.hash catalog query r by a → IsProvedCatalog H.hash catalog query r by b → a ≡ b }
{}

/// The strings that are hashed over the honest file are the catalog's own, so none collides with one of the catalog.
/// The same holds of the honest proofs of any shares, and of whatever the bytes of the honest file spell.
pub fn honest_catalogs_have_no_clash<H: HashKind>()
    ensures shares { (catalog : List Archive) (query : List (List ℕ × ℕ)) (by : ℕ → Algorithm) (shares : Shares)
        (proofs : List Proof) (shards : List Framed)
        → AreProofsOfShares H.hash catalog query by shares proofs → AreFramesOf H.hash catalog proofs shards
        → (others : List Proof) → AreProofs shards others
        → catalog_collision H.hash catalog query shards others ≡ None }
    ensures file { (catalog : List Archive) (query : List (List ℕ × ℕ)) (r : ℕ) (by : ℕ → Algorithm)
        (shards : List Framed)
        → IsHonestFile H.hash catalog query r by shards
        → (proofs : List Proof) → AreProofs shards proofs
        → catalog_collision H.hash catalog query shards proofs ≡ None }
    ensures bytes { (catalog : List Archive) (query : List (List ℕ × ℕ)) (r : ℕ) (by : ℕ → Algorithm) (bytes : List ℕ)
        → IsProvedCatalog H.hash catalog query r by bytes
        → (shards : List Framed) (proofs : List Proof) → IsCatalogProof bytes shards → AreProofs shards proofs
        → catalog_collision H.hash catalog query shards proofs ≡ None }
{}
