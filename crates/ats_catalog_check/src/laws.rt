//! What an accepted proof says of a catalog, and that refusals are unique, as contracts of functions that do nothing.

ghost use Rattle.std.specs.Prelude.{◌≡◌, ◌⊎◌, ◌↔◌, ◌≤◌, ℕ, List, [], ◌∷◌, length, map};
ghost use Rattle.ats_terms.specs.Query.{IsQuery};
ghost use Rattle.ats_proof.specs.Value.{Proof, IsProof};
ghost use Rattle.ats_client.specs.Accepts.{AcceptsShown};
ghost use Rattle.ats_client.specs.Bounded.{rest_of, AreSettledRows};
ghost use Rattle.ats_client.specs.Bytes.{IsAcceptedBytes};
ghost use Rattle.ats_client.specs.Rows.{rows_of};
ghost use Rattle.ats_refusal.specs.declared.catalog.CatalogRefusal.{CatalogRefusal};
ghost use Rattle.ats_catalog_bytes.specs.Catalog.{root_over};
ghost use Rattle.ats_catalog_bytes.specs.Value.{Framed, AreFrames};
ghost use Rattle.ats_catalog_check.specs.declared.row.CatalogRow.{CatalogRow};
ghost use Rattle.ats_catalog_check.specs.Accepts.{AcceptsCatalog, IsFirstCatalogRefusal, AreRowsOf};
ghost use Rattle.ats_catalog_check.specs.Headline.{IsCatalogTopOrCollides};
ghost use Rattle.ats_catalog_check.specs.Merge.{in_shard};

use ats_client::rows_and_rests_settle;
use ats_hash::HashKind;

/// The headline: for each catalog with the root, either the rows of an accepted proof are right, or `catalog_collision` finds
/// two different strings with equal digests.
pub fn accepted_catalogs_are_top<H: HashKind>()
    ensures { (root : List ℕ) (query : List (List ℕ × ℕ)) (r : ℕ) (shards : List Framed)
        → IsQuery query → AreFrames shards
        → AcceptsCatalog H.hash root query r shards → IsCatalogTopOrCollides H.hash root query r shards }
{}

/// The proof of a catalog of one shard is checked as that of its shard. It is accepted exactly if the root is that over the
/// shard's root, the shard's proof keeps all rules before the settling, and its rows and its rest settle an answer of at most
/// r. That is what the check of the shard's proof accepts, and more in one corner:
/// [`rows_and_rests_settle`](ats_client::rows_and_rests_settle) says in which the check wants a row besides. The rows are
/// those of the proof in their order, so ties make no other.
pub fn one_shard_is_the_check<H: HashKind>()
    ensures shown { (root : List ℕ) (query : List (List ℕ × ℕ)) (r : ℕ) (one : Framed)
        → (AcceptsCatalog H.hash root query r (one ∷ [])
        ↔ ((root_over H.hash (one.root ∷ []) ≡ root) × (proof : Proof) × IsProof one.bytes proof
        × AcceptsShown H.hash one.root query proof × AreSettledRows r (rows_of query proof) (rest_of query proof))) }
    ensures check { (root : List ℕ) (query : List (List ℕ × ℕ)) (r : ℕ) (one : Framed) (proof : Proof) → 1 ≤ r
        → ((AcceptsCatalog H.hash root query r (one ∷ []) × IsProof one.bytes proof
        × ((length proof.answer ≡ r) ⊎ (length proof.met ≤ length proof.answer)))
        ↔ ((root_over H.hash (one.root ∷ []) ≡ root) × IsAcceptedBytes H.hash one.root query r one.bytes proof)) }
    ensures rows { (query : List (List ℕ × ℕ)) (one : Framed) (proof : Proof) (rows : List CatalogRow) → IsProof one.bytes proof
        → (AreRowsOf query (one ∷ []) rows ↔ (rows ≡ map (in_shard 0) (rows_of query proof))) }
{
    rows_and_rests_settle();
}

/// What a catalog's proof shows breaks at most one rule first, and none if it is accepted.
pub fn catalogs_have_one_refusal<H: HashKind>()
    ensures one { (root : List ℕ) (query : List (List ℕ × ℕ)) (r : ℕ) (shards : List Framed) (a b : CatalogRefusal)
        → IsFirstCatalogRefusal H.hash root query r shards a → IsFirstCatalogRefusal H.hash root query r shards b → a ≡ b }
    ensures none { (root : List ℕ) (query : List (List ℕ × ℕ)) (r : ℕ) (shards : List Framed) (refusal : CatalogRefusal)
        → AcceptsCatalog H.hash root query r shards → IsFirstCatalogRefusal H.hash root query r shards refusal → ⊥ }
{}
