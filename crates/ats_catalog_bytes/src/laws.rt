//! What the bytes of a catalog's proof say, and what its root binds, as contracts of functions that do nothing.

ghost use Rattle.std.specs.Prelude.{◌≡◌, ◌⊎◌, ◌≤◌, ℕ, List, length, IsSome};
ghost use Rattle.ats_catalog_bytes.specs.Catalog.{root_over};
ghost use Rattle.ats_catalog_bytes.specs.Growth.{GrewTo};
ghost use Rattle.ats_catalog_bytes.specs.Strings.{roots_collision};
ghost use Rattle.ats_catalog_bytes.specs.Value.{Framed, IsCatalogProof, AreFrames};

use ats_hash::HashKind;

/// Bytes say at most one list of shards, whose parts are in their ranges. Each list has at most one spelling.
pub fn bytes_say_one_catalog()
    ensures one { (bytes : List ℕ) (shards others : List Framed)
        → IsCatalogProof bytes shards → IsCatalogProof bytes others → shards ≡ others }
    ensures range { (bytes : List ℕ) (shards : List Framed) → IsCatalogProof bytes shards → AreFrames shards }
    ensures spelling { (bytes others : List ℕ) (shards : List Framed)
        → IsCatalogProof bytes shards → IsCatalogProof others shards → bytes ≡ others }
{}

/// Each list of shards whose parts are in their ranges has a spelling.
pub fn catalogs_in_range_are_spelled()
    ensures { (shards : List Framed) → AreFrames shards → (bytes : List ℕ) × IsCatalogProof bytes shards }
{}

/// The root of a catalog binds the roots of its shards: two lists of roots with one root of a catalog are equal, or the
/// strings that are hashed over them contain two different ones with equal digests at one place.
pub fn roots_bind_catalogs<H: HashKind>()
    ensures { (ours theirs : List (List ℕ)) → length ours ≤ 4096 → 1 ≤ length theirs → length theirs ≤ 4096
        → root_over H.hash ours ≡ root_over H.hash theirs → (ours ≡ theirs) ⊎ IsSome (roots_collision H.hash ours theirs) }
{}

/// A catalog has grown from each list of roots to itself, and from the first of three to the last if it has grown from
/// each to the next.
pub fn catalogs_grow_on()
    ensures same { (roots : List (List ℕ)) → GrewTo roots roots }
    ensures on { (first second third : List (List ℕ)) → GrewTo first second → GrewTo second third → GrewTo first third }
{}
