//! What an audit of a catalog's answer finds.

use ats_catalog_check::{CatalogRefusal, CatalogRows};
use ats_tree::{HashedString, Place};

/// Where a string is hashed.
#[derive(Clone, Copy, Debug, PartialEq, Eq)]
pub enum StringPlace {
    /// The header of the catalog.
    Header,
    /// A node of the tree of the roots, by the turns from its root: the `depth` lowest binary digits of `turns`, highest
    /// first, 0 for left and 1 for right.
    Roots { depth: u8, turns: u32 },
    /// A place of the proof of the shard with this number, from 0.
    Shard { shard: u32, place: Place },
}

/// Two different strings with equal digests at one place: the catalog's own, and the one that the check hashes there.
#[derive(Clone, Copy, Debug, PartialEq, Eq)]
pub struct CatalogClash {
    pub place: StringPlace,
    /// The catalog's own string.
    pub ours: HashedString,
    /// The string that the check hashes.
    pub theirs: HashedString,
}

/// What an audit of a catalog's answer finds, of bytes that spell a proof.
#[derive(Drop)]
pub enum CatalogVerdict {
    /// The first rule that what the bytes show breaks, under the root of the catalog of the archives.
    Refused(CatalogRefusal),
    /// The answer is right for the archives: its rows, which are those of the accepted proof.
    Right(CatalogRows),
    /// The proof is accepted, and the check hashes a string that differs from the catalog's own and has its digest. It is
    /// the first such string, from the header and the tree of the roots to the proof of each shard, and the answer may be
    /// wrong.
    Collision(CatalogClash),
}
