//! A catalog: several archives, its shards, under one root, for an archive of any size.
//!
//! The root of a catalog is the digest of its header, which has the number of shards and the root of the tree of their
//! roots (RFC 6962, section 2.1). [`catalog_root`] computes it from a list of roots. A catalog's proof is one file: the
//! roots of all shards, then the proof of each. [`CatalogView::read`] reads such a file in place, exactly if the bytes
//! spell one, and else returns the first fault (`specs/Grammar.antt`); [`ShardCursor`] lends the shards in order. Neither
//! allocates, and none of it looks into the proof of a shard: `ats_catalog_check` checks them.
//!
//! The room stands on `ats_grammar` and `ats_proof` for fields, on `ats_tree` for the tree of the roots, and on `ats_commit`
//! for what an archive's root is. Two lists of roots with one root of a catalog are equal, or the strings that are hashed
//! over them contain two different ones with equal digests ([`roots_bind_catalogs`], `specs/Strings.antt`). The bytes and
//! what the root hashes may not change.
//!
//! ```
//! use ats_hash::{Sha, Steps};
//!
//! // root: that of a catalog; bytes: the 759 of a proof of its two shards
//! let view = CatalogView::read(bytes)?;
//! let shown = root_of_view::<Sha>(&view, &mut Steps::new(alloc)); // root, if it is of that catalog
//! let mut shards = view.cursor();
//! let first = shards.pass(); // the root of shard 0, and the 355 bytes of its proof
//! ```
#![tactic(auto)]

mod cursor;
mod laws;
mod rooting;
mod view;

pub use cursor::{Shard, ShardCursor};
pub use laws::{
    bytes_say_one_catalog, catalogs_grow_on, catalogs_in_range_are_spelled, roots_bind_catalogs,
};
pub use rooting::{catalog_root, root_of_view};
pub use view::{CatalogView, MAX_SHARDS};
