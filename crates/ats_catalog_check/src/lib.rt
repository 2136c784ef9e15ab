//! The check of an answer from several archives, the shards of a catalog, under one root.
//!
//! A catalog's proof shows the root of each shard, and for each a proof of its own. [`check_catalog`] compares the roots first,
//! then checks what each proof shows under its shard's root, and merges the rows: of the next rows of all shards the one
//! that scores most at least, then most at most, then that of the first shard. The answer is settled if the merged rows
//! fall and no other document can score more than the last of them. It allocates nothing: the caller lends the marks
//! ([`MAX_MET`] are enough) and the room for the rows. [`verify_catalog`] goes from bytes to rows.
//!
//! The room stands on `ats_client` for what a proof shows, and on `ats_catalog_bytes` for the bytes and the root of a catalog; it
//! knows no index. A proof is accepted exactly if all rules of `specs/Accepts.antt` hold, else refused by the first that
//! fails. Then, for each catalog with the root, the rows are a top answer of all its documents, or there are two different
//! strings with equal digests (`specs/Headline.antt`). How a row finds its place may change freely.
//!
//! ```
//! use ats_hash::Sha;
//! use ats_impact::Top;
//! use ats_terms::Query;
//!
//! // root: that of a catalog of two shards, each of "red fox", "red red hen" and "blue hen"; bytes: a proof for the query
//! let query = Query::read(alloc, "red hen")?;
//! let rows = verify_catalog::<Sha>(alloc, bytes, &root, &query, Top::new(2)?)?;
//! let best = rows.get(0); // CatalogRow { shard: 0, doc: 1, lower: 13014, upper: 13014 }
//! ```
#![tactic(auto)]

mod checking;
mod fault;
mod inserting;
mod laws;
mod merging;
mod row;
mod verifying;

pub use ats_refusal::CatalogRefusal;
pub use checking::check_catalog;
pub use fault::CatalogFault;
pub use laws::{accepted_catalogs_are_top, catalogs_have_one_refusal, one_shard_is_the_check};
pub use row::{CatalogRow, CatalogRows};
pub use verifying::{MAX_MET, verify_catalog};
