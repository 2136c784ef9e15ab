//! The index of a collection: its lists, its dictionary, the terms of its documents, and its root.
//!
//! An owner builds an index from a collection once, and a server answers queries from it.
//!
//! The room stands on `ats_lists`, `ats_dict` and `ats_doctree`, whose parts it makes, by one thread or by several,
//! and on `ats_commit`, which defines what they are together. Each tree is hashed once, and the digests of its nodes
//! are kept and lent, except those of the texts tree. Both builds return the same index: contracts see only its
//! archive, and each part, digests included, is that archive's under the hash function. Lists are hashed in one of two formats
//! (`ats_lists::Format`), which the bytes and the root say. An index has one spelling in
//! bytes, and bytes are the spelling of at most one archive. Bytes are loaded exactly if they are the spelling of some
//! archive. Else they are refused with the place of the first bad field up to the last text, or of the first
//! difference from the index of the texts. No table of `ats_grammar` reads them: all that follows the texts has one
//! value, so it is compared, not parsed. The string at each place of the trees of an index is the archive's own. How
//! the parts are made and kept may change freely; the bytes may not.
//!
//! ```
//! use ats_hash::Sha;
//!
//! // collection: the texts "red fox", "red red hen" and "blue hen"
//! let index = Index::<Sha>::build(rt, alloc, collection)?;
//! let root = index.root(); // 29797811..
//! let bytes = index.bytes()?; // 152 bytes
//! let loaded = Index::<Sha>::load(rt, alloc, bytes.as_slice())?; // the same index
//! ```
#![tactic(auto)]

mod building;
mod compare;
mod dictionary;
mod doc_leaves;
mod documents;
mod fronts;
mod header;
mod index;
mod large_trees;
mod laws;
mod load;
mod memory;
mod parallel;
mod read;
mod strings;
mod write;

pub use index::Index;
pub use laws::{bad_indexes_have_one_place, index_bytes_are_few, index_bytes_say_one_archive};
pub use load::LoadFault;
pub use memory::OutOfMemory;
