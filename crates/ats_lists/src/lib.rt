//! The inverted lists of a collection: for each distinct term the documents that have it.
//!
//! An entry is a document with the term's impact there. A list is sorted by impact descending, then document
//! ascending, so its first entries bound all later ones.
//!
//! The room stands on the collections and impacts of `ats_impact`, and on the trees of `ats_tree`, whose leaves a list
//! lends. [`Lists::of`] returns exactly the lists that the plain counts over the texts give, in byte order of the
//! terms. A term is found exactly if it has a list. The bytes of each leaf are fixed. How postings are gathered,
//! sorted and kept may change freely.
//!
//! A list is hashed as one tree, or in blocks of 64 entries ([`Format`]). [`chain_rebuild`] returns the digest of a list
//! in blocks from its first leaves and the digests of the rest, exactly if these fit, in a bounded number of steps and
//! without memory. What is rebuilt is bound to each list with that digest: either each shown leaf is the list's, or the
//! first string that differs from the list's has the digest of the string there. Whoever has a list of their own
//! ([`OwnList`]) finds by [`chain_first_clash`] the place where such a string is hashed. [`Chain`] keeps the digests of a
//! list in blocks, and [`ListDigests`] those of a list in either format: they return the root, the digests that the first
//! entries need, and the string that is hashed at a place, without hashing. The laws say in plain sentences what the
//! definitions mean.
//!
//! ```
//! // collection: the texts "red fox", "red red hen" and "blue hen"
//! let lists = Lists::of(alloc, &collection)?;
//! if let Some(place) = lists.find(b"hen") {
//!     let entries = lists.list(place); // documents 2 and 1, with the impacts 1063 and 896
//!     let leaves = ListLeaves { entries }; // the list, as the leaves of its tree
//! }
//! ```
#![tactic(auto)]

mod building;
mod chain_clashing;
mod chain_keeping;
mod chain_laws;
mod chain_rebuilding;
mod format;
mod format_laws;
mod format_number;
mod gathering;
mod key;
mod leaves;
mod list_keeping;
mod lists;
mod memory;
mod numbering;
mod own_list;
mod term_list;

pub use building::ListsBuilder;
pub use chain_clashing::chain_first_clash;
pub use chain_keeping::Chain;
pub use chain_laws::{chain_of_strings, chain_strings_have_numbers, first_leaves_suffice};
pub use chain_rebuilding::chain_rebuild;
pub use format::Format;
pub use format_laws::{
    first_entries_suffice, first_leaves_are_bound, list_strings_are_shallow, list_strings_have_tags,
};
pub use leaves::ListLeaves;
pub use list_keeping::ListDigests;
pub use lists::Lists;
pub use memory::OutOfMemory;
pub use own_list::OwnList;
