//! The postings of a term, and its list.
//!
//! An entry is a document with the term's impact there. A list is sorted by impact descending, then document
//! ascending, so its first entries bound all later ones.
//!
//! The room stands on the terms of `ats_terms` and the impacts of `ats_impact`, and has no code but the type of an entry.
//! It defines which entries a term's list has, and its laws say in plain sentences what the definitions mean. Whoever
//! needs only this, such as the brackets of scores, stands on it and not on the room that builds lists and hashes them.
#![tactic(auto)]

mod entry;
mod laws;

pub use entry::Entry;
pub use laws::{lists_are_sorted_postings, lists_have_all_documents, vocabulary_has_all_terms};
