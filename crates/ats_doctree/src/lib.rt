//! The terms of a document with their impacts, as the leaves of a tree.
//!
//! A terms tree has one leaf for each distinct term of the document in byte order, between a low and a high sentinel
//! that enclose every term. The documents leaf binds the root of this tree to its number of leaves.
//!
//! The room stands on the table of counts and the search of `ats_terms`, and on the impacts of `ats_impact`: it finds
//! no words itself and reads no other document. The contracts promise the terms and impacts from plain counts over the
//! texts, and the leaves byte by byte. A term is found exactly at its position, or else strictly between two
//! neighbours. How terms and counts are stored in memory may change freely; the bytes may not.
//!
//! ```
//! // collection: the texts "red fox", "red red hen" and "blue hen"
//! for doc in 0..collection.documents() {
//!     let terms = DocTerms::of(alloc, &collection, doc)?;
//!     let impact = match terms.find(b"red") {
//!         Spot::At(p) => terms.impact(p), // 1063 in document 0, 1273 in document 1
//!         Spot::Between(_) => 0,
//!     };
//! }
//! ```
#![tactic(auto)]

mod doc_leaf;
mod doc_terms;
mod laws;
mod memory;
mod spot;

pub use doc_leaf::{DOC_LEAF_BYTES, DocLeaf};
pub use doc_terms::DocTerms;
pub use laws::{impacts_tell_counts, leaves_by_position, leaves_tell_their_parts, terms_rise};
pub use memory::OutOfMemory;
pub use spot::Spot;
