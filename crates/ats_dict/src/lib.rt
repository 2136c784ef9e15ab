//! The dictionary of a collection, and the header whose digest is the collection's root.
//!
//! The dictionary is a tree with one leaf for each distinct term in byte order, between a low and a high sentinel that
//! enclose every term. A leaf binds a term to the number of its documents and to the root of its list. The header
//! binds that tree, and those of the documents and the texts, to their numbers.
//!
//! The crate stands on `ats_tree`, and on `ats_terms` for terms and the search among them. It promises the leaves and
//! the header byte by byte. A term is found exactly at its position, or else strictly between two neighbours. Headers
//! are read back exactly if they are in range. How terms are stored in memory may change freely; the bytes may not.
//!
//! ```
//! // blue, hen: the roots of the lists of these terms
//! let mut dictionary = Dictionary::new(alloc);
//! dictionary.push(b"blue", 1, &blue)?;
//! dictionary.push(b"hen", 2, &hen)?;
//! let here = dictionary.find(b"hen"); // Spot::At(2)
//! let gap = dictionary.find(b"fox"); // Spot::Between(1)
//! // header: a `Header` in range
//! let same = Header::read(&header.bytes()); // Some(header)
//! ```
#![tactic(auto)]

pub use dictionary::{DictLeaf, Dictionary, OutOfMemory};
pub use header::{HEADER_BYTES, Header};
pub use laws::{headers_tell_their_parts, leaves_by_position, leaves_tell_their_parts, terms_rise};
pub use spot::Spot;

mod dictionary;
mod header;
mod laws;
mod pieces;
mod spot;
