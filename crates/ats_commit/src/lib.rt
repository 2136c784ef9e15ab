//! The commitment to an archive: the leaves of its trees, the header, and the root. An archive is the texts of a
//! collection with the format of their lists.
//!
//! The root is the digest of the header, which binds the numbers of documents and of dictionary leaves to the roots of
//! the dictionary, of the documents and of the texts. The dictionary binds each term to the root of its list, and the
//! documents tree binds each document to the root of its terms.
//!
//! The room stands on `ats_lists`, `ats_doctree` and `ats_dict`, which make the leaves of those trees, and defines
//! from plain lists over the archive what they are together. The contracts promise the root of a header in either format in one step,
//! and the leaves of the documents and texts trees byte by byte. Whoever has an archive implements [`OwnStrings`]: the
//! strings of its trees, and whether what a proof shows of a tree is its own. The laws say what the definitions mean.
//! How leaves are lent may change freely; the bytes may not.
//!
//! ```
//! use ats_hash::{Sha, Steps};
//! use ats_tree::root;
//!
//! // collection: the texts "red fox", "red red hen" and "blue hen"
//! let texts = TextLeaves::new(&collection, 0, collection.documents());
//! let texts_root = root::<Sha, _>(&texts, &mut Steps::new(alloc)); // 3b4702de..
//! // header: an `ats_dict::Header` with this root and those of the other trees
//! let published = root_of_header::<Sha>(&header, &mut Steps::new(alloc)); // 29797811..
//! ```
#![tactic(auto)]

pub use commitment::{root_of_header, root_of_header_in, string_of_header};
pub use documents::DocLeaves;
pub use laws::{
    dictionary_has_all_terms, documents_have_all_texts, headers_are_in_range,
    list_prefixes_are_bound, own_headers_are_read, own_leaves_tell_documents,
    own_leaves_tell_lists, own_strings_stand_in_trees, own_trees_have_own_strings,
    roots_bind_headers,
};
pub use own_strings::OwnStrings;
pub use texts::TextLeaves;

mod commitment;
mod documents;
mod laws;
mod own_strings;
mod texts;
