//! A proof as bytes: written record by record, and seen part by part over its bytes.
//!
//! [`ProofView::read`] reads the bytes once by the grammar of `ats_grammar`, and returns the exact first fault if they
//! spell no proof. Then it goes from section to section, for their places and the number of items. It allocates
//! nothing. `specs/Value.antt` defines what a proof says and which fields spell it. [`ProofWriter`] appends the bytes
//! of records, and past its limit only counts them; which records make a proof is the caller's business.
//!
//! The version of a proof names the format of the archive's lists: 1 if each list is one tree, 2 if each is a chain of
//! blocks. The other fields are the same in both.
//!
//! The crate stands on that grammar, on the bytes of `ats_base`, and on the leaves and headers of the rooms below.
//! Bytes spell at most one proof; they are read exactly if they spell one, and a view says that proof. Every slice
//! that the views and cursors lend is the named part of the bytes. Each counted call of the views and cursors is one
//! step. A writer holds exactly its records' bytes. What a view or a writer keeps may change freely; what it says, and
//! the bytes, may not.
//!
//! ```
//! // bytes: a proof of the best document for "red hen" in "red fox", "red red hen", "blue hen"
//! let proof = ProofView::read(bytes)?;
//! let met = proof.met(); // 3 documents
//! let rows = proof.answers(); // 1
//! let mut writer = ProofWriter::new(alloc, 1 << 26);
//! writer.front(proof.algorithm(), &proof.header(), 2)?; // of a proof for two terms
//! let written = writer.finish(); // Ok, with 113 bytes
//! ```
#![tactic(auto)]

pub use ats_grammar::{Feeder, ShapeFault, ShapeKind};
pub use cursor::ListCursor;
pub use dict::DictView;
pub use digests::DigestRun;
pub use docs::{DocView, DocsView};
pub use docs_cursor::DocsCursor;
pub use laws::{
    bytes_say_one_proof, further_bytes_are_trailing, proofs_are_in_range, proofs_have_one_spelling,
    records_are_joined, spellings_say_proofs, what_is_written_is_read,
};
pub use lists::{ListView, ListsView};
pub use memory::OutOfMemory;
pub use record::{Algorithm, Slot, TermLeaf};
pub use shared_fields::{begin_file, put_archive, read_archive, read_digests};
pub use terms::TermsView;
pub use view::ProofView;
pub use writer::ProofWriter;

mod bytes;
mod cursor;
mod dict;
mod digests;
mod docs;
mod docs_cursor;
mod laws;
mod leaves;
mod lists;
mod memory;
mod met_documents;
mod packed;
mod places;
mod reading;
mod record;
mod shared_fields;
mod sizes;
mod terms;
mod view;
mod writer;
