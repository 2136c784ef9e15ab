//! The check of a proof: whoever holds the root of an archive finds out whether an answer is right.
//!
//! [`verify`] goes from the bytes of a proof to the rows of its answer, or to the first thing that is wrong with them.
//! A proof shows parts of the dictionary and of the lists of a query's terms; a TRA proof also shows parts of the met
//! documents. [`check_shown`] rebuilds each part up to the root; [`row`] then returns each document of the answer with
//! its bounds, and [`rest`] the most that a document can score that is no row. [`check`] also decides whether that settles
//! the answer. These four are given no allocator, and leave the memory for the marks as large as it was. [`first_clash`]
//! is for whoever has the archive's own strings: it finds the first place where the archive's string differs from the
//! proof's and has an equal digest. [`shows_whole_list`] is for whoever wants all documents that have a term: it finds
//! out whether a list is shown whole.
//!
//! The room stands on the proof that `ats_proof` reads from bytes, on the trees of `ats_tree`, and on the cuts and
//! settled answers of `ats_bound`. A proof is accepted exactly if all rules of `specs/Accepts.antt` hold, else refused
//! by the first that fails. For each archive with the root, an accepted answer is a top answer, or there are two
//! different strings with equal digests (`specs/Headline.antt`). Before the settling that is said of the rows' bounds and
//! the rest (`specs/Bounded.antt`). In which passes leaves and entries are read, and what the marks note beside the
//! bounds, may change freely.
//!
//! ```
//! use ats_hash::Sha;
//! use ats_impact::Top;
//! use ats_terms::Query;
//!
//! // root: that of "red fox", "red red hen" and "blue hen"; bytes: a proof for the query
//! let query = Query::read(alloc, "red hen")?;
//! let rows = verify::<Sha>(alloc, bytes, &root, &query, Top::new(1)?)?;
//! let best = rows.as_slice(); // [Row { doc: 1, lower: 13014, upper: 13014 }]
//! ```
#![tactic(auto)]

mod all_lists;
mod answer;
mod checking;
mod clashing;
mod document;
mod documents;
mod fault;
mod kept_terms;
mod laws;
mod leaf;
mod marking;
mod memory;
mod met;
mod next_term;
mod one_list;
mod opening;
mod others;
mod own_tree;
mod present_term;
mod rebuilding;
mod rows;
mod section;
mod settled;
mod shown_section;
mod slots;
mod term;
mod verifying;
mod walk;
mod whole_list;

pub use answer::row;
pub use ats_refusal::{Refusal, Rejection};
pub use checking::{check, check_shown};
pub use clashing::{Clash, first_clash};
pub use fault::VerifyFault;
pub use laws::{
    accepted_answers_are_top, bytes_have_one_rejection, documents_have_one_fault,
    own_leaves_bound_rows, own_leaves_make_rows_right, proofs_have_one_refusal,
    rebuilt_sections_are_bound, rows_and_rests_settle, shown_leaves_are_bound,
    shown_proofs_have_one_refusal,
};
pub use memory::OutOfMemory;
pub use others::rest;
pub use verifying::{check_rows, verify};
pub use whole_list::shows_whole_list;
