//! The threshold walk with random access: how many entries of a query's lists must be shown if the score of each
//! document that they name is looked up.
//!
//! The room stands on the lanes, settled answers and the walk with known scores of `ats_bound` and the number of rows
//! of `ats_impact`. A caller passes the impacts as a [`RandomAccess`]. [`walk`] returns the first cut of the schedule
//! at which any answer is settled by exact scores, with the brackets of the documents met there, whose two bounds are
//! the document's score, the chosen answer among them, and the threshold. [`walk_within`] returns the same of the first
//! cut that shows what a shard of a catalog is asked for, if there is one. How scores are summed may change freely.
//!
//! ```
//! use ats_bound::Lane;
//! use ats_impact::Top;
//!
//! // fox, red: these terms' lists over "red fox", "red red hen" and "blue hen"
//! // impacts: those of all documents in both lists, by a type that is `RandomAccess`
//! let lanes = [
//!     Lane { coefficient: 12, entries: fox },
//!     Lane { coefficient: 6, entries: red },
//! ];
//! let end = walk(alloc, &lanes, Top::new(1)?, &impacts)?; // at the cut [1, 1]
//! let scores = end.brackets.as_slice(); // 19134 of document 0, 7638 of document 1
//! ```
#![tactic(auto)]

mod access;
mod looking;
mod memory;
mod walking;

pub use access::RandomAccess;
pub use memory::OutOfMemory;
pub use walking::{walk, walk_within};
