//! The threshold walk with no random access: brackets from the shown entries of the lists only.
//!
//! The room stands on the running walk of `ats_bound` and the number of rows of `ats_impact`. It takes turn after turn
//! until the chosen answer is settled. [`walk`] returns the first cut of the schedule at which any answer is settled,
//! with the brackets of the documents met there, the chosen answer among them, and the threshold. [`walk_within`]
//! returns the same of the first cut that shows what a shard of a catalog is asked for, a [`ats_bound::Span`] for each
//! of its rows, if there is one. How the walk is driven may change freely; the cut and the answer may not.
//!
//! ```
//! use ats_bound::Lane;
//! use ats_impact::Top;
//!
//! // fox, red: these terms' lists over "red fox", "red red hen" and "blue hen"
//! let lanes = [
//!     Lane { coefficient: 12, entries: fox },
//!     Lane { coefficient: 6, entries: red },
//! ];
//! let end = walk(alloc, &lanes, Top::new(1)?)?; // at the cut [1, 1], with the threshold 7638
//! let bounds = end.brackets.as_slice(); // 12756 to 20394 of document 0, 7638 of document 1
//! ```
#![tactic(auto)]

mod memory;
mod walking;

pub use memory::OutOfMemory;
pub use walking::{walk, walk_within};
