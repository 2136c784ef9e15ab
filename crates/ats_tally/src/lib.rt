//! The count of cases: compares what a command showed with what its case wants, and counts the cases that are as
//! wanted.
//!
//! It is separate from the player of the cases, so that the promises about the count can be tested on these few lines.
//!
//! The room stands on `ats_base` for bytes. A case counts as passed exactly if its status, its printed text, and its
//! files, links or numbers are as wanted. Every failing case leaves that number and adds to the report. If memory runs
//! out, nothing is counted. The words of the report may change freely.
//!
//! ```
//! let mut tally = Tally::new(alloc);
//! let mut shown = Shown::new(alloc, "rank X 1 red", 0, b"1 0 6378 6378\n")?; // its status, and what it printed
//! shown.want_bytes(b"1 0 6378 6378\n")?; // and the status 0, as no other is wanted
//! tally.count(alloc, &shown)?;
//! let passed = tally.passed(); // 1, and the report is empty
//! ```
#![tactic(auto)]

pub use shown::Shown;
pub use tally::Tally;

mod shown;
mod tally;
