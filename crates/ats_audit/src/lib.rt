//! The audit of an answer, by whoever holds the archive itself.
//!
//! A reader who holds only the root knows that either an accepted answer is right, or the proof and the archive
//! contain two different strings with equal digests. Whoever has the archive's index can find out which. [`audit`]
//! checks the bytes of a proof under the index's own root, and then searches for the first such pair of strings.
//! [`sweep`] does so for many proofs, with several threads.
//!
//! The room stands on `ats_client` for the check, on `ats_index` for the archive's own strings, and on `rayon` for the
//! threads. A verdict is exactly what its definition says (`specs/Verdicts.antt`). Rows are called right only if they
//! are, and for an accepted wrong answer the audit returns two different strings with the same digest. How the parts
//! are put together may change freely.
//!
//! ```
//! use ats_impact::Top;
//! use ats_terms::Query;
//!
//! // index: that of the archive; bytes: a proof that came with an answer
//! let query = Query::read(alloc, "red hen")?;
//! let verdict = audit(alloc, &index, &query, Top::new(1)?, bytes)?;
//! let is_right = matches!(verdict, Verdict::Right(_)); // true of every honest proof
//! // jobs: a slice of `Job`, one for each of many proofs
//! let verdicts = sweep(rt, alloc, &index, jobs)?;
//! ```
#![tactic(auto)]

mod auditing;
mod laws;
mod memory;
mod sweeping;

pub use auditing::{Verdict, audit};
pub use laws::accepted_answers_are_audited;
pub use memory::OutOfMemory;
pub use sweeping::{Job, Verdicts, sweep};
