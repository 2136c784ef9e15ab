//! The lines of cases: what they prepare, and what they want of a command that was run.
//!
//! A document has blocks of lines: the words of a command, then what it prints, its status, the files that it leaves,
//! and what it writes over links. The vectors for other clients are such a document too.
//!
//! The room stands on `ats_base` for files and links in memory, on `ats_terms` for the terms of a text, and on
//! `ats_tally` for the counts. It runs no command: a line that names one returns its words, and whoever plays the document
//! runs them over the stage. So the proofs of this room load nothing of the commands. It promises nothing of its own: what
//! counts as passed is the promise of `ats_tally`. The words in which a case is written may change with the documents.
#![tactic(auto)]

mod fault;
mod files;
mod player;
mod said;
mod stage;
mod texts;

pub use fault::Fault;
pub use player::Player;
pub use said::number;
pub use stage::Stage;
