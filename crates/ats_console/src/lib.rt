//! What is typed, read and printed: the words of a command, the files that commands read, the lines that they print, and
//! why a command stops.
//!
//! The room stands on `ats_plan` for the steps of a command, on `ats_base` for files, on `ats_terms` and `ats_impact` for
//! queries and collections, on `ats_index` for indexes, and on `ats_refusal` for the words of what is refused.
//! Words mean the command that `specs/Words.antt` says, or none. Each call of [`read`] is a step of a plan
//! (`specs/Steps.antt`): it comes to what the named file holds, or stops as the step does. Each fault has one stop
//! ([`Stop`]) with one line, in one table for each type of fault (`specs/Stops.antt`). The commands themselves, and what
//! they promise, are in the rooms above. How words and files are read may change freely; forms, lines and the order in which a
//! file is refused may not.
//!
//! ```
//! // words: "rank", "X", "1" and "red hen"
//! let command = read_words(&words); // that of a maker, MakerCommand::Rank { collection: "X", r: 1, query: "red hen" }
//! let texts = read::collection(alloc, "X", shelf)?; // the texts of the file, or the stop that refuses it
//! ```
#![tactic(auto)]

mod collision;
mod input;
mod kinds;
mod lists;
mod phrase_line;
mod print;
pub mod read;
mod rejection;
mod stop_lines;
mod stops;
mod words;

pub use collision::{collision_lines, pair_lines, shard_collision_lines, strings_lines};
pub use input::{JsonFault, read_collection};
pub use kinds::{
    CATALOG_FILE_LIMIT, GROWTH_FILE_LIMIT, TEXT_FILE_LIMIT, grown_line, print_text, refused,
};
pub use lists::{Name, count_lines, first_line, read_names};
pub use phrase_line::PhraseLine;
pub use print::{catalog_lines, document_lines, lines, root_line};
pub use rejection::rejection_line;
pub use stop_lines::Line;
pub use stops::{
    Stop, bad_line, faults_line, file_too_long, input_stop, peer, proof_too_long, proofs_too_long,
    rejected,
};
pub use words::{AuditorCommand, CheckerCommand, Command, MakerCommand, USAGE, number, read_words};
