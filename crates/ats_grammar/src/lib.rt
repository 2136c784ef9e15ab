//! The bytes of a proof, and of other files: which bytes spell one, and where and how all others first go wrong.
//!
//! A proof is bytes from a stranger. Its grammar, in `specs/Grammar.antt`, says field by field what may come next: the
//! size, the range, the kind of fault outside it, and what follows each number. Fronts, spellings and the first fault
//! follow from that alone, in `specs/Front.antt`. The reader keeps a few numbers that determine all that may still
//! come; it makes one pass and allocates nothing. [`Feeder`] is that reader over pieces, which may end inside a field;
//! [`scan`] feeds it bytes that are all there.
//!
//! The same definitions serve every other format but the index, which is compared with what its texts give, and not
//! parsed: a format here is a table of fields and a limit. [`Reader`] reads such bytes: its
//! caller asks for each field in turn, and the contracts say of any schema which fields were taken and what comes next.
//! So the `read` of a file is a few calls in a row, and its faults are the first ones.
//!
//! The crate stands on `byteorder` only. It promises that bytes are accepted exactly if they are the join of a whole
//! front, and that otherwise the fault is the one right after the longest front. How the reader keeps its place may
//! change freely; the grammar and the faults may not.
//!
//! ```
//! // bytes: a proof of 365 bytes; front, back: the pieces in which it came
//! scan(bytes)?;
//! let mut feeder = Feeder::new(365)?;
//! feeder.feed(front)?;
//! feeder.feed(back)?;
//! feeder.finish()?;
//! let fault = scan(b"ATSP\x01").err(); // Some(ShapeFault { at: 5, kind: ShapeKind::Cut })
//!
//! // another format: a magic number, a length and a title
//! let mut reader = Reader::new(bytes, 4_096)?;
//! reader.number(4, MAGIC.into(), MAGIC, ShapeKind::Magic)?;
//! let length = reader.number(1, 0, 200, ShapeKind::Count)?;
//! let title = reader.bytes(length)?;
//! reader.end()?;
//! ```
#![tactic(auto)]

pub use fault::{ShapeFault, ShapeKind};
pub use feeder::Feeder;
pub use feeding::MAX_PROOF;
pub use laws::{
    bytes_have_one_fault, faults_stay, further_bytes_are_trailing, spellings_tell_their_fields,
};
pub use reader::Reader;
pub use reading::are_bytes;
pub use scanning::scan;

mod after_field;
mod fault;
mod feeder;
mod feeding;
mod field_kinds;
mod laws;
mod next_field;
mod piece_position;
mod piece_step;
mod reader;
mod reader_state;
mod reading;
mod run_starts;
mod scanning;
