//! The real outside: the program's words, files, standard output and TCP sockets, the last three by the traits of
//! `ats_base`.
//!
//! Each object makes its calls of std through a small trait, which may report what the calls did: the files and the calls
//! on them, what was printed, what was connected, listened at, accepted and closed, what went over a socket, and how long
//! it waits. Over such calls an object reports the same, and promises all that `ats_base` asks of one that reports; only
//! what a link reads after it is given back, at most 65,536 bytes, is not reported. The calls of the real runtime report
//! nothing: what a real file, terminal or socket holds is not proved. How long a file stays open, and that no call of the
//! objects loops, no clause says. Tests in `ats_tests_outside` show the objects over the real runtime, and over calls that
//! fail, write in parts or write nothing.
//!
//! The room stands on `ats_base` alone, and so do its proofs: they load nothing of the commands. The objects may change
//! freely while they satisfy the traits.
#![tactic(auto)]

mod calls;
mod counts;
mod files;
mod real;
mod sockets;

pub use calls::{Files, Net, Print, Stream, Words};
pub use counts::Counts;
pub use files::{FileShelf, StdSink};
pub use real::RealStream;
pub use sockets::{TcpCaller, TcpDoor, TcpLink};
