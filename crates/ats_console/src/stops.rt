//! Why a command ends with another status than 0, and what it prints in this case.

ghost use Rattle.std.specs.Prelude.{◌≡◌};
ghost use Rattle.ats_console.specs.Stops.{input_line, peer_line, line_of_rows, line_of_limit, line_of_bad_line, line_of_long_proof, line_of_long_proofs, line_of_faults, stop_of_query, stop_of_json, stop_of_collection, stop_of_load};
ghost use Rattle.ats_console.specs.RejectionLines.{line_of_rejection};
ghost use Rattle.ats_console.specs.declared.stops.Stop.TheVariants.{Memory, Input, Rejected, Peer};

use crate::input::JsonFault;
use crate::rejection::rejection_line;
use crate::stop_lines::Line;
use ats_impact::CollectionFault;
use ats_index::LoadFault;
use ats_refusal::{Phrase, Rejection};
use ats_terms::QueryFault;
use std::alloc::{AllocError, AllocFailed};

/// Why a command ended before it was done. The variant gives the status; the lines are those that are printed. A sweep
/// that finds a proof that is not right still prints all its lines.
#[derive(Drop)]
pub enum Stop {
    Usage,
    Shelf,
    Input(Line),
    Rejected(Line),
    Memory,
    Link,
    Peer(Line),
    Faults(u32),
    Collision(Line),
}

/// The stop of an input that breaks a limit or a form.
pub fn input_stop(phrase: Phrase) -> Stop
    ensures { result ≡ Input (input_line phrase) }
{
    Stop::Input(Line::said("input: ", phrase, "\n"))
}

/// The stop of a reply that is no proof.
pub fn peer(phrase: Phrase) -> Stop
    ensures { result ≡ Peer (peer_line phrase) }
{
    Stop::Peer(Line::said("peer: ", phrase, "\n"))
}

/// The stop of a file that has more bytes than its limit.
pub fn file_too_long(limit: u64) -> Stop
    ensures { result ≡ Input (line_of_limit limit) }
{
    input_stop(Phrase::number("longer than ", limit))
}

/// The stop of a list whose line with this number is out of form.
pub fn bad_line(line: usize) -> Stop
    ensures { result ≡ Input (line_of_bad_line line) }
{
    input_stop(Phrase::number("list line ", line as u64))
}

/// The stop of a proof that would have more bytes than a proof may have.
pub fn proof_too_long(length: u64) -> Stop
    ensures { result ≡ Input (line_of_long_proof length) }
{
    input_stop(Phrase::around("proof of ", length, " bytes"))
}

/// The stop of proofs that have so many bytes together, which are more than a sweep may gather.
pub fn proofs_too_long(bytes: u64) -> Stop
    ensures { result ≡ Input (line_of_long_proofs bytes) }
{
    input_stop(Phrase::around("proofs of ", bytes, " bytes"))
}

/// The line of how many connections ended by a fault.
pub fn faults_line(count: u32) -> Line
    ensures { result ≡ line_of_faults count }
{
    Line::said("faults ", Phrase::number("", count as u64), "\n")
}

/// The stop of a proof that is rejected.
pub fn rejected(rejection: Rejection) -> Stop
    ensures { result ≡ Rejected (line_of_rejection rejection) }
{
    Stop::Rejected(rejection_line(rejection))
}

impl From<AllocError> for Stop {
    ghost from_gives = { λ _ stop. stop ≡ Memory };

    fn from(_: AllocError) -> Self {
        Stop::Memory
    }
}

impl<T: Drop> From<AllocFailed<T>> for Stop {
    ghost from_gives = { λ _ stop. stop ≡ Memory };

    fn from(_: AllocFailed<T>) -> Self {
        Stop::Memory
    }
}

impl From<ats_impact::OutOfMemory> for Stop {
    ghost from_gives = { λ _ stop. stop ≡ Memory };

    fn from(_: ats_impact::OutOfMemory) -> Self {
        Stop::Memory
    }
}

impl From<ats_index::OutOfMemory> for Stop {
    ghost from_gives = { λ _ stop. stop ≡ Memory };

    fn from(_: ats_index::OutOfMemory) -> Self {
        Stop::Memory
    }
}

impl From<ats_impact::ROut> for Stop {
    ghost from_gives = { λ out stop. stop ≡ Input (line_of_rows out.r) };

    fn from(out: ats_impact::ROut) -> Self {
        input_stop(Phrase::number("r ", out.r as u64))
    }
}

impl From<QueryFault> for Stop {
    ghost from_gives = { λ fault stop. stop ≡ stop_of_query fault };

    fn from(fault: QueryFault) -> Self {
        match fault {
            QueryFault::TooLong { bytes } => {
                input_stop(Phrase::around("query of ", bytes as u64, " bytes"))
            }
            QueryFault::NoTerm => input_stop(Phrase::plain("query has no term")),
            QueryFault::TooManyWords { count } => {
                input_stop(Phrase::around("query of ", count as u64, " words"))
            }
            QueryFault::TooManyTerms { distinct } => {
                input_stop(Phrase::around("query of ", distinct as u64, " terms"))
            }
            QueryFault::OutOfMemory => Stop::Memory,
        }
    }
}

impl From<JsonFault> for Stop {
    ghost from_gives = { λ fault stop. stop ≡ stop_of_json fault };

    fn from(fault: JsonFault) -> Self {
        match fault {
            JsonFault::NotJson => input_stop(Phrase::plain("not json")),
            JsonFault::NotArray => input_stop(Phrase::plain("not an array")),
            JsonFault::BadItem { doc } => input_stop(Phrase::number("item ", doc as u64)),
            JsonFault::OutOfMemory => Stop::Memory,
        }
    }
}

impl From<CollectionFault> for Stop {
    ghost from_gives = { λ fault stop. stop ≡ stop_of_collection fault };

    fn from(fault: CollectionFault) -> Self {
        match fault {
            CollectionFault::NoDocuments => input_stop(Phrase::plain("no documents")),
            CollectionFault::TooMany { n } => input_stop(Phrase::around(
                "",
                n as u64,
                " documents",
            )),
            CollectionFault::TextTooLong { doc } => {
                input_stop(Phrase::around("text ", doc as u64, " too long"))
            }
            CollectionFault::AllTooLong { bytes } => {
                input_stop(Phrase::around("texts of ", bytes as u64, " bytes"))
            }
            CollectionFault::OutOfMemory => Stop::Memory,
        }
    }
}

impl From<LoadFault> for Stop {
    ghost from_gives = { λ fault stop. stop ≡ stop_of_load fault };

    fn from(fault: LoadFault) -> Self {
        match fault {
            LoadFault::BadIndex { at } => input_stop(Phrase::number("index at ", at)),
            LoadFault::OutOfMemory => Stop::Memory,
        }
    }
}
