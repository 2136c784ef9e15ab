//! `serve`: accepts links at a door, and serves them one after another.

ghost use Rattle.std.specs.Prelude.{◌≡◌, ◌≢◌, ◌⊎◌, ◌≤◌, ◌∷◌, ℕ, Some, List, [], true, string_bytes, IfOk, IfErr, OnOk, OnErr};
ghost use Rattle.ats_base.specs.Links.{CallerTold};
ghost use Rattle.ats_wire.specs.Connections.{is_fault};
ghost use Rattle.ats_top.specs.Answering.{gives};
ghost use Rattle.ats_top.specs.Serving.{Session, HadSessions, FailedToAccept, Took, end_word, line_of_session};
ghost use Rattle.ats_top.specs.Inner.Serving.{IsTextUnprinted, ServesLinks, ServesLinksOf};
ghost use Rattle.ats_top.specs.Served.{Opens};
ghost use Rattle.ats_plan.specs.Files.{Files};
ghost use Rattle.ats_console.specs.Read.{HasIndex};
ghost use Rattle.ats_console.specs.Words.{Serve, command_of};
ghost use Rattle.ats_top.specs.Run.{Ended};
ghost use Rattle.ats_top.specs.Inner.Outcome.{PrintsOutcome};

use crate::answering::IndexAnswerer;
use crate::commands::print_stop;
use ats_base::{Door, Failed, Shelf, Sink, write_all};
use ats_console::{Stop, read};
use ats_hash::Hash32;
use ats_index::Index;
use ats_wire::{ConnectionEnd, FrameBuffer, Served, serve_connection};
use std::alloc::{AllocError, Global};
use std::thread::Threads;

/// Why not all links were served: the door gave no further one, the sink did not take their lines, or memory ran out.
#[derive(Clone, Copy)]
pub(crate) enum Halt {
    Door,
    Sink,
    Memory,
}

fn is_fault(end: ConnectionEnd) -> bool
    ensures { result ≡ is_fault end }
{
    matches!(end, ConnectionEnd::ReadFault | ConnectionEnd::WriteFault)
}

fn end_word(end: ConnectionEnd) -> &'static str
    ensures { result.now ≡ end_word end }
{
    match end {
        ConnectionEnd::Ended => "end",
        ConnectionEnd::CutFrame { .. } => "cut",
        ConnectionEnd::BadFrame { .. } => "bad",
        ConnectionEnd::RequestLimit => "limit",
        ConnectionEnd::ReadFault | ConnectionEnd::WriteFault => "fault",
    }
}

fn session_line(alloc: Global, number: u32, served: Served) -> Result<String, AllocError>
    ensures { IfOk result (λ line. string_bytes line ≡ line_of_session number served) }
{
    let requests = served.requests;
    let end = end_word(served.end);
    format!(in alloc; "connection {number} requests {requests} {end}\n")
}

// Accepts the next link, serves it, and gives it back.
fn serve_link<H: Hash32, D: Door>(
    alloc: Global,
    index: &Index<H>,
    buffer: &mut FrameBuffer,
    door: &mut D,
) -> Result<Served, Failed>
    requires { (D.told door.old).is_open ≡ true }
    ensures had { IfOk result (λ served. (session : Session) × (session.served ≡ served)
        × HadSessions (gives H.hash index.now) (session ∷ []) (D.told door.old) (D.told door.new)) }
    ensures failed { OnErr result (FailedToAccept (D.told door.old) (D.told door.new)) }
    ensures stays { (D.told door.new).is_open ≡ true }
{
    let mut link = door.accept()?;
    let mut answerer = IndexAnswerer { index };
    let served = serve_connection(alloc, &mut link, &mut answerer, buffer);
    door.give_back(link);
    Ok(served)
}

// Passes the line of a served connection to the sink.
fn announce<K: Sink>(alloc: Global, number: u32, served: Served, out: &mut K) -> Result<(), Halt>
    ensures told { OnOk result (Took (K.told out.old) (K.told out.new) (line_of_session number served)) }
    ensures halt { IfErr result (IsTextUnprinted (K.told out.old) (K.told out.new) (line_of_session number served)) }
{
    let Ok(line) = session_line(alloc, number, served) else {
        return Err(Halt::Memory);
    };
    match write_all(out, line.as_bytes()) {
        Ok(()) => Ok(()),
        Err(_) => Err(Halt::Sink),
    }
}

/// Serves `connections` links from the open door, one after another, and passes a line for each to the sink. Returns
/// how many ended by a fault. Memory for a link's line is taken after the link is given back, so on every status as many
/// links are out as before.
pub(crate) fn serve_links<H: Hash32, K: Sink, D: Door>(
    alloc: Global,
    index: &Index<H>,
    connections: u32,
    buffer: &mut FrameBuffer,
    out: &mut K,
    door: &mut D,
) -> Result<u32, Halt>
    requires { (D.told door.old).is_open ≡ true }
    ensures { ServesLinks (gives H.hash index.now) connections
        (record { door = D.told door.old; sink = K.told out.old })
        (record { door = D.told door.new; sink = K.told out.new }) result }
{
    let mut faults: u32 = 0;
    for before in 0..connections {
        let Ok(served) = serve_link(alloc, index, buffer, door) else {
            return Err(Halt::Door);
        };
        if is_fault(served.end) {
            faults += 1;
        }
        match announce(alloc, before + 1, served, out) {
            Ok(()) => {}
            Err(halt) => return Err(halt),
        }
    }
    Ok(faults)
}

const LISTENING: &str = "listening\n";

/// Listens at the address, prints that, and serves `connections` links. Returns how many ended by a fault.
pub(crate) fn attend<H: Hash32, K: Sink, D: Door>(
    alloc: Global,
    index: &Index<H>,
    connections: u32,
    address: &str,
    buffer: &mut FrameBuffer,
    out: &mut K,
    door: &mut D,
) -> Result<u32, Halt>
    ensures { (files : Files) (name : List ℕ) → HasIndex H.hash files name index.now
        → ServesLinksOf H.hash files (record { index = name; connections = connections; address = address.now })
        (record { door = D.told door.old; sink = K.told out.old })
        (record { door = D.told door.new; sink = K.told out.new }) result }
{
    if door.listen(address).is_err() {
        return Err(Halt::Door);
    }
    if write_all(out, LISTENING.as_bytes()).is_err() {
        return Err(Halt::Sink);
    }
    serve_links(alloc, index, connections, buffer, out, door)
}

// Prints the line of a stop, if there is one, and returns the status.
fn print_outcome<K: Sink>(alloc: Global, out: &mut K, outcome: Result<u32, Halt>) -> u8
    ensures prints { PrintsOutcome (K.told out.old) (K.told out.new) outcome result }
    ensures later { (K.told out.old).faults ≤ (K.told out.new).faults }
{
    match outcome {
        Ok(faults) => {
            if faults == 0 {
                return 0;
            }
            print_stop(alloc, out, Stop::Faults(faults))
        }
        Err(Halt::Door) => print_stop(alloc, out, Stop::Link),
        Err(Halt::Memory) => print_stop(alloc, out, Stop::Memory),
        Err(Halt::Sink) => 7,
    }
}

/// Loads the index, listens, and serves the links that arrive. It prints line by line, and returns the status.
pub(crate) fn serve<H: Hash32 + Sync, R: Threads + Sync, S: Shelf, K: Sink, D: Door>(
    rt: &R,
    alloc: Global,
    index: &str,
    connections: u32,
    address: &str,
    shelf: &mut S,
    out: &mut K,
    door: &mut D,
) -> u8
    ensures ended { (said : List (List ℕ)) (caller : CallerTold)
        → command_of said
        ≡ Some (Serve (record { index = index.now; connections = connections; address = address.now }))
        → Ended H.hash said
        (record { shelf = S.told shelf.old; sink = K.told out.old; caller = caller; door = D.told door.old })
        (record { shelf = S.told shelf.new; sink = K.told out.new; caller = caller; door = D.told door.new }) result }
    ensures opened { (D.told door.new ≡ D.told door.old)
        ⊎ Opens (record { index = index.now; connections = connections; address = address.now })
        (D.told door.old) (D.told door.new) }
    ensures door_count { result ≢ 8 → result ≢ 7 → (D.told door.new).faults ≡ (D.told door.old).faults }
    ensures sink_later { (K.told out.old).faults ≤ (K.told out.new).faults }
{
    let loaded = match read::index::<H, R, S>(rt, alloc, index, shelf) {
        Ok(loaded) => loaded,
        Err(stop) => return print_stop(alloc, out, stop),
    };
    let Ok(mut buffer) = FrameBuffer::new(alloc) else {
        drop(loaded);
        return print_stop(alloc, out, Stop::Memory);
    };
    let outcome = attend(alloc, &loaded, connections, address, &mut buffer, out, door);
    drop(loaded);
    print_outcome(alloc, out, outcome)
}
