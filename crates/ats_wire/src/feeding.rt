//! A question whose proof is checked while it arrives, so that nothing of a bad one is kept.

ghost use Rattle.std.specs.Prelude.{◌≡◌, ◌≤◌, ◌+◌, ◌^◌, ◌++◌, [], ℕ, List, length, false, IfOk, IfErr, OnOk};
ghost use Rattle.ats_wire.specs.Moving.{Moves};
ghost use Rattle.ats_wire.specs.Asking.{breaks_link, is_broken};
ghost use Rattle.ats_wire.specs.Inner.Asking.{RestFault};
ghost use Rattle.ats_wire.specs.Feeding.{IsFed, IsAskedFed};
ghost use Rattle.ats_wire.specs.Inner.Feeding.{SaysFed};

use crate::asking::{AskFault, PIECE, read_head, read_piece, read_rest, send_request};
use ats_base::{Bytes, Link};
use ats_grammar::{Feeder, ShapeFault};
use ats_impact::Top;
use ats_proof::Algorithm;
use std::alloc::Global;

/// The bytes that a reply has for a proof.
#[derive(Drop)]
pub enum Fed {
    /// They spell a proof.
    Whole(Bytes),
    /// They spell none, and this is their first fault. None of them is kept.
    Refused(ShapeFault),
}

// Reads the rest of a proof of which `read` bytes were read, and keeps nothing.
fn pass_rest<L: Link>(link: &mut L, size: u32, read: u32) -> Result<(), AskFault>
    requires { read ≤ size }
    ensures ok { OnOk result ((came : List ℕ) × (read + length came ≡ size)
        × Moves (L.told link.old) (L.told link.new) came [] 0 false) }
    ensures err { IfErr result (λ fault. (came : List ℕ) × Moves (L.told link.old) (L.told link.new) came [] 1 (breaks_link fault)
        × ((front : List ℕ) → length front ≡ read
        → RestFault (L.told link.new) size (front ++ came) fault)) }
{
    let mut done = read;
    let mut piece = [0; PIECE];
    'pieces: while done < size {
        done += read_piece(link, &mut piece, done as usize, size)? as u32;
    }
    Ok(())
}

// Reads a proof of `size` bytes piece by piece. After a fault nothing is kept.
fn read_proof<L: Link>(alloc: Global, link: &mut L, size: u32) -> Result<Fed, AskFault>
    requires { size ≤ 2 ^ 26 }
    ensures ok { IfOk result (λ fed. (bytes : List ℕ) × (length bytes ≡ size)
        × Moves (L.told link.old) (L.told link.new) bytes [] 0 false × IsFed fed bytes) }
    ensures err { IfErr result (λ fault. (came : List ℕ) × Moves (L.told link.old) (L.told link.new) came [] 1 (breaks_link fault)
        × RestFault (L.told link.new) size came fault) }
{
    let Ok(mut feeder) = Feeder::new(u64::from(size)) else {
        unreachable!();
    };
    let mut bytes = Bytes::new(alloc);
    let mut piece = [0; PIECE];
    'pieces: while bytes.len() < size as usize {
        let count = read_piece(link, &mut piece, bytes.len(), size)?;
        if let Err(fault) = feeder.feed(&piece[..count]) {
            let read = (bytes.len() + count) as u32;
            return match pass_rest(link, size, read) {
                Ok(()) => Ok(Fed::Refused(fault)),
                Err(fault) => Err(fault),
            };
        }
        if bytes.extend(&piece[..count]).is_err() {
            return Err(AskFault::OutOfMemory);
        }
    }
    match feeder.finish() {
        Ok(()) => Ok(Fed::Whole(bytes)),
        Err(fault) => Ok(Fed::Refused(fault)),
    }
}

// A reply, up to its last byte.
fn read_reply<L: Link>(alloc: Global, link: &mut L) -> Result<Fed, AskFault>
    ensures { (read : List ℕ) × Moves (L.told link.old) (L.told link.new) read [] 1 (is_broken result)
        × SaysFed (L.told link.new) read result }
{
    let (length, kind) = match read_head(link) {
        Ok(head) => head,
        Err(fault) => return Err(fault),
    };
    if kind == 0 {
        return read_proof(alloc, link, length - 1);
    }
    match read_rest(alloc, link, length - 1) {
        Ok(bytes) => Err(AskFault::PeerRefused { code: bytes.get(0) }),
        Err(fault) => Err(fault),
    }
}

/// Writes one request and reads one reply, as [`ask_once`](crate::ask_once) does, and checks the bytes of its proof
/// while they arrive. A reply is read to its end, whatever it says.
pub fn ask_fed<L: Link>(
    alloc: Global,
    link: &mut L,
    algorithm: Algorithm,
    top: Top,
    query: &str,
) -> Result<Fed, AskFault>
    requires { length query.now ≤ 4000 }
    ensures { IsAskedFed (record { algorithm = algorithm; top = top; query = query.now })
        (L.told link.old) (L.told link.new) result }
{
    match send_request(alloc, link, algorithm, top, query) {
        Ok(()) => read_reply(alloc, link),
        Err(fault) => Err(fault),
    }
}
