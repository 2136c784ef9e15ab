//! Asks one question over a link.

ghost use Rattle.std.specs.Prelude.{◌≡◌, ◌≤◌, ◌<◌, ◌+◌, ◌^◌, ◌++◌, ◌∷◌, [], ℕ, List, length, take, IfOk, IfErr, OnOk, IsTrue, ◌↔◌, false, Err};
ghost use Rattle.std.specs.Int.{to_be_bytes, w32};
ghost use Rattle.ats_wire.specs.Requests.{framed, request_body};
ghost use Rattle.ats_wire.specs.Moving.{Moves};
ghost use Rattle.ats_wire.specs.Asking.{IsAsked, Says, breaks_link, is_broken, ReplyFault, IsReplyLength, IsKind};
ghost use Rattle.ats_wire.specs.Inner.Asking.{RestFault};

use crate::receiving::{Filling, fill};
use crate::request::{VERSION, byte_of};
use crate::sending::send;
use ats_base::{Bytes, Link};
use ats_impact::Top;
use ats_proof::Algorithm;
use byteorder::{BigEndian, ByteOrder};
use std::alloc::Global;

// The most bytes of a reply after its length: its kind and the longest proof.
const MAX_REPLY: u32 = (1 << 26) + 1;

// The bytes of a reply before its proof or code: its length and its kind.
const HEAD: u64 = 5;

// How many bytes of a reply are read at a time.
pub(crate) const PIECE: usize = 1 << 13;

/// Why a question got no proof.
#[derive(Clone, Copy, Debug, PartialEq, Eq)]
pub enum AskFault {
    /// The input ended after `got` bytes of a reply of `wanted` bytes. Until its length is whole, `wanted` is 4.
    ShortReply { got: u64, wanted: u64 },
    /// The reply is longer than one with the longest proof.
    LongReply { length: u32 },
    /// The reply has no known kind, or not the length of its kind. If the length is 0, `kind` is 0.
    BadReply { length: u32, kind: u8 },
    /// The server refused, with a code that says why.
    PeerRefused { code: u8 },
    ReadFault,
    WriteFault,
    OutOfMemory,
}

// The frame of a request.
fn frame_of(
    alloc: Global,
    algorithm: Algorithm,
    top: Top,
    query: &str,
) -> Result<Bytes, ats_base::OutOfMemory>
    requires { length query.now ≤ 4000 }
    ensures { IfOk result (λ frame. frame ≡ framed (request_body algorithm top query.now)) }
{
    let mut head = [0; 10];
    BigEndian::write_u32(&mut head, query.len() as u32 + 6);
    head[4] = VERSION;
    head[5] = byte_of(algorithm);
    BigEndian::write_u16(&mut head[6..], top.get() as u16);
    BigEndian::write_u16(&mut head[8..], query.len() as u16);
    let mut frame = Bytes::of(alloc, &head)?;
    frame.extend(query.as_bytes())?;
    Ok(frame)
}

// Whether a reply of this length may be of this kind.
fn is_kind(length: u32, kind: u8) -> bool
    ensures { IsTrue result ↔ IsKind length kind }
{
    match kind {
        0 => true,
        1 => length == 2,
        _ => false,
    }
}

// The length and the kind of a reply.
pub(crate) fn read_head<L: Link>(link: &mut L) -> Result<(u32, u8), AskFault>
    ensures ok { IfOk result (λ head. IsReplyLength head.0 × IsKind head.0 head.1
        × Moves (L.told link.old) (L.told link.new) (to_be_bytes w32 head.0 ++ head.1 ∷ []) [] 0 false) }
    ensures err { IfErr result (λ fault. (read : List ℕ) × Moves (L.told link.old) (L.told link.new) read [] 1 (breaks_link fault)
        × ReplyFault (L.told link.new) read fault) }
{
    let mut head = [0; 4];
    match fill(link, &mut head) {
        Filling::Whole => {}
        Filling::Ended(came) => {
            return Err(AskFault::ShortReply {
                got: came as u64,
                wanted: 4,
            });
        }
        Filling::Broken => return Err(AskFault::ReadFault),
    }
    let length = BigEndian::read_u32(&head);
    if length > MAX_REPLY {
        return Err(AskFault::LongReply { length });
    }
    if length == 0 {
        return Err(AskFault::BadReply { length, kind: 0 });
    }
    let mut kind = [0; 1];
    match fill(link, &mut kind) {
        Filling::Whole => {}
        Filling::Ended(_) => {
            return Err(AskFault::ShortReply {
                got: 4,
                wanted: length as u64 + 4,
            });
        }
        Filling::Broken => return Err(AskFault::ReadFault),
    }
    let kind = kind[0];
    if !is_kind(length, kind) {
        return Err(AskFault::BadReply { length, kind });
    }
    Ok((length, kind))
}

// Reads a piece of the `size` bytes after a reply's head, of which `done` were read. Returns how many bytes it has.
pub(crate) fn read_piece<L: Link>(
    link: &mut L,
    piece: &mut [u8],
    done: usize,
    size: u32,
) -> Result<usize, AskFault>
    requires some { done < size }
    requires space { 1 ≤ length piece.old }
    ensures ok { IfOk result (λ n. (1 ≤ n) × (n ≤ length piece.new) × (done + n ≤ size)
        × Moves (L.told link.old) (L.told link.new) (take n piece.new) [] 0 false) }
    ensures err { IfErr result (λ fault. (came : List ℕ) × Moves (L.told link.old) (L.told link.new) came [] 1 (breaks_link fault)
        × ((front : List ℕ) → length front ≡ done
        → RestFault (L.told link.new) size (front ++ came) fault)) }
{
    let count = (size as usize - done).min(piece.len());
    match fill(link, &mut piece[..count]) {
        Filling::Whole => Ok(count),
        Filling::Ended(came) => Err(AskFault::ShortReply {
            got: (done + came) as u64 + HEAD,
            wanted: u64::from(size) + HEAD,
        }),
        Filling::Broken => Err(AskFault::ReadFault),
    }
}

// The `size` bytes after a reply's head.
pub(crate) fn read_rest<L: Link>(alloc: Global, link: &mut L, size: u32) -> Result<Bytes, AskFault>
    ensures ok { IfOk result (λ bytes. (length bytes ≡ size) × Moves (L.told link.old) (L.told link.new) bytes [] 0 false) }
    ensures err { IfErr result (λ fault. (came : List ℕ) × Moves (L.told link.old) (L.told link.new) came [] 1 (breaks_link fault)
        × RestFault (L.told link.new) size came fault) }
{
    let mut bytes = Bytes::new(alloc);
    let mut piece = [0; PIECE];
    'pieces: while bytes.len() < size as usize {
        let count = read_piece(link, &mut piece, bytes.len(), size)?;
        if bytes.extend(&piece[..count]).is_err() {
            return Err(AskFault::OutOfMemory);
        }
    }
    Ok(bytes)
}

// A reply, up to its last byte.
fn read_reply<L: Link>(alloc: Global, link: &mut L) -> Result<Bytes, AskFault>
    ensures { (read : List ℕ) × Moves (L.told link.old) (L.told link.new) read [] 1 (is_broken result)
        × Says (L.told link.new) read result }
{
    let (length, kind) = match read_head(link) {
        Ok(head) => head,
        Err(fault) => return Err(fault),
    };
    match read_rest(alloc, link, length - 1) {
        Ok(bytes) if kind == 0 => Ok(bytes),
        Ok(bytes) => Err(AskFault::PeerRefused { code: bytes.get(0) }),
        Err(fault) => Err(fault),
    }
}

// Writes the frame of a request.
pub(crate) fn send_request<L: Link>(
    alloc: Global,
    link: &mut L,
    algorithm: Algorithm,
    top: Top,
    query: &str,
) -> Result<(), AskFault>
    requires { length query.now ≤ 4000 }
    ensures ok { OnOk result (Moves (L.told link.old) (L.told link.new) []
        (framed (request_body algorithm top query.now)) 0 false) }
    ensures err { IfErr result (λ fault. IsAsked (record { algorithm = algorithm; top = top; query = query.now })
        (L.told link.old) (L.told link.new) (Err fault)) }
{
    let Ok(frame) = frame_of(alloc, algorithm, top, query) else {
        return Err(AskFault::OutOfMemory);
    };
    if send(link, frame.as_slice()).is_err() {
        return Err(AskFault::WriteFault);
    }
    Ok(())
}

/// Writes one request and reads one reply. The bytes are those of the reply's proof, which is not checked here.
pub fn ask_once<L: Link>(
    alloc: Global,
    link: &mut L,
    algorithm: Algorithm,
    top: Top,
    query: &str,
) -> Result<Bytes, AskFault>
    requires { length query.now ≤ 4000 }
    ensures { IsAsked (record { algorithm = algorithm; top = top; query = query.now })
        (L.told link.old) (L.told link.new) result }
{
    match send_request(alloc, link, algorithm, top, query) {
        Ok(()) => read_reply(alloc, link),
        Err(fault) => Err(fault),
    }
}
