//! Sends frames over a link.

ghost use Rattle.std.specs.Prelude.{◌≡◌, ◌≤◌, ◌+◌, ◌^◌, ◌∷◌, ◌++◌, [], ℕ, false, List, length, take, OnOk, OnErr};
ghost use Rattle.std.specs.Int.{to_be_bytes, w32};
ghost use Rattle.ats_wire.specs.Requests.{framed};
ghost use Rattle.ats_wire.specs.Replies.{IsShort, reply_bytes};
ghost use Rattle.ats_wire.specs.Moving.{Moves};
ghost use Rattle.ats_wire.specs.Inner.Moving.{IsCutOff};

use crate::frame_buffer::MAX_FRAME;
use crate::reply::Reply;
use ats_base::{Failed, Link, send_all};
use byteorder::{BigEndian, ByteOrder};

// The bytes of a reply before a proof: the length and the kind.
const HEAD: usize = 5;

/// Sends all bytes.
pub(crate) fn send<L: Link>(link: &mut L, bytes: &[u8]) -> Result<(), Failed>
    ensures all { OnOk result (Moves (L.told link.old) (L.told link.new) [] bytes.now 0 false) }
    ensures part { OnErr result (IsCutOff (L.told link.old) (L.told link.new) bytes.now) }
{
    send_all(link, bytes)
}

// Puts the head of a frame with this kind and these bytes at the front of the buffer, and after it as many of the bytes
// as fit. Returns how many these are.
fn pack(buffer: &mut [u8], kind: u8, bytes: &[u8]) -> usize
    requires whole { length buffer.old ≡ 4096 }
    requires short { length bytes.now ≤ 2 ^ 26 }
    ensures few { result + 5 ≤ 4096 }
    ensures within { result ≤ length bytes.now }
    ensures packed { take (result + 5) buffer.new
        ≡ to_be_bytes w32 (length bytes.now + 1) ++ kind ∷ take result bytes.now }
{
    let front = bytes.len().min(MAX_FRAME - HEAD);
    let mut head = [0; HEAD];
    BigEndian::write_u32(&mut head, bytes.len() as u32 + 1);
    head[4] = kind;
    buffer[..HEAD].copy_from_slice(&head);
    buffer[HEAD..HEAD + front].copy_from_slice(&bytes[..front]);
    front
}

// Sends a frame whose body is this kind and these bytes. The front of the bytes is sent with the head in one piece, so
// that a short reply is one packet, and a long proof is not copied.
fn send_frame<L: Link>(
    link: &mut L,
    buffer: &mut [u8],
    kind: u8,
    bytes: &[u8],
) -> Result<(), Failed>
    requires whole { length buffer.old ≡ 4096 }
    requires short { length bytes.now ≤ 2 ^ 26 }
    ensures all { OnOk result (Moves (L.told link.old) (L.told link.new) [] (framed (kind ∷ bytes.now)) 0 false) }
    ensures part { OnErr result (IsCutOff (L.told link.old) (L.told link.new) (framed (kind ∷ bytes.now))) }
{
    let front = pack(buffer, kind, bytes);
    send(link, &buffer[..front + HEAD])?;
    send(link, &bytes[front..])
}

/// Sends a reply.
pub(crate) fn send_reply<L: Link>(
    link: &mut L,
    buffer: &mut [u8],
    reply: &Reply,
) -> Result<(), Failed>
    requires whole { length buffer.old ≡ 4096 }
    requires short { IsShort reply.now }
    ensures all { OnOk result (Moves (L.told link.old) (L.told link.new) [] (reply_bytes reply.now) 0 false) }
    ensures part { OnErr result (IsCutOff (L.told link.old) (L.told link.new) (reply_bytes reply.now)) }
{
    match reply {
        Reply::Proof(bytes) => send_frame(link, buffer, 0, bytes.as_slice()),
        Reply::Code(code) => send_frame(link, buffer, 1, &[*code]),
    }
}
