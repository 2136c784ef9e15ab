//! One connection, from its first frame to its end.

ghost use Rattle.std.specs.Prelude.{◌≡◌, ◌≤◌, ◌<◌, ◌^◌, ◌↔◌, ◌∷◌, [], ℕ, false, List, length, take, OnOk, OnErr, IfOk, IfErr, MatchResult};
ghost use Rattle.ats_wire.specs.Requests.{Question, framed};
ghost use Rattle.ats_wire.specs.Replies.{Answers, IsShort, reply_bytes};
ghost use Rattle.ats_wire.specs.Moving.{Moves};
ghost use Rattle.ats_wire.specs.Connections.{IsFrameLength, is_fault, EndsReading, IsServed};
ghost use Rattle.ats_wire.specs.Inner.Connections.{IsReplied, IsCutReply};
ghost use Rattle.ats_wire.specs.declared.reply.Reply.{Reply};

use crate::frame_buffer::{FrameBuffer, MAX_FRAME};
use crate::receiving::{Filling, fill};
use crate::reply::{Answerer, Reply};
use crate::request::Request;
use crate::sending::send_reply;
use ats_base::{Failed, Link};
use byteorder::{BigEndian, ByteOrder};
use std::alloc::Global;

const MAX_REQUESTS: u32 = 65536;

// The fewest bytes of a request's frame after its length.
const MIN_FRAME: u32 = 6;

/// How a connection ended.
#[derive(Clone, Copy, Debug, PartialEq, Eq)]
pub enum ConnectionEnd {
    /// The input ended between two frames.
    Ended,
    /// The input ended inside a frame, of which `left` bytes were read, those of its length included.
    CutFrame { left: u32 },
    /// A frame's length is not in 6 to 4,096. Nothing after the length is read.
    BadFrame { length: u32 },
    /// 65,536 requests were answered. Nothing after them is read.
    RequestLimit,
    ReadFault,
    WriteFault,
}

/// How many replies were written whole, and how the connection ended.
#[derive(Clone, Copy, Debug, PartialEq, Eq)]
pub struct Served {
    pub requests: u32,
    pub end: ConnectionEnd,
}

// Reads a frame's body to the front of the buffer, and returns its length.
fn read_frame<L: Link>(link: &mut L, buffer: &mut [u8]) -> Result<usize, ConnectionEnd>
    requires { length buffer.old ≡ 4096 }
    ensures frame { IfOk result (λ n. IsFrameLength n
        × Moves (L.told link.old) (L.told link.new) (framed (take n buffer.new)) [] 0 false) }
    ensures end { IfErr result (λ end. (tail : List ℕ)
        × Moves (L.told link.old) (L.told link.new) tail [] 1 (is_fault end)
        × EndsReading (L.told link.new) tail end) }
{
    let mut head = [0; 4];
    match fill(link, &mut head) {
        Filling::Whole => {}
        Filling::Ended(0) => return Err(ConnectionEnd::Ended),
        Filling::Ended(came) => return Err(ConnectionEnd::CutFrame { left: came as u32 }),
        Filling::Broken => return Err(ConnectionEnd::ReadFault),
    }
    let length = BigEndian::read_u32(&head);
    if length < MIN_FRAME || length as usize > MAX_FRAME {
        return Err(ConnectionEnd::BadFrame { length });
    }
    match fill(link, &mut buffer[..length as usize]) {
        Filling::Whole => Ok(length as usize),
        Filling::Ended(came) => Err(ConnectionEnd::CutFrame {
            left: came as u32 + 4,
        }),
        Filling::Broken => Err(ConnectionEnd::ReadFault),
    }
}

// The reply to a frame with this body.
fn reply_to<A: Answerer>(alloc: Global, answerer: &mut A, body: &[u8]) -> Reply
    requires { IsFrameLength (length body.now) }
    ensures answers { Answers (A.gives answerer.old) body.now result }
    ensures short { IsShort result }
    ensures still { (question : Question) (reply : Reply)
        → (A.gives answerer.new question reply ↔ A.gives answerer.old question reply) }
{
    match Request::read(body) {
        Ok(request) => answerer.answer(alloc, &request),
        Err(code) => Reply::Code(code),
    }
}

// Answers the frame whose body is at the front of the buffer.
fn answer_frame<L: Link, A: Answerer>(
    alloc: Global,
    link: &mut L,
    answerer: &mut A,
    buffer: &mut [u8],
    size: usize,
) -> Result<(), Failed>
    requires whole { length buffer.old ≡ 4096 }
    requires frame { IsFrameLength size }
    ensures all { OnOk result
        (IsReplied (A.gives answerer.old) (L.told link.old) (L.told link.new) (take size buffer.old)) }
    ensures part { OnErr result
        (IsCutReply (A.gives answerer.old) (L.told link.old) (L.told link.new) (take size buffer.old)) }
    ensures still { (question : Question) (reply : Reply)
        → (A.gives answerer.new question reply ↔ A.gives answerer.old question reply) }
{
    let reply = reply_to(alloc, answerer, &buffer[..size]);
    send_reply(link, buffer, &reply)
}

/// Reads frames and answers each, until the connection ends. Each turn reads or writes at least one byte, or is the
/// last.
pub fn serve_connection<L: Link, A: Answerer>(
    alloc: Global,
    link: &mut L,
    answerer: &mut A,
    buffer: &mut FrameBuffer,
) -> Served
    ensures served { IsServed (A.gives answerer.old) (L.told link.old) (L.told link.new) result }
    ensures still { (question : Question) (reply : Reply)
        → (A.gives answerer.new question reply ↔ A.gives answerer.old question reply) }
{
    let mut requests: u32 = 0;
    'turns: while requests < MAX_REQUESTS {
        let size = match read_frame(link, &mut buffer.bytes[..]) {
            Ok(size) => size,
            Err(end) => return Served { requests, end },
        };
        if answer_frame(alloc, link, answerer, &mut buffer.bytes[..], size).is_err() {
            return Served {
                requests,
                end: ConnectionEnd::WriteFault,
            };
        }
        requests += 1;
    }
    Served {
        requests,
        end: ConnectionEnd::RequestLimit,
    }
}
