//! What a server replies, and the trait of whoever answers.

ghost use Rattle.std.specs.Prelude.{◌↔◌};
ghost use Rattle.ats_wire.specs.Requests.{Question};
ghost use Rattle.ats_wire.specs.Replies.{IsShort};
ghost use Rattle.ats_wire.specs.declared.reply.Reply.{Reply};

use crate::request::Request;
use ats_base::Bytes;
use std::alloc::Global;

/// What a server replies: the bytes of a proof, or the code that says why there is none.
#[derive(Drop)]
pub enum Reply {
    Proof(Bytes),
    Code(u8),
}

/// Answers requests. It has one relation between questions and replies. The relation may depend on what the answerer
/// holds, so each call keeps it, in both directions.
pub trait Answerer {
    ghost gives: { Self → Question → Reply → Type 0 };

    /// Out of memory has a code of its own.
    fn answer(&mut self, alloc: Global, request: &Request<'_>) -> Reply
        ensures gives { gives self.old (record {
          algorithm = request.now.algorithm;
          top = request.now.top;
          query = request.now.query.now;
        }) result }
        ensures short { IsShort result }
        ensures still { (question : Question) (reply : Reply)
            → (gives self.new question reply ↔ gives self.old question reply) };
}
