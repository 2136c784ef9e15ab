//! The laws of frames for a reader, as contracts of functions that do nothing.

ghost use Rattle.std.specs.Prelude.{◌≡◌, ℕ, List, IsSome, Result};
ghost use Rattle.ats_base.specs.Links.{LinkTold};
ghost use Rattle.ats_proof.specs.declared.record.Algorithm.{Algorithm};
ghost use Rattle.ats_wire.specs.Requests.{Question, Spells, Asks, IsRefused};
ghost use Rattle.ats_wire.specs.Asking.{IsAsked, IsHeard};
ghost use Rattle.ats_wire.specs.Connections.{IsServed, IsClean};
ghost use Rattle.ats_wire.specs.declared.asking.AskFault.{AskFault};
ghost use Rattle.ats_wire.specs.declared.serving.Served.{Served};

use crate::reply::Answerer;

/// A body spells at most one request. So it asks at most one question, and no code refuses a body that asks one.
pub fn requests_say_one_thing()
    ensures spells { (body : List ℕ) (one other : Algorithm) (rows more : ℕ) (query words : List ℕ)
        → Spells body one rows query → Spells body other more words → (one ≡ other) × (rows ≡ more) × (query ≡ words) }
    ensures asks { (body : List ℕ) (question : Question) (code : ℕ) → Asks body question → IsRefused body code → ⊥ }
{}

/// What arrives over a link that reports is cut into frames in only one way. If the same bytes arrive twice, the same
/// number of requests is answered and the connection ends the same way, unless there is a fault.
pub fn connections_end_in_one_way<A: Answerer>(_answerer: &A)
    ensures { (before now later : LinkTold) (one other : Served)
        → IsServed (A.gives _answerer.now) before now one → IsServed (A.gives _answerer.now) before later other
        → IsSome before.traffic → IsClean one.end → IsClean other.end
        → (one.requests ≡ other.requests) × (one.end ≡ other.end) }
{}

/// What arrives over a link that reports is one reply: it gives one answer to a question, unless there is a fault or
/// memory runs out.
pub fn replies_say_one_thing()
    ensures { (question other : Question) (before now later : LinkTold) (one two : Result (List ℕ) AskFault)
        → IsAsked question before now one → IsAsked other before later two
        → IsSome before.traffic → IsHeard one → IsHeard two → one ≡ two }
{}
