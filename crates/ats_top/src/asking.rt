//! `ask`: one question over the network, and the check of its reply.

ghost use Rattle.std.specs.Prelude.{◌≡◌, ◌⊎◌, ◌≤◌, length, IfOk, IfErr};
ghost use Rattle.ats_console.specs.Steps.{AsksRanking};
ghost use Rattle.ats_top.specs.Inner.Conversation.{ConversesFed, ConversationStop, IsRanged, KeepsCallerCount};
ghost use Rattle.ats_top.specs.Conversation.{Calls, stop_of_asking};
ghost use Rattle.ats_top.specs.Asked.{IsReplyVerified};
ghost use Rattle.ats_top.specs.Inner.Stops.{AskStop};

use ats_base::Caller;
use ats_checkers::verify_to_lines;
use ats_console::{Stop, peer, rejected};
use ats_hash::Hash32;
use ats_impact::Top;
use ats_prover::Algorithm;
use ats_refusal::{Phrase, Rejection};
use ats_terms::Query;
use ats_wire::{AskFault, Fed, ask_fed};
use std::alloc::Global;

// Why a command stops if its question got no proof.
fn stop_of(fault: AskFault) -> Stop
    ensures stop { result ≡ stop_of_asking fault }
    ensures ranged { IsRanged fault }
{
    match fault {
        AskFault::ShortReply { got, wanted } => peer(Phrase::numbers("short ", got, " ", wanted)),
        AskFault::LongReply { length } => peer(Phrase::number("long ", length as u64)),
        AskFault::BadReply { length, kind } => {
            peer(Phrase::numbers("bad ", length as u64, " ", kind as u64))
        }
        AskFault::PeerRefused { code } => peer(Phrase::number("refused ", code as u64)),
        AskFault::ReadFault => Stop::Link,
        AskFault::WriteFault => Stop::Link,
        AskFault::OutOfMemory => Stop::Memory,
    }
}

// Connects to the address, asks the question over the link, and always gives the link back. Nothing is kept after the
// first fault of a proof.
fn converse<C: Caller>(
    alloc: Global,
    algorithm: Algorithm,
    top: Top,
    query: &str,
    address: &str,
    caller: &mut C,
) -> Result<Fed, Stop>
    requires { length query.now ≤ 4000 }
    ensures ok { IfOk result (ConversesFed address.now (record { algorithm = algorithm; top = top; query = query.now })
        (C.told caller.old) (C.told caller.new)) }
    ensures stop { IfErr result (ConversationStop address.now
        (record { algorithm = algorithm; top = top; query = query.now }) (C.told caller.old) (C.told caller.new)) }
    ensures calls { Calls address.now (record { algorithm = algorithm; top = top; query = query.now })
        (C.told caller.old) (C.told caller.new) }
    ensures count { KeepsCallerCount (C.told caller.old) (C.told caller.new) result }
{
    let Ok(mut link) = caller.call(address) else {
        return Err(Stop::Link);
    };
    let reply = ask_fed(alloc, &mut link, algorithm, top, query);
    caller.give_back(link);
    match reply {
        Ok(fed) => Ok(fed),
        Err(fault) => Err(stop_of(fault)),
    }
}

/// The lines of `ask`. The words are checked before the address is called.
pub(crate) fn ask<H: Hash32, C: Caller>(
    alloc: Global,
    root: &[u8; 32],
    algorithm: Algorithm,
    r: u32,
    query: &str,
    address: &str,
    caller: &mut C,
) -> Result<Vec<u8>, Stop>
    ensures ok { IfOk result (λ text. IsReplyVerified H.hash (C.told caller.old) (C.told caller.new)
        (record { root = root.now; algorithm = algorithm; r = r; query = query.now; address = address.now })
        text.items) }
    ensures stop { IfErr result (AskStop H.hash (C.told caller.old) (C.told caller.new)
        (record { root = root.now; algorithm = algorithm; r = r; query = query.now; address = address.now })) }
    ensures calls { (C.told caller.new ≡ C.told caller.old)
        ⊎ (AsksRanking r query.now × Calls address.now (record { algorithm = algorithm; top = r; query = query.now })
        (C.told caller.old) (C.told caller.new)) }
    ensures count { KeepsCallerCount (C.told caller.old) (C.told caller.new) result }
    ensures uncalled { (AsksRanking r query.now → ⊥) → caller.new ≡ caller.old }
{
    let rows = Top::new(r)?;
    let asked = Query::read(alloc, query)?;
    let fed = converse(alloc, algorithm, rows, query, address, caller)?;
    match fed {
        Fed::Whole(bytes) => verify_to_lines::<H>(alloc, bytes.as_slice(), root, &asked, rows),
        Fed::Refused(fault) => Err(rejected(Rejection::Shape(fault))),
    }
}
