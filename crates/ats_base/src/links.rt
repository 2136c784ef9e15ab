//! The network as traits: links, and those who make and accept them.

ghost use Rattle.std.specs.Prelude.{◌≡◌, ◌<◌, ◌≤◌, ◌+◌, ◌∷◌, List, [], ℕ, length, take, true, Some, is_some, is_err, option_map, IfOk, OnOk, OnErr};
ghost use Rattle.ats_base.specs.Outside.{HasCause, MovesSome, IsCounted, moved};
ghost use Rattle.ats_base.specs.Links.{LinkTold, CallerTold, DoorTold, Exchanged, IsAtEnd, IsNew, IsCalledAt, counted_broken, HasCalledOut, calling_out, called_back, MayNoteCall, HasAcceptedOut, noting_listen, MayNoteListen, counting_accept, accepting_out, accepted_back};

use crate::outside::Failed;

/// Bytes in both directions, as over a socket.
pub trait Link {
    /// What the link reports of itself. Its counts never fall.
    ghost told: { Self → LinkTold };

    /// Puts the next bytes at the front of `buf`, and returns how many. 0 for a `buf` with room means that the input
    /// has ended.
    fn read_some(&mut self, buf: &mut [u8]) -> Result<usize, Failed>
        ensures within { IfOk result (λ n. n ≤ length buf.new) }
        ensures bytes { Exchanged (told self.old).traffic (told self.new).traffic (take (moved result) buf.new) [] }
        ensures end { IfOk result (λ n. n ≡ 0 → 0 < length buf.new → IsAtEnd (told self.new).traffic) }
        ensures counted { IsCounted (told self.old).calls (told self.new).calls }
        ensures cause { HasCause (told self.old).faults (told self.new).faults result }
        ensures last { (told self.new).last_failed ≡ is_err result };

    /// Takes some of the bytes from their front, and returns how many.
    fn write_some(&mut self, bytes: &[u8]) -> Result<usize, Failed>
        ensures some { MovesSome result bytes.now }
        ensures bytes { Exchanged (told self.old).traffic (told self.new).traffic [] (take (moved result) bytes.now) }
        ensures counted { IsCounted (told self.old).calls (told self.new).calls }
        ensures cause { HasCause (told self.old).faults (told self.new).faults result }
        ensures last { (told self.new).last_failed ≡ is_err result };
}

/// Makes links to addresses.
pub trait Caller {
    type Link: Link;

    /// What the caller reports of itself. Its count never falls.
    ghost told: { Self → CallerTold };

    /// Calls the address. No order of its reasons is stated, so a caller may note the address before it hands out a link.
    fn call(&mut self, address: &str) -> Result<Self::Link, Failed>
        ensures ok { OnOk result ((told self.new).content
            ≡ option_map (calling_out address.now) (told self.old).content) }
        ensures err { OnErr result (MayNoteCall address.now (told self.old).content (told self.new).content) }
        ensures new { IfOk result (λ link. IsNew (is_some (told self.old).content) (Self.Link.told link)) }
        ensures address { IfOk result (λ link. IsCalledAt address.now (Self.Link.told link).traffic) }
        ensures cause { HasCause (told self.old).faults (told self.new).faults result }
        ensures last { (told self.new).last_failed ≡ is_err result };

    /// Takes a link of this caller back after its conversation.
    fn give_back(&mut self, link: Self::Link)
        requires { HasCalledOut (told self.old).content }
        ensures content { (told self.new).content
            ≡ option_map (called_back (Self.Link.told link)) (told self.old).content }
        ensures faults { (told self.new).faults ≡ counted_broken (Self.Link.told link).faults (told self.old).faults }
        ensures last { (told self.new).last_failed ≡ (told self.old).last_failed };
}

/// Waits at an address for links that others make.
pub trait Door {
    type Link: Link;

    /// What the door reports of itself. Its counts never fall.
    ghost told: { Self → DoorTold };

    /// Opens the door at the address. It stays open.
    fn listen(&mut self, address: &str) -> Result<(), Failed>
        ensures ok { OnOk result ((told self.new).content
            ≡ option_map (noting_listen address.now) (told self.old).content) }
        ensures err { OnErr result (MayNoteListen address.now (told self.old).content (told self.new).content) }
        ensures opens { OnOk result ((told self.new).is_open ≡ true) }
        ensures stays { OnErr result ((told self.new).is_open ≡ (told self.old).is_open) }
        ensures broken { (told self.new).broken ≡ (told self.old).broken }
        ensures cause { HasCause (told self.old).faults (told self.new).faults result }
        ensures last { (told self.new).last_failed ≡ is_err result };

    /// The next link.
    fn accept(&mut self) -> Result<Self::Link, Failed>
        requires { (told self.old).is_open ≡ true }
        ensures ok { OnOk result ((told self.new).content ≡ option_map accepting_out (told self.old).content) }
        ensures err { OnErr result ((told self.new).content ≡ option_map counting_accept (told self.old).content) }
        ensures new { IfOk result (λ link. IsNew (is_some (told self.old).content) (Self.Link.told link)) }
        ensures stays { (told self.new).is_open ≡ (told self.old).is_open }
        ensures broken { (told self.new).broken ≡ (told self.old).broken }
        ensures cause { HasCause (told self.old).faults (told self.new).faults result }
        ensures last { (told self.new).last_failed ≡ is_err result };

    /// Takes a link of this door back after its conversation.
    fn give_back(&mut self, link: Self::Link)
        requires { HasAcceptedOut (told self.old).content }
        ensures content { (told self.new).content
            ≡ option_map (accepted_back (Self.Link.told link)) (told self.old).content }
        ensures stays { (told self.new).is_open ≡ (told self.old).is_open }
        ensures faults { (told self.new).faults ≡ (told self.old).faults }
        ensures broken { (told self.new).broken ≡ counted_broken (Self.Link.told link).faults (told self.old).broken }
        ensures last { (told self.new).last_failed ≡ (told self.old).last_failed };
}
