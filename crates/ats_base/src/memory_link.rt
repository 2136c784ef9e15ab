//! A link in memory. It reports what goes over it.

ghost use Rattle.std.specs.Prelude.{◌≡◌, ◌≤◌, ◌++◌, [], List, ℕ, length, take, drop, min, true, Some, None, IfOk, OnOk, OnErr, is_err, IsErr, IsTrue, false, ◌↔◌, ◌<◌};
ghost use Rattle.ats_base.specs.Memory.{Device, new_device, answered, fails_next, failing_at};
ghost use Rattle.ats_base.specs.MemoryLinks.{LinkState, told_link};
ghost use Rattle.ats_base.specs.Outside.{HasCause, MovesSome, IsCounted, moved};
ghost use Rattle.ats_base.specs.Links.{Exchanged, IsAtEnd};

use crate::bytes::{Bytes, OutOfMemory};
use crate::fault_plan::FaultPlan;
use crate::links::Link;
use crate::outside::Failed;
use std::alloc::Global;
use std::marker::Model;

/// A link whose input is known beforehand, and which keeps what is written. If memory runs out, that counts as a fault
/// of the link.
#[derive(Drop)]
pub struct MemLink {
    address: Option<Bytes>,
    incoming: Bytes,
    place: usize,
    written: Bytes,
    plan: FaultPlan,
}

impl Model for MemLink {
    ghost Value = { LinkState };

    ghost view = { λ l. record {
      address = l.address;
      read = take l.place l.incoming;
      rest = drop l.place l.incoming;
      written = l.written;
      device = l.plan;
    } };

    // A link without a fault did not fail in its last call.
    ghost invariant = { λ l. (l.place ≤ length l.incoming) × (l.plan.faults ≡ 0 → l.plan.last_failed ≡ false) };
}

impl MemLink {
    /// A link with these bytes as input.
    pub fn new(alloc: Global, incoming: Bytes) -> Self
        ensures { result ≡ record { address = None; read = []; rest = incoming; written = []; device = new_device } }
    {
        MemLink {
            address: None,
            incoming,
            place: 0,
            written: Bytes::new(alloc),
            plan: FaultPlan::new(alloc),
        }
    }

    /// The bytes that were written.
    pub fn written(&self) -> &[u8]
        ensures { result.now ≡ self.now.written }
    {
        self.written.as_slice()
    }

    /// Plans that the call with this number, counted from 1 since the link was made, fails.
    pub fn fail_at(&mut self, call: u64) -> Result<(), OutOfMemory>
        ensures ok { OnOk result (self.new ≡ record self.old { device = failing_at self.old.device call }) }
        ensures err { OnErr result (self.new ≡ self.old) }
    {
        self.plan.fail_at(call)
    }

    /// The most bytes that one call moves.
    pub fn piece(&mut self, n: usize)
        requires { 1 ≤ n }
        ensures { self.new ≡ record self.old { device = record self.old.device { piece = n } } }
    {
        self.plan.set_piece(n);
    }

    pub(crate) fn has_failed(&self) -> bool
        ensures { IsTrue result ↔ (0 < self.now.device.faults) }
    {
        self.plan.has_failed()
    }

    // Says what always holds of a link's faults.
    pub(crate) fn counts_its_fault(&self)
        ensures { self.now.device.faults ≡ 0 → self.now.device.last_failed ≡ false }
    {
        let _facts = &self.plan;
    }

    pub(crate) fn set_address(&mut self, address: Bytes)
        ensures { self.new ≡ record self.old { address = Some address } }
    {
        self.address = Some(address);
    }
}

impl Link for MemLink {
    ghost told = { told_link };

    fn read_some(&mut self, buf: &mut [u8]) -> Result<usize, Failed>
        ensures within { IfOk result (λ n. n ≤ length buf.new) }
        ensures bytes { Exchanged (told_link self.old).traffic (told_link self.new).traffic
            (take (moved result) buf.new) [] }
        ensures end { IfOk result (λ n. n ≡ 0 → 0 < length buf.new → self.new.rest ≡ []) }
        ensures counted { IsCounted self.old.device.calls self.new.device.calls }
        ensures cause { HasCause self.old.device.faults self.new.device.faults result }
        ensures last { self.new.device.last_failed ≡ is_err result }
        ensures failed { IsErr result ↔ (fails_next self.old.device ≡ true) }
        ensures count { IfOk result (λ n. n ≡ min (min (length self.old.rest) (length buf.old)) self.old.device.piece) }
        ensures device { self.new.device ≡ answered self.old.device result }
    {
        if self.plan.next_fails() {
            self.plan.fail();
            return Err(Failed);
        }
        let bytes = self.incoming.as_slice();
        let start = self.place;
        let count = (bytes.len() - start).min(buf.len()).min(self.plan.piece());
        buf[..count].copy_from_slice(&bytes[start..start + count]);
        self.place = start + count;
        Ok(count)
    }

    fn write_some(&mut self, bytes: &[u8]) -> Result<usize, Failed>
        ensures some { MovesSome result bytes.now }
        ensures bytes { Exchanged (told_link self.old).traffic (told_link self.new).traffic
            [] (take (moved result) bytes.now) }
        ensures counted { IsCounted self.old.device.calls self.new.device.calls }
        ensures cause { HasCause self.old.device.faults self.new.device.faults result }
        ensures last { self.new.device.last_failed ≡ is_err result }
        ensures planned { fails_next self.old.device ≡ true → IsErr result }
        ensures piece { IfOk result (λ n. n ≡ min (length bytes.now) self.old.device.piece) }
        ensures device { self.new.device ≡ answered self.old.device result }
    {
        let count = bytes.len().min(self.plan.piece());
        if self.plan.next_fails() || self.written.extend(&bytes[..count]).is_err() {
            self.plan.fail();
            return Err(Failed);
        }
        Ok(count)
    }
}
