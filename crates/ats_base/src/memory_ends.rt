//! A caller and a door in memory. Each reports what was passed to it, and hands out its links in the order in which
//! they were added.

ghost use Rattle.std.specs.Prelude.{◌≡◌, ◌⊎◌, ◌≤◌, ◌<◌, ◌+◌, ◌-◌, ◌^◌, ◌++◌, ◌∷◌, [], List, ℕ, length, min, true, false, Some, None, IfOk, OnOk, OnErr, is_err, IsErr, option_map, slice_get};
ghost use Rattle.std.specs.List.{All};
ghost use Rattle.std.specs.Option.{option_copied};
ghost use Rattle.std.specs.Vec.{vec_len, vec_capacity};
ghost use Rattle.ats_base.specs.Memory.{Device, new_device, answered, fails_next, failing_at, failed, next};
ghost use Rattle.ats_base.specs.MemoryLinks.{LinkState, LinksState, CallerState, DoorState, IsUnused, told_caller, told_door, told_link};
ghost use Rattle.ats_base.specs.Outside.{HasCause};
ghost use Rattle.ats_base.specs.Links.{IsNew, IsCalledAt, calling_out, called_back, MayNoteCall, noting_listen, MayNoteListen, counting_accept, accepting_out, accepted_back, counted_broken};

use crate::bytes::{Bytes, OutOfMemory};
use crate::fault_plan::FaultPlan;
use crate::links::{Caller, Door};
use crate::memory_link::MemLink;
use crate::outside::Failed;
use std::alloc::Global;
use std::collections::VecDeque;
use std::marker::Model;

// The links that are still to be handed out, those given back, and how many are out.
#[derive(Drop)]
struct Links {
    waiting: VecDeque<MemLink>,
    back: Vec<MemLink>,
    out: usize,
}

impl Model for Links {
    ghost Value = { LinksState };

    ghost view = { λ l. record { waiting = l.waiting.items; back = l.back.items; out = l.out } };

    // There is room for the return of each link that is out.
    ghost invariant = { λ l. (All IsUnused l.waiting.items) × (vec_len l.back + l.out ≤ vec_capacity l.back) };
}

impl Links {
    fn new(alloc: Global) -> Self
        ensures { result ≡ record { waiting = []; back = []; out = 0 } }
    {
        Links {
            waiting: VecDeque::new(alloc),
            back: Vec::new(alloc),
            out: 0,
        }
    }

    fn add(&mut self, link: MemLink) -> Result<(), OutOfMemory>
        requires { IsUnused link }
        ensures ok { OnOk result (self.new ≡ record self.old { waiting = self.old.waiting ++ link ∷ [] }) }
        ensures err { OnErr result (self.new ≡ self.old) }
    {
        self.waiting.push_back(link)?;
        Ok(())
    }

    // The room for the link's return is allocated here, so that its return needs none. No memory holds as many links as
    // there are numbers.
    fn hand_out(&mut self) -> Result<MemLink, Failed>
        ensures first { IfOk result (λ link. self.old.waiting ≡ link ∷ self.new.waiting) }
        ensures unused { IfOk result IsUnused }
        ensures fine { IfOk result (λ link. link.device.last_failed ≡ false) }
        ensures ok { OnOk result (self.new ≡ record self.old { waiting = self.new.waiting; out = self.old.out + 1 }) }
        ensures err { OnErr result (self.new ≡ self.old) }
        ensures none { self.old.waiting ≡ [] → IsErr result }
    {
        let Some(out) = self.out.checked_add(1) else {
            return Err(Failed);
        };
        if self.back.reserve(out).is_err() {
            return Err(Failed);
        }
        let Some(link) = self.waiting.pop_front() else {
            return Err(Failed);
        };
        self.out = out;
        link.counts_its_fault();
        Ok(link)
    }

    fn take_back(&mut self, link: MemLink)
        requires { 0 < self.old.out }
        ensures { self.new ≡ record self.old { back = self.old.back ++ link ∷ []; out = self.old.out - 1 } }
    {
        let Ok(()) = self.back.push(link) else {
            unreachable!();
        };
        self.out -= 1;
    }

    fn given_back(&self, i: u32) -> Option<&MemLink>
        ensures { option_copied result ≡ slice_get self.now.back i }
    {
        self.back.get(i as usize)
    }
}

/// A caller whose links are made beforehand. If memory runs out, that counts as a fault of the caller.
#[derive(Drop)]
pub struct MemCaller {
    alloc: Global,
    links: Links,
    addresses: Vec<Bytes>,
    plan: FaultPlan,
}

impl Model for MemCaller {
    ghost Value = { CallerState };

    ghost view = { λ c. record { links = c.links; addresses = c.addresses.items; device = c.plan } };
}

impl MemCaller {
    pub fn new(alloc: Global) -> Self
        ensures { result ≡ record {
          links = record { waiting = []; back = []; out = 0 };
          addresses = [];
          device = new_device;
        } }
    {
        MemCaller {
            alloc,
            links: Links::new(alloc),
            addresses: Vec::new(alloc),
            plan: FaultPlan::new(alloc),
        }
    }

    /// Adds a link to be handed out, after those before it. If memory runs out, the link is dropped.
    pub fn add(&mut self, link: MemLink) -> Result<(), OutOfMemory>
        requires { IsUnused link }
        ensures ok { OnOk result (self.new
            ≡ record self.old { links = record self.old.links { waiting = self.old.links.waiting ++ link ∷ [] } }) }
        ensures err { OnErr result (self.new ≡ self.old) }
    {
        self.links.add(link)
    }

    /// Link `i`, counted from 0, of those that were given back.
    pub fn given_back(&self, i: u32) -> Option<&MemLink>
        ensures { option_copied result ≡ slice_get self.now.links.back i }
    {
        self.links.given_back(i)
    }

    /// Plans that the call with this number, counted from 1 since the caller was made, fails.
    pub fn fail_at(&mut self, call: u64) -> Result<(), OutOfMemory>
        ensures ok { OnOk result (self.new ≡ record self.old { device = failing_at self.old.device call }) }
        ensures err { OnErr result (self.new ≡ self.old) }
    {
        self.plan.fail_at(call)
    }

    /// The most bytes that one call moves. A caller moves none itself.
    pub fn piece(&mut self, n: usize)
        requires { 1 ≤ n }
        ensures { self.new ≡ record self.old { device = record self.old.device { piece = n } } }
    {
        self.plan.set_piece(n);
    }

    // The address is noted before a link is handed out, so that no link is lost if memory for it runs out.
    fn reach(&mut self, address: &str) -> Result<MemLink, Failed>
        ensures ok { OnOk result ((told_caller self.new).content
            ≡ option_map (calling_out address.now) (told_caller self.old).content) }
        ensures err { OnErr result
            (MayNoteCall address.now (told_caller self.old).content (told_caller self.new).content) }
        ensures first { IfOk result (λ link. (w : LinkState) × (self.old.links.waiting ≡ w ∷ self.new.links.waiting)
            × (link ≡ record w { address = Some address.now })) }
        ensures unused { IfOk result IsUnused }
        ensures fine { IfOk result (λ link. link.device.last_failed ≡ false) }
        ensures none { self.old.links.waiting ≡ [] → IsErr result }
        ensures out { OnOk result (self.new.links.out ≡ self.old.links.out + 1) }
        ensures same { OnErr result (self.new.links ≡ self.old.links) }
        ensures device { self.new.device ≡ self.old.device }
    {
        let Ok(called) = Bytes::of(self.alloc, address.as_bytes()) else {
            return Err(Failed);
        };
        let Ok(noted) = Bytes::of(self.alloc, address.as_bytes()) else {
            return Err(Failed);
        };
        if self.addresses.push(noted).is_err() {
            return Err(Failed);
        }
        let mut link = self.links.hand_out()?;
        link.set_address(called);
        Ok(link)
    }
}

impl Caller for MemCaller {
    type Link = MemLink;

    ghost told = { told_caller };

    fn call(&mut self, address: &str) -> Result<MemLink, Failed>
        ensures ok { OnOk result ((told_caller self.new).content
            ≡ option_map (calling_out address.now) (told_caller self.old).content) }
        ensures err { OnErr result
            (MayNoteCall address.now (told_caller self.old).content (told_caller self.new).content) }
        ensures new { IfOk result (λ link. IsNew true (told_link link)) }
        ensures address { IfOk result (λ link. IsCalledAt address.now (told_link link).traffic) }
        ensures cause { HasCause self.old.device.faults self.new.device.faults result }
        ensures last { self.new.device.last_failed ≡ is_err result }
        ensures first { IfOk result (λ link. (w : LinkState) × (self.old.links.waiting ≡ w ∷ self.new.links.waiting)
            × (link ≡ record w { address = Some address.now })) }
        ensures planned { (fails_next self.old.device ≡ true) ⊎ (self.old.links.waiting ≡ []) → IsErr result }
        ensures out { OnOk result (self.new.links.out ≡ self.old.links.out + 1) }
        ensures same { OnErr result (self.new.links ≡ self.old.links) }
        ensures device { self.new.device ≡ answered self.old.device result }
    {
        if self.plan.next_fails() {
            self.plan.fail();
            return Err(Failed);
        }
        let Ok(link) = self.reach(address) else {
            self.plan.fail();
            return Err(Failed);
        };
        Ok(link)
    }

    fn give_back(&mut self, link: MemLink)
        requires { 0 < self.old.links.out }
        ensures content { (told_caller self.new).content
            ≡ option_map (called_back (told_link link)) (told_caller self.old).content }
        ensures faults { self.new.device.faults ≡ counted_broken link.device.faults self.old.device.faults }
        ensures last { self.new.device.last_failed ≡ self.old.device.last_failed }
        ensures device { self.new.device
            ≡ record self.old.device { faults = counted_broken link.device.faults self.old.device.faults } }
        ensures back { self.new.links
            ≡ record self.old.links { back = self.old.links.back ++ link ∷ []; out = self.old.links.out - 1 } }
    {
        if link.has_failed() {
            self.plan.count_broken();
        }
        self.links.take_back(link);
    }
}

/// A door at which links made beforehand arrive. If memory runs out, that counts as a fault of the door.
#[derive(Drop)]
pub struct MemDoor {
    alloc: Global,
    links: Links,
    addresses: Vec<Bytes>,
    accepts: u64,
    is_open: bool,
    broken: u64,
    plan: FaultPlan,
}

impl Model for MemDoor {
    ghost Value = { DoorState };

    ghost view = { λ d. record {
      links = d.links;
      addresses = d.addresses.items;
      accepts = d.accepts;
      is_open = d.is_open;
      broken = d.broken;
      device = d.plan;
    } };
}

impl MemDoor {
    pub fn new(alloc: Global) -> Self
        ensures { result ≡ record {
          links = record { waiting = []; back = []; out = 0 };
          addresses = [];
          accepts = 0;
          is_open = false;
          broken = 0;
          device = new_device;
        } }
    {
        MemDoor {
            alloc,
            links: Links::new(alloc),
            addresses: Vec::new(alloc),
            accepts: 0,
            is_open: false,
            broken: 0,
            plan: FaultPlan::new(alloc),
        }
    }

    /// Adds a link to be handed out, after those before it. If memory runs out, the link is dropped.
    pub fn add(&mut self, link: MemLink) -> Result<(), OutOfMemory>
        requires { IsUnused link }
        ensures ok { OnOk result (self.new
            ≡ record self.old { links = record self.old.links { waiting = self.old.links.waiting ++ link ∷ [] } }) }
        ensures err { OnErr result (self.new ≡ self.old) }
    {
        self.links.add(link)
    }

    /// Link `i`, counted from 0, of those that were given back.
    pub fn given_back(&self, i: u32) -> Option<&MemLink>
        ensures { option_copied result ≡ slice_get self.now.links.back i }
    {
        self.links.given_back(i)
    }

    /// Plans that the call with this number, counted from 1 since the door was made, fails.
    pub fn fail_at(&mut self, call: u64) -> Result<(), OutOfMemory>
        ensures ok { OnOk result (self.new ≡ record self.old { device = failing_at self.old.device call }) }
        ensures err { OnErr result (self.new ≡ self.old) }
    {
        self.plan.fail_at(call)
    }

    /// The most bytes that one call moves. A door moves none itself.
    pub fn piece(&mut self, n: usize)
        requires { 1 ≤ n }
        ensures { self.new ≡ record self.old { device = record self.old.device { piece = n } } }
    {
        self.plan.set_piece(n);
    }

    fn note(&mut self, address: &str) -> Result<(), OutOfMemory>
        ensures ok { OnOk result (self.new ≡ record self.old { addresses = self.old.addresses ++ address.now ∷ [] }) }
        ensures err { OnErr result (self.new ≡ self.old) }
    {
        let noted = Bytes::of(self.alloc, address.as_bytes())?;
        self.addresses.push(noted)?;
        Ok(())
    }
}

impl Door for MemDoor {
    type Link = MemLink;

    ghost told = { told_door };

    fn listen(&mut self, address: &str) -> Result<(), Failed>
        ensures ok { OnOk result ((told_door self.new).content
            ≡ option_map (noting_listen address.now) (told_door self.old).content) }
        ensures err { OnErr result
            (MayNoteListen address.now (told_door self.old).content (told_door self.new).content) }
        ensures opens { OnOk result (self.new.is_open ≡ true) }
        ensures stays { OnErr result (self.new.is_open ≡ self.old.is_open) }
        ensures broken { self.new.broken ≡ self.old.broken }
        ensures cause { HasCause self.old.device.faults self.new.device.faults result }
        ensures last { self.new.device.last_failed ≡ is_err result }
        ensures planned { fails_next self.old.device ≡ true → IsErr result }
        ensures links { self.new.links ≡ self.old.links }
        ensures device { self.new.device ≡ answered self.old.device result }
    {
        if self.plan.next_fails() || self.note(address).is_err() {
            self.plan.fail();
            return Err(Failed);
        }
        self.is_open = true;
        Ok(())
    }

    fn accept(&mut self) -> Result<MemLink, Failed>
        requires { self.old.is_open ≡ true }
        ensures ok { OnOk result ((told_door self.new).content
            ≡ option_map accepting_out (told_door self.old).content) }
        ensures err { OnErr result ((told_door self.new).content
            ≡ option_map counting_accept (told_door self.old).content) }
        ensures new { IfOk result (λ link. IsNew true (told_link link)) }
        ensures stays { self.new.is_open ≡ self.old.is_open }
        ensures broken { self.new.broken ≡ self.old.broken }
        ensures cause { HasCause self.old.device.faults self.new.device.faults result }
        ensures last { self.new.device.last_failed ≡ is_err result }
        ensures first { IfOk result (λ link. self.old.links.waiting ≡ link ∷ self.new.links.waiting) }
        ensures planned { (fails_next self.old.device ≡ true) ⊎ (self.old.links.waiting ≡ []) → IsErr result }
        ensures out { OnOk result (self.new.links.out ≡ self.old.links.out + 1) }
        ensures same { OnErr result (self.new.links ≡ self.old.links) }
        ensures device { self.new.device ≡ answered self.old.device result }
    {
        self.accepts = self.accepts.saturating_add(1);
        if self.plan.next_fails() {
            self.plan.fail();
            return Err(Failed);
        }
        let Ok(link) = self.links.hand_out() else {
            self.plan.fail();
            return Err(Failed);
        };
        Ok(link)
    }

    fn give_back(&mut self, link: MemLink)
        requires { 0 < self.old.links.out }
        ensures content { (told_door self.new).content
            ≡ option_map (accepted_back (told_link link)) (told_door self.old).content }
        ensures stays { self.new.is_open ≡ self.old.is_open }
        ensures faults { self.new.device.faults ≡ self.old.device.faults }
        ensures broken { self.new.broken ≡ counted_broken link.device.faults self.old.broken }
        ensures last { self.new.device.last_failed ≡ self.old.device.last_failed }
        ensures device { self.new.device ≡ self.old.device }
        ensures back { self.new.links
            ≡ record self.old.links { back = self.old.links.back ++ link ∷ []; out = self.old.links.out - 1 } }
    {
        if link.has_failed() {
            self.broken = self.broken.saturating_add(1);
        }
        self.links.take_back(link);
    }
}
