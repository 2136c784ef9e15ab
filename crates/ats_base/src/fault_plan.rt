//! How an object in memory counts its calls and its faults, and keeps whether the last call failed.

ghost use Rattle.std.specs.Prelude.{◌≡◌, ◌≤◌, ◌<◌, ◌↔◌, IsTrue, OnOk, OnErr};
ghost use Rattle.ats_base.specs.Memory.{Device, new_device, next, called, failed, missed, fails_next, failing_at};

use crate::bytes::OutOfMemory;
use std::alloc::Global;
use std::marker::Model;

/// The calls that will fail, the most bytes that one call moves, how many failed, and whether the last one did.
#[derive(Drop)]
pub(crate) struct FaultPlan {
    calls: u64,
    fails: Vec<u64>,
    piece: usize,
    faults: u64,
    last_failed: bool,
}

impl Model for FaultPlan {
    ghost Value = { Device };

    ghost view = { λ p. record {
      calls = p.calls;
      fails = p.fails.items;
      piece = p.piece;
      faults = p.faults;
      last_failed = p.last_failed;
    } };

    ghost invariant = { λ p. 0 < p.piece };
}

impl FaultPlan {
    pub(crate) fn new(alloc: Global) -> Self
        ensures { result ≡ new_device }
    {
        FaultPlan {
            calls: 0,
            fails: Vec::new(alloc),
            piece: usize::MAX,
            faults: 0,
            last_failed: false,
        }
    }

    /// Counts a call, and returns whether it must fail.
    pub(crate) fn next_fails(&mut self) -> bool
        ensures counts { self.new ≡ called self.old }
        ensures planned { result ≡ fails_next self.old }
    {
        self.calls = self.calls.saturating_add(1);
        self.last_failed = false;
        let call = self.calls;
        self.fails.iter().any(|fails| *fails == call)
    }

    /// Counts the call that was begun as one that failed.
    pub(crate) fn fail(&mut self)
        ensures value { self.new ≡ failed self.old }
        ensures later { self.old.faults ≤ self.new.faults }
    {
        self.faults = self.faults.saturating_add(1);
        self.last_failed = true;
    }

    /// Notes that the call that was begun failed for a name that is not there, which is no fault.
    pub(crate) fn miss(&mut self)
        ensures { self.new ≡ missed self.old }
    {
        self.last_failed = true;
    }

    /// Counts a fault that the plan did not cause: a broken link that fails again.
    pub(crate) fn count_broken(&mut self)
        ensures { self.new ≡ record self.old { faults = next self.old.faults } }
    {
        self.faults = self.faults.saturating_add(1);
    }

    pub(crate) fn has_failed(&self) -> bool
        ensures { IsTrue result ↔ (0 < self.now.faults) }
    {
        self.faults > 0
    }

    pub(crate) fn fail_at(&mut self, call: u64) -> Result<(), OutOfMemory>
        ensures ok { OnOk result (self.new ≡ failing_at self.old call) }
        ensures err { OnErr result (self.new ≡ self.old) }
    {
        self.fails.push(call)?;
        Ok(())
    }

    pub(crate) fn set_piece(&mut self, n: usize)
        requires { 1 ≤ n }
        ensures { self.new ≡ record self.old { piece = n } }
    {
        self.piece = n;
    }

    pub(crate) fn piece(&self) -> usize
        ensures value { result ≡ self.now.piece }
        ensures some { 1 ≤ result }
    {
        self.piece
    }
}
