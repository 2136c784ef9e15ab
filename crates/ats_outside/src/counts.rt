//! How often a real object was called, how often it failed, and whether its last call did.

ghost use Rattle.std.specs.Prelude.{◌≡◌, ◌<◌, ◌≤◌, ◌↔◌, ◌+◌, ◌-◌, ◌^◌, min, true, false, IsTrue};
ghost use Rattle.ats_base.specs.Outside.{Rose, IsCounted};

use ats_base::Failed;

/// How often an object failed, and whether its last call did.
#[derive(Drop)]
pub struct Faults {
    count: u64,
    last_failed: bool,
}

impl Faults {
    pub(crate) fn new() -> Self
        ensures count { result.count ≡ 0 }
        ensures last { result.last_failed ≡ false }
    {
        Faults {
            count: 0,
            last_failed: false,
        }
    }

    /// A call begins, which has not failed so far.
    pub(crate) fn begin(&mut self)
        ensures count { self.new.count ≡ self.old.count }
        ensures last { self.new.last_failed ≡ false }
    {
        self.last_failed = false;
    }

    /// The call that was begun failed.
    pub(crate) fn fail(&mut self) -> Failed
        ensures rose { Rose self.old.count self.new.count }
        ensures later { self.old.count ≤ self.new.count }
        ensures last { self.new.last_failed ≡ true }
    {
        self.count_broken();
        self.last_failed = true;
        Failed
    }

    /// A link came back that had failed.
    pub(crate) fn count_broken(&mut self)
        ensures one { self.new.count ≡ min (self.old.count + 1) (2 ^ 64 - 1) }
        ensures later { self.old.count ≤ self.new.count }
        ensures last { self.new.last_failed ≡ self.old.last_failed }
    {
        self.count = self.count.saturating_add(1);
    }
}

/// How often an object was called, how often it failed, and whether its last call did.
#[derive(Drop)]
pub struct Counts {
    calls: u64,
    faults: Faults,
}

impl Counts {
    pub(crate) fn new() -> Self
        ensures calls { result.calls ≡ 0 }
        ensures faults { result.faults.count ≡ 0 }
        ensures last { result.faults.last_failed ≡ false }
    {
        Counts {
            calls: 0,
            faults: Faults::new(),
        }
    }

    /// A call begins, which has not failed so far.
    pub(crate) fn call(&mut self)
        ensures counted { IsCounted self.old.calls self.new.calls }
        ensures faults { self.new.faults.count ≡ self.old.faults.count }
        ensures last { self.new.faults.last_failed ≡ false }
    {
        self.calls = self.calls.saturating_add(1);
        self.faults.begin();
    }

    /// The call that was begun failed.
    pub(crate) fn fail(&mut self) -> Failed
        ensures rose { Rose self.old.faults.count self.new.faults.count }
        ensures later { self.old.faults.count ≤ self.new.faults.count }
        ensures last { self.new.faults.last_failed ≡ true }
        ensures calls { self.new.calls ≡ self.old.calls }
    {
        self.faults.fail()
    }

    pub(crate) fn has_failed(&self) -> bool
        ensures { IsTrue result ↔ (0 < self.now.faults.count) }
    {
        self.faults.count > 0
    }
}
