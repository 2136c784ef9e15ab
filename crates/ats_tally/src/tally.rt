//! How many cases passed, and a report on the others.

ghost use Rattle.std.specs.Prelude.{◌≡◌, ◌+◌, ◌-◌, ◌^◌, ◌⊎◌, [], length, min, string_bytes, take, IsOk, OnErr, OnOk};
ghost use Rattle.ats_tally.specs.Cases.{Counted, IsAsWanted, IsLonger};

use crate::shown::Shown;
use ats_base::OutOfMemory;
use std::alloc::Global;
use std::marker::Model;

/// The count of the cases that passed, and a report on those that did not.
#[derive(Drop)]
pub struct Tally {
    passed: u64,
    report: String,
}

impl Model for Tally {
    ghost Value = { Counted };

    ghost view = { λ t. record { passed = t.passed; report = string_bytes t.report } };
}

impl Tally {
    /// No case counted, and an empty report.
    pub fn new(alloc: Global) -> Self
        ensures { result ≡ record { passed = 0; report = [] } }
    {
        Tally {
            passed: 0,
            report: String::new(alloc),
        }
    }

    /// Counts a case as passed, or reports it. If memory runs out, the tally is as it was.
    pub fn count(&mut self, alloc: Global, shown: &Shown) -> Result<(), OutOfMemory>
        ensures passed { IsAsWanted shown.now ⊎ (self.new.passed ≡ self.old.passed) }
        ensures counted { IsAsWanted shown.now → IsOk result
            × (self.new ≡ record self.old { passed = min (self.old.passed + 1) (2 ^ 64 - 1) }) }
        ensures reported { OnOk result (IsAsWanted shown.now ⊎ IsLonger self.old.report self.new.report) }
        ensures unchanged { OnErr result (self.new ≡ self.old) }
    {
        if shown.is_as_wanted() {
            self.passed = self.passed.saturating_add(1);
            return Ok(());
        }
        let difference = shown.difference(alloc)?;
        self.report.push_str(difference.as_str())?;
        Ok(())
    }

    /// Reports a line that cannot be read. If memory runs out, a part of it may be left in the report.
    pub fn refuse(&mut self, line: &str) -> Result<(), OutOfMemory>
        ensures passed { self.new.passed ≡ self.old.passed }
        ensures reported { OnOk result (IsLonger self.old.report self.new.report) }
        ensures same { take (length self.old.report) self.new.report ≡ self.old.report }
    {
        self.report.push_str("not understood: ")?;
        self.report.push_str(line)?;
        self.report.push_str("\n")?;
        Ok(())
    }

    /// How many cases were as wanted; 2^64 - 1 means at least that many.
    pub fn passed(&self) -> u64
        ensures { result ≡ self.now.passed }
    {
        self.passed
    }

    /// The report on the other cases; empty if each case passed.
    pub fn report(&self) -> &str
        ensures { result.now ≡ self.now.report }
    {
        self.report.as_str()
    }
}
