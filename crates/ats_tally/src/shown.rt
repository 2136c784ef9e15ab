//! What a command showed, compared with what its case or its vector wants.

ghost use Rattle.std.specs.Prelude.{◌≡◌, ◌≢◌, ◌<◌, ◌↔◌, ◌+◌, ◌-◌, ◌^◌, ◌++◌, [], min, length, string_bytes, true, false, IfOk, is_ok, if◌then◌else◌};
ghost use Rattle.ats_tally.specs.Cases.{Case, IsAsWanted};

use ats_base::{Bytes, OutOfMemory};
use std::alloc::{AllocError, Global};
use std::marker::Model;

/// A command that was run.
#[derive(Drop)]
pub struct Shown {
    said: String,
    status: u8,
    printed: Bytes,
    wanted_status: u8,
    wanted: Bytes,
    misfits: u64,
}

impl Model for Shown {
    ghost Value = { Case };

    ghost view = { λ s. record {
      status = s.status;
      printed = s.printed;
      wanted_status = s.wanted_status;
      wanted = s.wanted;
      misfits = s.misfits;
    } };
}

impl Shown {
    /// A command that should end with status 0, print nothing, and leave the files and links that its case names.
    /// `said` is its name in the report.
    pub fn new(alloc: Global, said: &str, status: u8, printed: &[u8]) -> Result<Self, OutOfMemory>
        ensures { IfOk result (λ made. made
            ≡ record { status = status; printed = printed.now; wanted_status = 0; wanted = []; misfits = 0 }) }
    {
        Ok(Shown {
            said: String::from_str(alloc, said)?,
            status,
            printed: Bytes::of(alloc, printed)?,
            wanted_status: 0,
            wanted: Bytes::new(alloc),
            misfits: 0,
        })
    }

    /// This status is wanted, and no other.
    pub fn want_status(&mut self, status: u8)
        ensures { self.new ≡ record self.old { wanted_status = status } }
    {
        self.wanted_status = status;
    }

    /// These bytes should be printed after what is wanted so far. They may be no text.
    pub fn want_bytes(&mut self, bytes: &[u8]) -> Result<(), OutOfMemory>
        ensures { self.new
            ≡ (if is_ok result then record self.old { wanted = self.old.wanted ++ bytes.now } else self.old) }
    {
        self.wanted.extend(bytes)
    }

    /// Notes whether a file, what a link wrote, or a value that no command prints is as wanted.
    pub fn note_fit(&mut self, fits: bool)
        ensures noted { fits ≡ false → self.new.misfits ≢ 0 }
        ensures count { self.new
            ≡ (if fits then self.old else record self.old { misfits = min (self.old.misfits + 1) (2 ^ 64 - 1) }) }
    {
        if !fits {
            self.misfits = self.misfits.saturating_add(1);
        }
    }

    /// Whether the status, what was printed, the files and the links are as wanted.
    pub fn is_as_wanted(&self) -> bool
        ensures { result ≡ true ↔ IsAsWanted self.now }
    {
        self.status == self.wanted_status
            && self.printed.as_slice() == self.wanted.as_slice()
            && self.misfits == 0
    }

    /// What a person needs to know of a case that differs.
    pub(crate) fn difference(&self, alloc: Global) -> Result<String, AllocError>
        ensures { IfOk result (λ text. 0 < length (string_bytes text)) }
    {
        let (status, wanted_status) = (self.status, self.wanted_status);
        let printed = str::from_utf8(self.printed.as_slice()).unwrap_or("(no text)");
        let wanted = str::from_utf8(self.wanted.as_slice()).unwrap_or("(no text)");
        let (said, misfits) = (&self.said, self.misfits);
        format!(in alloc;
            "differs: {said}\nstatus {status}, wanted {wanted_status}; {misfits} files, links or numbers differ; printed:\n{printed}wanted:\n{wanted}"
        )
    }
}
