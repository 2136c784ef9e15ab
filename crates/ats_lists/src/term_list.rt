//! A term with its entries.

ghost use Rattle.std.specs.Prelude.{◌≡◌, ◌++◌, ◌∷◌, [], IfOk, OnOk};
ghost use Rattle.ats_postings.specs.Lists.{by_impact};
ghost use Rattle.ats_postings.specs.Inner.Lists.{AreGathered};

use crate::memory::OutOfMemory;
use ats_postings::Entry;
use std::alloc::Global;
use std::cmp::Reverse;
use std::marker::Model;

/// A term with its entries.
#[derive(Drop)]
pub(crate) struct TermList {
    term: Vec<u8>,
    entries: Vec<Entry>,
}

impl Model for TermList {
    ghost use Rattle.std.specs.Prelude.{List, ℕ};
    ghost use Rattle.ats_postings.specs.declared.entry.Entry.{Entry};

    ghost Value = { List ℕ × List Entry };

    ghost view = { λ l. (l.term.items, l.entries.items) };
}

impl TermList {
    /// The term with no entry, and with room for `room` entries.
    pub(crate) fn with_room(alloc: Global, term: Vec<u8>, room: usize) -> Result<Self, OutOfMemory>
        ensures { IfOk result (λ list. list ≡ (term.items, [])) }
    {
        let entries = Vec::with_capacity(alloc, room)?;
        Ok(TermList { term, entries })
    }

    pub(crate) fn push(&mut self, entry: Entry) -> Result<(), OutOfMemory>
        ensures { OnOk result (self.new ≡ (self.old.0, self.old.1 ++ entry ∷ [])) }
    {
        self.entries.push(entry)?;
        Ok(())
    }

    /// Sorts the entries by impact descending, then document ascending.
    pub(crate) fn sort(&mut self) -> Result<(), OutOfMemory>
        requires { AreGathered self.old.1 }
        ensures { OnOk result (self.new ≡ (self.old.0, by_impact 2200 self.old.1)) }
    {
        self.entries
            .sort_by_key(|entry| (Reverse(entry.impact), entry.doc))?;
        Ok(())
    }

    pub(crate) fn term(&self) -> &[u8]
        ensures { result.now ≡ self.now.0 }
    {
        self.term.as_slice()
    }

    pub(crate) fn entries(&self) -> &[Entry]
        ensures { result.now ≡ self.now.1 }
    {
        self.entries.as_slice()
    }
}
