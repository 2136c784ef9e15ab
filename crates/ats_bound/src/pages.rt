//! The slot of each document.

ghost use Rattle.std.specs.Prelude.{◌≡◌, ◌≢◌, ◌<◌, ◌+◌, ◌^◌, ℕ, Some, None, OnOk, OnErr, slice_index};
ghost use Rattle.ats_bound.specs.Inner.Pages.{slot_in};

use crate::memory::OutOfMemory;
use std::alloc::Global;
use std::collections::HashMap;

/// The slot of each document that has one.
///
/// A page has the slots of 64 documents with neighbouring numbers side by side. Each is stored plus one, and 0 means
/// none. So all slots of a collection take little more room than their numbers, and finding one reads little of it. A
/// map from each document to its slot would make most of a walk wait for memory.
#[derive(Drop)]
pub(crate) struct Pages {
    pub(crate) pages: HashMap<u32, [u32; 64]>,
}

// A page with this number in one cell, and 0 in the rest.
fn page_of(cell: usize, number: u32) -> [u32; 64]
    requires { cell < 64 }
    ensures here { slice_index result cell ≡ number }
    ensures others { (other : ℕ) → other < 64 → other ≢ cell → slice_index result other ≡ 0 }
{
    let mut page = [0; 64];
    page[cell] = number;
    page
}

impl Pages {
    pub(crate) fn new(alloc: Global) -> Pages
        ensures { (doc : ℕ) → slot_in result.pages doc ≡ None }
    {
        Pages {
            pages: HashMap::new(alloc),
        }
    }

    /// The slot of a document.
    pub(crate) fn get(&self, doc: u32) -> Option<usize>
        ensures { result ≡ slot_in self.now.pages doc }
    {
        let page = self.pages.get(&(doc / 64))?;
        let number = page[(doc % 64) as usize];
        (number as usize).checked_sub(1)
    }

    /// Gives a document the slot below this number. More slots than 32 bits can count are reported as out of memory.
    pub(crate) fn put(&mut self, doc: u32, number: usize) -> Result<(), OutOfMemory>
        ensures here { OnOk result ((slot : ℕ) → number ≡ slot + 1 → slot_in self.new.pages doc ≡ Some slot) }
        ensures others { OnOk result ((other : ℕ) → other ≢ doc
            → slot_in self.new.pages other ≡ slot_in self.old.pages other) }
        ensures same { OnErr result (self.new.pages.entries ≡ self.old.pages.entries) }
    {
        let Ok(number) = u32::try_from(number) else {
            return Err(OutOfMemory);
        };
        let cell = (doc % 64) as usize;
        match self.pages.get_mut(&(doc / 64)) {
            Some(page) => page[cell] = number,
            None => {
                self.pages.insert(doc / 64, page_of(cell, number))?;
            }
        }
        Ok(())
    }
}
