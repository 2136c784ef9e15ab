//! What is known of the met documents.

ghost use Rattle.std.specs.Prelude.{◌≡◌, ◌≢◌, ◌<◌, ◌++◌, ◌∷◌, [], ℕ, length, set, is_ok, if◌then◌else◌, MatchOption};
ghost use Rattle.ats_bound.specs.Inner.MetDocuments.{AreOnce, met_at};

use crate::memory::OutOfMemory;
use crate::pages::Pages;
use std::alloc::Global;
use std::marker::Model;

/// A document with the least that it scores by the shown entries, and which lists name it. The binary digits of `named`
/// show which, the first list by the lowest digit.
#[derive(Clone, Copy, Debug)]
pub(crate) struct Met {
    pub(crate) doc: u32,
    pub(crate) named: u32,
    pub(crate) lo: u64,
}

/// The met documents, each in a slot, in the order in which they were first met.
#[derive(Drop)]
pub(crate) struct MetDocuments {
    met: Vec<Met>,
    slots: Pages,
}

impl Model for MetDocuments {
    ghost use Rattle.std.specs.Prelude.{List, ℕ};
    ghost use Rattle.ats_bound.specs.declared.met_documents.Met.{Met as Item};
    ghost use Rattle.ats_bound.specs.Inner.MetDocuments.{AreSlots};
    ghost use Rattle.ats_bound.specs.Inner.Pages.{slot_in};

    ghost Value = { List Item };

    ghost view = { λ k. k.met.items };

    ghost invariant = { λ k. AreSlots k.met.items (slot_in k.slots.pages) };
}

impl MetDocuments {
    pub(crate) fn new(alloc: Global) -> MetDocuments
        ensures { result ≡ [] }
    {
        MetDocuments {
            met: Vec::new(alloc),
            slots: Pages::new(alloc),
        }
    }

    /// The slot of a document.
    pub(crate) fn find(&self, doc: u32) -> Option<usize>
        ensures slot { MatchOption result ((slot : ℕ) → slot < length self.now → (met_at self.now slot).doc ≢ doc)
            (λ slot. (slot < length self.now) × ((met_at self.now slot).doc ≡ doc)) }
        ensures once { AreOnce self.now }
    {
        self.slots.get(doc)
    }

    /// The number of documents.
    pub(crate) fn len(&self) -> usize
        ensures { result ≡ length self.now }
    {
        self.met.len()
    }

    /// What is known of the document in a slot.
    pub(crate) fn get(&self, slot: usize) -> Met
        requires { slot < length self.now }
        ensures { result ≡ met_at self.now slot }
    {
        self.met[slot]
    }

    pub(crate) fn as_slice(&self) -> &[Met]
        ensures { result.now ≡ self.now }
    {
        self.met.as_slice()
    }

    /// Puts a document that has no slot into the next one. If memory runs out, nothing changes.
    pub(crate) fn push(&mut self, met: Met) -> Result<(), OutOfMemory>
        requires { (slot : ℕ) → slot < length self.old → (met_at self.old slot).doc ≢ met.doc }
        ensures { self.new ≡ (if is_ok result then self.old ++ met ∷ [] else self.old) }
    {
        let slot = self.met.len();
        self.met.push(met)?;
        match self.slots.put(met.doc, self.met.len()) {
            Ok(()) => Ok(()),
            Err(wanted) => {
                self.met.truncate(slot);
                Err(wanted)
            }
        }
    }

    /// Replaces what is known of the document in a slot.
    pub(crate) fn set(&mut self, slot: usize, met: Met)
        requires inside { slot < length self.old }
        requires doc { met.doc ≡ (met_at self.old slot).doc }
        ensures { self.new ≡ set self.old slot met }
    {
        self.met[slot] = met;
    }
}
