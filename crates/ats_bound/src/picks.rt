//! Answers, as places in a list of brackets.

ghost use Rattle.std.specs.Prelude.{◌≡◌, ◌<◌, ◌++◌, ◌∷◌, [], length, slice_index, is_ok, if◌then◌else◌};

use crate::memory::OutOfMemory;
use std::alloc::Global;
use std::marker::Model;

/// The places of an answer's brackets in a list of brackets, each counted from 0, best row first.
#[derive(Drop)]
pub struct Picks {
    items: Vec<u32>,
}

impl Model for Picks {
    ghost use Rattle.std.specs.Prelude.{List, ℕ};

    ghost Value = { List ℕ };

    ghost view = { λ p. p.items.items };
}

impl Picks {
    pub fn new(alloc: Global) -> Self
        ensures { result ≡ [] }
    {
        Picks {
            items: Vec::new(alloc),
        }
    }

    /// Appends a pick. If memory runs out, the list stays as it was.
    pub fn push(&mut self, pick: u32) -> Result<(), OutOfMemory>
        ensures { self.new ≡ (if is_ok result then self.old ++ pick ∷ [] else self.old) }
    {
        self.items.push(pick)?;
        Ok(())
    }

    /// The number of picks.
    pub fn len(&self) -> usize
        ensures { result ≡ length self.now }
    {
        self.items.len()
    }

    /// The pick at place `i`, counted from 0.
    pub fn get(&self, i: usize) -> u32
        requires { i < length self.now }
        ensures { result ≡ slice_index self.now i }
    {
        self.items[i]
    }

    pub fn as_slice(&self) -> &[u32]
        ensures { result.now ≡ self.now }
    {
        self.items.as_slice()
    }
}
