//! How far each list is shown.

ghost use Rattle.std.specs.Prelude.{◌≡◌, ◌<◌, ◌++◌, ◌∷◌, [], length, slice_index, is_ok, if◌then◌else◌};

use crate::memory::OutOfMemory;
use std::alloc::Global;
use std::marker::Model;

/// How many entries of each present term's list are shown, each from 1 to the length of the list.
#[derive(Drop)]
pub struct Cut {
    items: Vec<u32>,
}

impl Model for Cut {
    ghost use Rattle.std.specs.Prelude.{List, ℕ};

    ghost Value = { List ℕ };

    ghost view = { λ p. p.items.items };
}

impl Cut {
    pub fn new(alloc: Global) -> Self
        ensures { result ≡ [] }
    {
        Cut {
            items: Vec::new(alloc),
        }
    }

    /// A cut of these counts.
    pub(crate) fn of(counts: Vec<u32>) -> Self
        ensures { result ≡ counts.items }
    {
        Cut { items: counts }
    }

    /// Appends a count. If memory runs out, the list stays as it was.
    pub fn push(&mut self, count: u32) -> Result<(), OutOfMemory>
        ensures { self.new ≡ (if is_ok result then self.old ++ count ∷ [] else self.old) }
    {
        self.items.push(count)?;
        Ok(())
    }

    /// The number of counts.
    pub fn len(&self) -> usize
        ensures { result ≡ length self.now }
    {
        self.items.len()
    }

    /// The count at place `i`, counted from 0.
    pub fn get(&self, i: usize) -> u32
        requires { i < length self.now }
        ensures { result ≡ slice_index self.now i }
    {
        self.items[i]
    }

    pub fn as_slice(&self) -> &[u32]
        ensures { result.now ≡ self.now }
    {
        self.items.as_slice()
    }
}
