//! Bounds of the scores of documents.

ghost use Rattle.std.specs.Prelude.{◌≡◌, ◌<◌, ◌++◌, ◌∷◌, [], length, slice_index_or, is_ok, if◌then◌else◌, IfOk};
ghost use Rattle.std.specs.List.Sorted.{IsPermutation, IsSorted};
ghost use Rattle.ats_bound.specs.Inner.Placed.{doc_cmp};

use crate::memory::OutOfMemory;
use std::alloc::Global;
use std::marker::Model;

/// A document, counted from 0, with the least and the most that it can score.
#[derive(Clone, Copy, Debug, PartialEq, Eq)]
pub struct Bracket {
    pub doc: u32,
    pub lo: u64,
    pub hi: u64,
}

/// A list of brackets.
#[derive(Drop)]
pub struct Brackets {
    items: Vec<Bracket>,
}

impl Model for Brackets {
    ghost use Rattle.std.specs.Prelude.{List};
    ghost use Rattle.ats_bound.specs.declared.bracket.Bracket.{Bracket};

    ghost Value = { List Bracket };

    ghost view = { λ b. b.items.items };
}

impl Brackets {
    pub fn new(alloc: Global) -> Self
        ensures { result ≡ [] }
    {
        Brackets {
            items: Vec::new(alloc),
        }
    }

    /// Brackets by document ascending.
    pub(crate) fn sorted(items: Vec<Bracket>) -> Result<Self, OutOfMemory>
        ensures { IfOk result (λ brackets. IsPermutation items.items brackets × IsSorted doc_cmp brackets) }
    {
        let mut items = items;
        items.sort_by_key(|bracket| bracket.doc)?;
        Ok(Brackets { items })
    }

    /// Appends a bracket. If memory runs out, the list stays as it was.
    pub fn push(&mut self, bracket: Bracket) -> Result<(), OutOfMemory>
        ensures { self.new ≡ (if is_ok result then self.old ++ bracket ∷ [] else self.old) }
    {
        self.items.push(bracket)?;
        Ok(())
    }

    /// The number of brackets.
    pub fn len(&self) -> usize
        ensures { result ≡ length self.now }
    {
        self.items.len()
    }

    /// Bracket `i`, counted from 0.
    pub fn get(&self, i: usize) -> Bracket
        requires { i < length self.now }
        ensures { result ≡ slice_index_or self.now i result }
    {
        self.items[i]
    }

    pub fn as_slice(&self) -> &[Bracket]
        ensures { result.now ≡ self.now }
    {
        self.items.as_slice()
    }
}
