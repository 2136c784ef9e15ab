//! The builder of a collection's lists.

ghost use Rattle.std.specs.Prelude.{◌≡◌, ◌<◌, ◌≤◌, ◌+◌, length, IfOk};
ghost use Rattle.ats_terms.specs.Terms.{terms};
ghost use Rattle.ats_terms.specs.Query.{counted};
ghost use Rattle.ats_postings.specs.Postings.{text_of};
ghost use Rattle.ats_postings.specs.Lists.{lists_of, AreLists};

use crate::gathering::Gathered;
use crate::lists::Lists;
use crate::memory::OutOfMemory;
use ats_impact::Collection;
use ats_terms::TermCounts;
use std::alloc::Global;
use std::marker::Model;

/// Builds the lists of a run of a collection's documents: the collection's texts, the first document of the run, and
/// the number after its last.
///
/// Each document is added by its counted terms, so that a caller who needs these too counts them once. Runs may be made
/// by several threads and joined in order. It keeps its allocator.
#[derive(Drop)]
pub struct ListsBuilder<'a> {
    alloc: Global,
    collection: &'a Collection,
    gathered: Gathered,
    first: u32,
    end: u32,
}

impl<'a> Model for ListsBuilder<'a> {
    ghost use Rattle.std.specs.Prelude.{◌≤◌, List, ℕ};
    ghost use Rattle.ats_lists.specs.Inner.Gathered.{HasRun};

    ghost Value = { List (List ℕ) × ℕ × ℕ };

    ghost view = { λ b. (b.collection.now, b.first, b.end) };

    ghost invariant = { λ b. (b.first ≤ b.end) × (b.end ≤ 65536)
        × HasRun b.first b.end b.collection.now b.gathered };
}

impl<'a> ListsBuilder<'a> {
    /// An empty run that begins with the first document of all.
    pub fn new(alloc: Global, collection: &'a Collection) -> Self
        ensures { result ≡ (collection.now, 0, 0) }
    {
        ListsBuilder::starting_at(alloc, collection, 0)
    }

    /// An empty run that begins with this document.
    pub fn starting_at(alloc: Global, collection: &'a Collection, first: u32) -> Self
        requires { first ≤ length collection.now }
        ensures { result ≡ (collection.now, first, first) }
    {
        // A collection has at most 65,536 documents.
        prove!(first <= collection.documents());
        ListsBuilder {
            alloc,
            collection,
            gathered: Gathered::new(alloc),
            first,
            end: first,
        }
    }

    /// Adds the next document; `counts` are its counted terms. If memory runs out, the run is dropped.
    pub fn add(self, counts: &TermCounts) -> Result<Self, OutOfMemory>
        requires inside { self.2 < length self.0 }
        requires counts { counts.now ≡ counted (terms (text_of self.0 self.2)) }
        ensures { IfOk result (λ made. made ≡ (self.entry.0, self.entry.1, self.entry.2 + 1)) }
    {
        let ListsBuilder {
            alloc,
            collection,
            gathered,
            first,
            end,
        } = self;
        let few = gathered.with_few_numbers(alloc)?;
        let gathered = few.add_document(collection, end, counts)?;
        Ok(ListsBuilder {
            alloc,
            collection,
            gathered,
            first,
            end: end + 1,
        })
    }

    /// Joins the run with the next one, which begins where this one ends. If memory runs out, both are dropped.
    pub fn join(self, next: Self) -> Result<Self, OutOfMemory>
        requires texts { next.0 ≡ self.0 }
        requires place { next.1 ≡ self.2 }
        ensures { IfOk result (λ made. made ≡ (self.entry.0, self.entry.1, next.entry.2)) }
    {
        let ListsBuilder {
            alloc,
            collection,
            gathered,
            first,
            end: _,
        } = self;
        let ListsBuilder {
            alloc: _,
            collection: _,
            gathered: more,
            first: _,
            end,
        } = next;
        let gathered = gathered.join(alloc, more)?;
        Ok(ListsBuilder {
            alloc,
            collection,
            gathered,
            first,
            end,
        })
    }

    /// The lists, after all documents were added.
    pub fn finish(self) -> Result<Lists, OutOfMemory>
        requires first { self.1 ≡ 0 }
        requires all { self.2 ≡ length self.0 }
        ensures same { IfOk result (λ made. made ≡ lists_of self.entry.0) }
        ensures lists { IfOk result (AreLists (length self.entry.0)) }
    {
        let ListsBuilder {
            alloc,
            collection,
            gathered,
            first: _,
            end: _,
        } = self;
        Ok(Lists::new(gathered.sorted(alloc, collection)?))
    }
}
