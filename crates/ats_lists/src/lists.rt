//! The lists of a collection.

ghost use Rattle.std.specs.Prelude.{◌≡◌, ◌≢◌, ◌<◌, [], List, ℕ, length, slice_index_or, IfOk, IfSome, IfNone};
ghost use Rattle.std.specs.List.{All};
ghost use Rattle.ats_terms.specs.Terms.{IsTerm};
ghost use Rattle.ats_terms.specs.Query.{byte_cmp};
ghost use Rattle.ats_postings.specs.Lists.{lists_of, IsList, AreLists};
ghost use Rattle.ats_postings.specs.declared.entry.Entry.{Entry as Posting};

use crate::building::ListsBuilder;
use crate::memory::OutOfMemory;
use crate::term_list::TermList;
use ats_impact::Collection;
use ats_postings::Entry;
use ats_terms::TermCounts;
use std::alloc::Global;
use std::cmp::Ordering;
use std::marker::Model;

/// The inverted lists of a collection: the distinct terms of its texts in byte order, each with the
/// documents that have it.
///
/// There are at most 2^24 lists, of 1 to 65,536 entries each.
#[derive(Drop)]
pub struct Lists {
    lists: Vec<TermList>,
}

impl Model for Lists {
    ghost use Rattle.std.specs.Prelude.{List, ℕ};
    ghost use Rattle.ats_postings.specs.declared.entry.Entry.{Entry};
    ghost use Rattle.ats_postings.specs.Lists.{AreLists};

    ghost Value = { List (List ℕ × List Entry) };

    ghost view = { λ l. l.lists.items };

    ghost invariant = { λ l. AreLists 65536 l.lists.items };
}

impl Lists {
    pub(crate) fn new(lists: Vec<TermList>) -> Self
        requires { AreLists 65536 lists.items }
        ensures { result ≡ lists.items }
    {
        Lists { lists }
    }

    /// The lists of the collection's texts, from one pass over its documents.
    pub fn of(alloc: Global, collection: &Collection) -> Result<Self, OutOfMemory>
        ensures same { IfOk result (λ made. made ≡ lists_of collection.now) }
        ensures lists { IfOk result (AreLists (length collection.now)) }
    {
        let mut builder = ListsBuilder::new(alloc, collection);
        for doc in 0..collection.documents() {
            let counts = TermCounts::of(alloc, collection.terms(doc))?;
            builder = builder.add(&counts)?;
        }
        builder.finish()
    }

    /// The number of lists, which is the number of distinct terms.
    pub fn len(&self) -> u32
        ensures value { result ≡ length self.now }
        ensures lists { AreLists 65536 self.now }
    {
        self.lists.len() as u32
    }

    /// The term of list `i`, counted from 0.
    pub fn term(&self, i: u32) -> &[u8]
        requires { i < length self.now }
        ensures value { (d : List ℕ × List Posting) → result.now ≡ (slice_index_or self.now i d).0 }
        ensures term { IsTerm result.now }
    {
        self.lists[i as usize].term()
    }

    /// The place of a term's list, if it has one.
    pub fn find(&self, term: &[u8]) -> Option<u32>
        ensures found { IfSome result (λ i. (i < length self.now)
            × ((slice_index_or self.now i ([], [])).0 ≡ term.now)) }
        ensures none { IfNone result (All (λ list. list.0 ≢ term.now) self.now) }
    {
        let place = self.lists.binary_search_by(
            |list| -> Ordering
                ensures { result ≡ byte_cmp list.now.0 term.entry.now }
            { list.term().cmp(term) },
        );
        match place {
            Ok(i) => Some(i as u32),
            Err(_) => None,
        }
    }

    /// The entries of list `i`, counted from 0, by impact descending, then document ascending.
    pub fn list(&self, i: u32) -> &[Entry]
        requires { i < length self.now }
        ensures value { (d : List ℕ × List Posting) → result.now ≡ (slice_index_or self.now i d).1 }
        ensures list { IsList 65536 result.now }
    {
        self.lists[i as usize].entries()
    }
}
