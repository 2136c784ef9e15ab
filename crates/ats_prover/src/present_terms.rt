//! The terms of a query that some list has.

ghost use Rattle.std.specs.Prelude.{◌≡◌, ◌<◌, ◌≤◌, ℕ, List, length, slice_index_or, IfOk};
ghost use Rattle.ats_terms.specs.Query.{Rises};
ghost use Rattle.ats_terms.specs.Terms.{IsTerm};
ghost use Rattle.ats_honest.specs.Inner.Present.{standing};

use crate::fault::OutOfMemory;
use ats_dict::Spot;
use ats_terms::Query;
use std::alloc::Global;
use std::marker::Model;

/// The terms of a query that are in the dictionary, in the query's order. It keeps their places in the query, and lends
/// them from there.
#[derive(Drop)]
pub(crate) struct PresentTerms<'a> {
    query: &'a Query,
    places: Vec<u32>,
}

impl<'a> Model for PresentTerms<'a> {
    ghost use Rattle.std.specs.Prelude.{List, ℕ};
    ghost use Rattle.ats_prover.specs.Inner.Places.{ArePlaces, terms_at};

    ghost Value = { List (List ℕ × ℕ) };

    ghost view = { λ t. terms_at t.query.now t.places.items };

    ghost invariant = { λ t. ArePlaces t.query.now t.places.items };
}

impl<'a> PresentTerms<'a> {
    /// The terms of a query that have a leaf in the dictionary.
    pub(crate) fn of(alloc: Global, query: &'a Query, spots: &[Spot]) -> Result<Self, OutOfMemory>
        requires { length spots.now ≡ length query.now }
        ensures { IfOk result (λ present. present ≡ standing query.now spots.now) }
    {
        let mut places = Vec::new(alloc);
        for i in 0..query.len() {
            match spots[i] {
                Spot::At(_) => places.push(i as u32)?,
                Spot::Between(_) => {}
            }
        }
        Ok(PresentTerms { query, places })
    }

    /// How many there are, at most 32.
    pub(crate) fn len(&self) -> usize
        ensures value { result ≡ length self.now }
        ensures few { result ≤ 32 }
        ensures rise { Rises self.now }
    {
        self.places.len()
    }

    /// Term `i`, counted from 0.
    pub(crate) fn term(&self, i: usize) -> &[u8]
        requires { i < length self.now }
        ensures value { (d : List ℕ × ℕ) → result.now ≡ (slice_index_or self.now i d).0 }
        ensures term { IsTerm result.now }
    {
        self.query.term(self.places[i] as usize)
    }
}
