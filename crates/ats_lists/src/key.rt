//! A term as a map key.

ghost use Rattle.std.specs.Prelude.{◌≡◌, Some, nat_eq, refl, IfOk};
ghost use Rattle.std.proofs.Common.{sym};
ghost use Rattle.std.specs.Cmp.{partial_equiv_from_equiv, partial_order_from_agreeing_total};
ghost use Rattle.std.specs.Cmp.Lexicographic.{nat_list_cmp_total, nat_list_eq_equiv, pointwise};
ghost use Rattle.ats_terms.specs.Front.{front as front_of, AreBytes};
ghost use Rattle.ats_terms.specs.Query.{byte_cmp};
ghost use Rattle.std.proofs.lemmas.Map.Text.{is_eq-slice_cmp};

use crate::memory::OutOfMemory;
use ats_terms::{cmp_by_front, front};
use std::alloc::Global;
use std::cmp::Ordering;
use std::marker::Model;

/// A term in byte order. Most comparisons need only the numbers of the first bytes, and do not read the terms.
#[derive(Drop)]
pub(crate) struct Key {
    front: u64,
    term: Vec<u8>,
}

impl Model for Key {
    ghost use Rattle.std.specs.Prelude.{◌≡◌, List, ℕ};
    ghost use Rattle.ats_terms.specs.Front.{front as front_of, AreBytes};

    ghost Value = { List ℕ };

    ghost view = { λ k. k.term.items };

    ghost invariant = { λ k. (k.front ≡ front_of 8 k.term.items) × AreBytes k.term.items };
}

impl Key {
    /// The key of a term, which is copied.
    pub(crate) fn of(alloc: Global, term: &[u8]) -> Result<Self, OutOfMemory>
        ensures { IfOk result (λ key. key ≡ term.now) }
    {
        Ok(Key {
            front: front(term),
            term: Vec::from_slice(alloc, term)?,
        })
    }

    /// The number of the first 8 bytes.
    pub(crate) fn front(&self) -> u64
        ensures value { result ≡ front_of 8 self.now }
        ensures bytes { AreBytes self.now }
    {
        self.front
    }

    pub(crate) fn term(&self) -> &[u8]
        ensures { result.now ≡ self.now }
    {
        self.term.as_slice()
    }

    pub(crate) fn into_term(self) -> Vec<u8>
        ensures { result.items ≡ self }
    {
        let Key { front: _, term } = self;
        term
    }
}

impl PartialEq for Key {
    ghost eq = { pointwise nat_eq };

    ghost laws = { partial_equiv_from_equiv nat_list_eq_equiv };

    fn eq(&self, other: &Self) -> bool {
        self.term == other.term
    }
}

impl Eq for Key {
    ghost laws = { nat_list_eq_equiv };
}

impl PartialOrd for Key {
    ghost partial_cmp = { λ x y. Some (byte_cmp x y) };

    ghost laws = { partial_order_from_agreeing_total byte_cmp nat_list_cmp_total
        (λ x y. refl) (λ x y. sym (is_eq-slice_cmp x y)) };

    fn partial_cmp(&self, other: &Self) -> Option<Ordering> {
        Some(self.cmp(other))
    }
}

impl Ord for Key {
    ghost cmp = { byte_cmp };

    ghost total = { nat_list_cmp_total };

    ghost matches_partial_cmp = { λ x y. refl };

    ghost matches_eq = { λ x y. sym (is_eq-slice_cmp x y) };

    fn cmp(&self, other: &Self) -> Ordering {
        cmp_by_front(self.front, &self.term, other.front, &other.term)
    }
}
