//! A term as a sort key.

ghost use Rattle.std.specs.Prelude.{◌≡◌, Some, nat_eq, refl};
ghost use Rattle.std.proofs.Common.{sym};
ghost use Rattle.std.specs.Cmp.{partial_equiv_from_equiv, partial_order_from_agreeing_total};
ghost use Rattle.std.specs.Cmp.Lexicographic.{nat_list_cmp_total, nat_list_eq_equiv, pointwise};
ghost use Rattle.ats_terms.specs.Order.{byte_cmp};
ghost use Rattle.std.proofs.lemmas.Map.Text.{is_eq-slice_cmp};

use crate::leading::{cmp_by_front, front};
use std::cmp::Ordering;
use std::marker::Model;

/// A lent term in byte order. Most comparisons need only the numbers of the first bytes, and do not read the terms.
#[derive(Drop)]
pub(crate) struct Key<'a> {
    front: u64,
    term: &'a [u8],
}

impl<'a> Model for Key<'a> {
    ghost use Rattle.std.specs.Prelude.{◌≡◌, List, ℕ};
    ghost use Rattle.ats_terms.specs.Front.{front as front_of, AreBytes};

    ghost Value = { List ℕ };

    ghost view = { λ k. k.term.now };

    ghost invariant = { λ k. (k.front ≡ front_of 8 k.term.now) × AreBytes k.term.now };
}

impl<'a> Key<'a> {
    /// The key of a term, which stays where it is.
    pub(crate) fn of(term: &'a [u8]) -> Self
        ensures { result ≡ term.now }
    {
        Key {
            front: front(term),
            term,
        }
    }

    pub(crate) fn term(&self) -> &'a [u8]
        ensures { result.now ≡ self.now }
    {
        self.term
    }
}

impl<'a> PartialEq for Key<'a> {
    ghost eq = { pointwise nat_eq };

    ghost laws = { partial_equiv_from_equiv nat_list_eq_equiv };

    fn eq(&self, other: &Self) -> bool {
        self.front == other.front && self.term == other.term
    }
}

impl<'a> Eq for Key<'a> {
    ghost laws = { nat_list_eq_equiv };
}

impl<'a> PartialOrd for Key<'a> {
    ghost partial_cmp = { λ x y. Some (byte_cmp x y) };

    ghost laws = { partial_order_from_agreeing_total byte_cmp nat_list_cmp_total
        (λ x y. refl) (λ x y. sym (is_eq-slice_cmp x y)) };

    fn partial_cmp(&self, other: &Self) -> Option<Ordering> {
        Some(self.cmp(other))
    }
}

impl<'a> Ord for Key<'a> {
    ghost cmp = { byte_cmp };

    ghost total = { nat_list_cmp_total };

    ghost matches_partial_cmp = { λ x y. refl };

    ghost matches_eq = { λ x y. sym (is_eq-slice_cmp x y) };

    fn cmp(&self, other: &Self) -> Ordering {
        cmp_by_front(self.front, self.term, other.front, other.term)
    }
}
