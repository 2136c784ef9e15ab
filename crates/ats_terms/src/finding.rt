//! The search for a term among terms in byte order.

ghost use Rattle.std.specs.Prelude.{◌≡◌, ◌+◌, ◌<◌, ◌≤◌, ℕ, List, length, slice_index};
ghost use Rattle.ats_terms.specs.Found.{IsSpot, RiseBetweenSentinels};

use crate::spot::Spot;
use std::cmp::Ordering;

/// Terms that rise strictly in byte order between two sentinels. The low sentinel is the empty term, the high one is
/// the single byte 0xFF. Positions count from 0 and include the sentinels.
pub trait SortedTerms {
    /// The number of terms between the sentinels.
    ghost count: { Self → ℕ };

    /// The term of each position.
    ghost at: { Self → ℕ → List ℕ };

    /// The number of positions, sentinels included.
    fn positions(&self) -> u32
        ensures value { result ≡ count self.now + 2 }
        ensures rise { RiseBetweenSentinels (at self.now) (count self.now) };

    /// The term at position `p`.
    fn term_at(&self, p: u32) -> &[u8]
        requires { p < count self.now + 2 }
        ensures { result.now ≡ at self.now p };
}

/// Finds the place of a term. The term must not be empty and must not begin with 0xFF.
pub fn find<S: SortedTerms>(terms: &S, term: &[u8]) -> Spot
    requires some { 1 ≤ length term.now }
    requires front { slice_index term.now 0 < 255 }
    ensures spot { IsSpot (S.at terms.now) (S.count terms.now) term.now result }
    ensures only { (p : ℕ) → p < S.count terms.now + 2 → S.at terms.now p ≡ term.now → result ≡ Spot.At p }
{
    let mut below: u32 = 0;
    let mut above = terms.positions() - 1;
    'halves: while above - below > 1 {
        let middle = below + (above - below) / 2;
        match term.cmp(terms.term_at(middle)) {
            Ordering::Less => above = middle,
            Ordering::Equal => return Spot::At(middle),
            Ordering::Greater => below = middle,
        }
    }
    Spot::Between(below)
}
