//! The source of leaves and digests for the recursion over a tree.

ghost use Rattle.std.specs.Prelude.{◌≡◌, ℕ, ◌+◌, ◌^◌, ◌<◌, ◌≤◌, List, ◌∷◌, length, drop, All, slice_get};
ghost use Rattle.std.proofs.Common.{◌∙◌};
ghost use Rattle.ats_tree.specs.Shown.{Shown, first_position, first_leaf};

use crate::preimage::{LeafPreimage, Preimage};
use crate::revealing::Revealed;
use ats_hash::{Hash32, Steps};
use std::marker::PhantomData;

/// Leaves and digests, taken from the front. It names no lifetime, since no proof is generated for a recursion under a
/// bound that names one, as `Revealed` does.
pub(crate) trait Remaining {
    /// The positions and bytes of the leaves left.
    ghost leaves: { Self → List Shown };

    /// The digests left.
    ghost others: { Self → List (List ℕ) };

    /// It still takes from the same place.
    ghost stays: { Self → Self → Type 0 };

    /// The position of the first leaf left.
    fn first_position(&self) -> Option<u32>
        ensures first { result ≡ first_position (leaves self.now) }
        ensures sized { All (λ d. length d ≡ 32) (others self.now) };

    /// Removes the first leaf left, and returns its digest.
    fn take_leaf<H: Hash32>(&mut self, steps: &mut Steps) -> [u8; 32]
        requires left { 0 < length (leaves self.old) }
        requires space { steps.old + 2 < 2 ^ 64 }
        ensures value { result ≡ H.hash (0 ∷ first_leaf (leaves self.old)) }
        ensures passed { leaves self.new ≡ drop 1 (leaves self.old) }
        ensures same { others self.new ≡ others self.old }
        ensures still { stays self.old self.new }
        ensures cost { steps.new ≡ steps.old + 2 };

    /// Removes and returns the first digest left, if there is one.
    fn take_digest(&mut self, steps: &mut Steps) -> Option<[u8; 32]>
        requires sized { All (λ d. length d ≡ 32) (others self.old) }
        requires space { steps.old + 1 < 2 ^ 64 }
        ensures first { result ≡ slice_get (others self.old) 0 }
        ensures passed { others self.new ≡ drop 1 (others self.old) }
        ensures same { leaves self.new ≡ leaves self.old }
        ensures still { stays self.old self.new }
        ensures cost { steps.new ≡ steps.old + 1 };

    ghost stays_twice: { (x y z : Self) → stays x y → stays y z → stays x z };
}

/// A source whose first leaf is seen as a string.
pub(crate) trait RemainingLeaves<S: Preimage>: Remaining {
    /// The first leaf left, under its tag.
    fn first_string(&self) -> S
        requires left { 0 < length (Self.leaves self.now) }
        requires fits { S.fits (first_leaf (Self.leaves self.now)) }
        ensures { S.bytes result ≡ 0 ∷ first_leaf (Self.leaves self.now) };
}

/// A `Revealed` that is lent to the recursion.
pub(crate) struct Lent<'a, 'r, R> {
    pub(crate) revealed: &'r mut R,
    pub(crate) lends: PhantomData<&'a u8>,
}

impl<'a, R: Revealed<'a>> Remaining for Lent<'a, '_, R> {
    ghost leaves = { λ s. R.shown s.revealed.now };

    ghost others = { λ s. R.digests s.revealed.now };

    ghost stays = { λ s t. t.revealed.ghost_name ≡ s.revealed.ghost_name };

    ghost stays_twice = { λ x y z p q. q ∙ p };

    fn first_position(&self) -> Option<u32> {
        self.revealed.position()
    }

    fn take_leaf<H: Hash32>(&mut self, steps: &mut Steps) -> [u8; 32] {
        let front = self.revealed.leaf_front();
        let back = self.revealed.leaf_back();
        let digest = H::digest2(0, front, back, steps);
        self.revealed.pass_leaf(steps);
        digest
    }

    fn take_digest(&mut self, steps: &mut Steps) -> Option<[u8; 32]> {
        match self.revealed.pass_digest(steps) {
            Some(bytes) => Some(digest_from(bytes)),
            None => None,
        }
    }
}

impl<'a, R: Revealed<'a>, S: LeafPreimage<'a>> RemainingLeaves<S> for Lent<'a, '_, R> {
    fn first_string(&self) -> S {
        S::of_leaf(self.revealed.leaf_front(), self.revealed.leaf_back())
    }
}

/// The 32 bytes of a digest.
fn digest_from(bytes: &[u8]) -> [u8; 32]
    requires { length bytes.now ≡ 32 }
    ensures { result ≡ bytes.now }
{
    let mut digest = [0; 32];
    digest.copy_from_slice(bytes);
    digest
}
