//! What a proof shows of a tree, for whoever compares it with a tree of their own.

ghost use Rattle.std.specs.Prelude.{◌≡◌, ℕ, ◌+◌, ◌^◌, ◌<◌, ◌≤◌, List, ◌∷◌, length, drop, All, slice_get};
ghost use Rattle.std.specs.List.Sorted.{IsStrictlyIncreasing};
ghost use Rattle.ats_tree.specs.Shown.{Shown, positions_of, first_position, first_leaf};

use crate::hashed_string::HashedString;
use ats_hash::Steps;

/// Shown leaves with strictly rising positions, and digests, taken from the front as copies. It names no lifetime,
/// since a method of a trait cannot be stated under a bound that names one, as `Revealed` does.
pub trait PartialTree {
    /// The positions and bytes of the leaves left.
    ghost shown: { Self → List Shown };

    /// The digests left.
    ghost digests: { Self → List (List ℕ) };

    /// The position of the first leaf left, `None` if none is left.
    fn position(&self) -> Option<u32>
        ensures first { result ≡ first_position (shown self.now) }
        ensures rising { IsStrictlyIncreasing (positions_of (shown self.now)) }
        ensures sized { All (λ d. length d ≡ 32) (digests self.now) };

    /// Removes the first leaf left, and returns it after its tag.
    fn take_leaf(&mut self, steps: &mut Steps) -> HashedString
        requires left { 0 < length (shown self.old) }
        requires short { length (first_leaf (shown self.old)) ≤ 127 }
        requires space { steps.old + 1 < 2 ^ 64 }
        ensures string { result ≡ 0 ∷ first_leaf (shown self.old) }
        ensures passed { shown self.new ≡ drop 1 (shown self.old) }
        ensures others { digests self.new ≡ digests self.old }
        ensures cost { steps.new ≡ steps.old + 1 };

    /// Removes and returns the first digest left, `None` if none is left.
    fn take_digest(&mut self, steps: &mut Steps) -> Option<[u8; 32]>
        requires sized { All (λ d. length d ≡ 32) (digests self.old) }
        requires space { steps.old + 1 < 2 ^ 64 }
        ensures first { result ≡ slice_get (digests self.old) 0 }
        ensures passed { digests self.new ≡ drop 1 (digests self.old) }
        ensures others { shown self.new ≡ shown self.old }
        ensures cost { steps.new ≡ steps.old + 1 };
}
