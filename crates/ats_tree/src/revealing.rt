//! What a proof shows of a tree.

ghost use Rattle.std.specs.Prelude.{◌≡◌, ℕ, ◌+◌, ◌^◌, ◌<◌, List, ◌++◌, length, drop, All, slice_get};
ghost use Rattle.std.specs.List.Sorted.{IsStrictlyIncreasing};
ghost use Rattle.std.specs.Option.{option_copied};
ghost use Rattle.ats_tree.specs.Shown.{Shown, positions_of, first_position, first_leaf};

use ats_hash::Steps;

/// Shown leaves with strictly rising positions, and digests of 32 bytes. Both are taken from the front,
/// and their bytes are lent for `'a`.
pub trait Revealed<'a> {
    /// The positions and bytes of the leaves left.
    ghost shown: { Self → List Shown };

    /// The digests left.
    ghost digests: { Self → List (List ℕ) };

    /// The front part of the first leaf left. Each type chooses where it cuts a leaf in two.
    ghost front_part: { Self → List ℕ };

    /// The position of the first leaf left, `None` if none is left.
    fn position(&self) -> Option<u32>
        ensures first { result ≡ first_position (shown self.now) }
        ensures rising { IsStrictlyIncreasing (positions_of (shown self.now)) }
        ensures sized { All (λ d. length d ≡ 32) (digests self.now) };

    /// The front part of the first leaf left.
    fn leaf_front(&self) -> &'a [u8]
        requires { 0 < length (shown self.now) }
        ensures { result.now ≡ front_part self.now };

    /// The rest of the first leaf left.
    fn leaf_back(&self) -> &'a [u8]
        requires { 0 < length (shown self.now) }
        ensures { front_part self.now ++ result.now ≡ first_leaf (shown self.now) };

    /// Removes the first leaf left. It is one step.
    fn pass_leaf(&mut self, steps: &mut Steps)
        requires left { 0 < length (shown self.old) }
        requires space { steps.old + 1 < 2 ^ 64 }
        ensures passed { shown self.new ≡ drop 1 (shown self.old) }
        ensures others { digests self.new ≡ digests self.old }
        ensures cost { steps.new ≡ steps.old + 1 };

    /// Removes and returns the first digest left, `None` if none is left. It is one step.
    fn pass_digest(&mut self, steps: &mut Steps) -> Option<&'a [u8]>
        requires { steps.old + 1 < 2 ^ 64 }
        ensures first { option_copied result ≡ slice_get (digests self.old) 0 }
        ensures passed { digests self.new ≡ drop 1 (digests self.old) }
        ensures others { shown self.new ≡ shown self.old }
        ensures cost { steps.new ≡ steps.old + 1 };
}
