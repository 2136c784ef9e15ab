//! The byte strings whose digests stand in a tree, by types that copy their bytes or lend them.

ghost use Rattle.std.specs.Prelude.{◌≡◌, ◌↔◌, ℕ, ◌+◌, ◌^◌, ◌<◌, List, ◌∷◌, ◌++◌, length, IsTrue};

use ats_hash::{Hash32, Steps};

/// A byte string that is hashed at a node of a tree, with its tag in front.
pub trait Preimage: Copy {
    /// Its bytes.
    ghost bytes: { Self → List ℕ };

    /// A leaf for whose string the type has room.
    ghost fits: { List ℕ → Type 0 };

    /// The string of a node whose parts have these digests.
    fn of_node(left: &[u8; 32], right: &[u8; 32]) -> Self
        ensures { bytes result ≡ 1 ∷ left.now ++ right.now };

    /// Whether both have the same bytes.
    fn is_same(&self, other: &Self) -> bool
        ensures { IsTrue result ↔ (bytes self.now ≡ bytes other.now) };

    /// The digest. It is one step.
    fn digest<H: Hash32>(&self, steps: &mut Steps) -> [u8; 32]
        requires tagged { 0 < length (bytes self.now) }
        requires space { steps.old + 1 < 2 ^ 64 }
        ensures value { result ≡ H.hash (bytes self.now) }
        ensures cost { steps.new ≡ steps.old + 1 };
}

/// A byte string for which the bytes of a leaf are lent for `'a`.
pub trait LeafPreimage<'a>: Preimage {
    /// The string of a leaf with these bytes.
    fn of_leaf(front: &'a [u8], back: &'a [u8]) -> Self
        requires { Self.fits (front.now ++ back.now) }
        ensures { Self.bytes result ≡ 0 ∷ front.now ++ back.now };
}
