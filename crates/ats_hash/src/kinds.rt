//! What a hash function is, for contracts and for code.

ghost use Rattle.std.specs.Prelude.{◌≡◌, ℕ, ◌+◌, ◌^◌, ◌<◌, List, ◌∷◌, ◌++◌, length};

use crate::counter::Steps;

/// One function from byte strings to 32 bytes. It has no method that code can call: code that knows only this about a
/// type cannot compute a digest.
pub trait HashKind {
    /// The digest of a byte string.
    ghost hash: { List ℕ → List ℕ };

    /// A digest has 32 bytes.
    ghost sized: { (bytes : List ℕ) → length (hash bytes) ≡ 32 };
}

/// A hash function that can be computed.
pub trait Hash32: HashKind {
    /// The digest of the byte `tag`, then `a`, then `b`, joined. It is one step.
    fn digest2(tag: u8, a: &[u8], b: &[u8], steps: &mut Steps) -> [u8; 32]
        requires { steps.old + 1 < 2 ^ 64 }
        ensures value { result ≡ Self.hash (tag ∷ a.now ++ b.now) }
        ensures cost { steps.new ≡ steps.old + 1 };
}
