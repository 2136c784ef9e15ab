//! A byte string that is hashed.

ghost use Rattle.std.specs.Prelude.{◌≡◌, ◌+◌, ◌≤◌, ◌++◌, ◌∷◌, [], length};

use crate::preimage::{LeafPreimage, Preimage};
use ats_hash::{Hash32, Steps};
use std::marker::Model;

const ROOM: usize = 128;

/// A byte string that is hashed in a tree, or a header's, with its tag in front: at most 128 bytes. It allocates
/// nothing. The longest that an archive has is a header's, of 106 bytes.
#[derive(Clone, Copy, Debug, PartialEq, Eq)]
pub struct HashedString {
    bytes: [u8; ROOM],
    len: usize,
}

impl Model for HashedString {
    ghost use Rattle.std.specs.Prelude.{List, ℕ, ◌-◌, ◌++◌, length, take, replicate};
    ghost use Rattle.ats_tree.specs.Inner.Padded.{IsPadded, padded-block, padded-len};

    ghost Value = { List ℕ };

    ghost view = { λ s. take s.len s.bytes };

    ghost invariant = { λ s. IsPadded s.len s.bytes };

    ghost inverse = { λ text. record { bytes = text ++ replicate (128 - length text) 0; len = length text } };

    ghost inverse_ok = { λ s h i.
        record { bytes = padded-block s.len s.bytes h i; len = padded-len s.len s.bytes h i } };
}

impl HashedString {
    /// No bytes.
    pub fn new() -> Self
        ensures { result ≡ [] }
    {
        HashedString {
            bytes: [0; ROOM],
            len: 0,
        }
    }

    /// The string whose digest `digest2` returns: the byte `tag`, then `a`, then `b`.
    pub fn tagged(tag: u8, a: &[u8], b: &[u8]) -> Self
        requires { length a.now + length b.now ≤ 127 }
        ensures { result ≡ tag ∷ a.now ++ b.now }
    {
        let mut string = HashedString::new();
        string.push(&[tag]);
        string.push(a);
        string.push(b);
        string
    }

    /// Appends bytes.
    pub fn push(&mut self, bytes: &[u8])
        requires { length self.old + length bytes.now ≤ 128 }
        ensures { self.new ≡ self.old ++ bytes.now }
    {
        let end = self.len + bytes.len();
        self.bytes[self.len..end].copy_from_slice(bytes);
        self.len = end;
    }

    /// The bytes, lent.
    pub fn bytes(&self) -> &[u8]
        ensures value { result.now ≡ self.now }
        ensures few { length result.now ≤ 128 }
    {
        &self.bytes[..self.len]
    }
}

impl Preimage for HashedString {
    ghost bytes = { λ s. s };

    ghost fits = { λ leaf. length leaf ≤ 127 };

    fn of_node(left: &[u8; 32], right: &[u8; 32]) -> HashedString {
        HashedString::tagged(1, left, right)
    }

    fn is_same(&self, other: &HashedString) -> bool {
        self.bytes() == other.bytes()
    }

    fn digest<H: Hash32>(&self, steps: &mut Steps) -> [u8; 32] {
        match self.bytes() {
            [tag, rest @ ..] => H::digest2(*tag, rest, &[], steps),
            [] => unreachable!(),
        }
    }
}

impl<'a> LeafPreimage<'a> for HashedString {
    fn of_leaf(front: &'a [u8], back: &'a [u8]) -> HashedString {
        HashedString::tagged(0, front, back)
    }
}
