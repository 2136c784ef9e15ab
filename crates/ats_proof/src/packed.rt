//! A record of a few parts, put together before it is written.

ghost use Rattle.std.specs.Prelude.{◌≡◌, ◌+◌, ◌≤◌, ◌++◌, ◌∷◌, [], length};

use crate::record::FRONT_BYTES;
use std::marker::Model;

/// Up to 113 bytes without allocating: the longest record is the front.
#[derive(Drop)]
pub(crate) struct Packed {
    bytes: [u8; FRONT_BYTES],
    len: usize,
}

impl Model for Packed {
    ghost use Rattle.std.specs.Prelude.{List, ℕ, take, ◌≤◌};

    ghost Value = { List ℕ };

    ghost view = { λ p. take p.len p.bytes };

    ghost invariant = { λ p. p.len ≤ 113 };
}

impl Packed {
    pub(crate) fn new() -> Self
        ensures { result ≡ [] }
    {
        Packed {
            bytes: [0; FRONT_BYTES],
            len: 0,
        }
    }

    /// Appends bytes.
    pub(crate) fn put(&mut self, part: &[u8])
        requires { length self.old + length part.now ≤ 113 }
        ensures { self.new ≡ self.old ++ part.now }
    {
        let end = self.len + part.len();
        self.bytes[self.len..end].copy_from_slice(part);
        self.len = end;
    }

    /// Appends a term, after its length in one byte.
    pub(crate) fn put_term(&mut self, term: &[u8])
        requires short { length term.now ≤ 64 }
        requires space { length self.old + 65 ≤ 113 }
        ensures { self.new ≡ self.old ++ length term.now ∷ term.now }
    {
        self.put(&[term.len() as u8]);
        self.put(term);
    }

    pub(crate) fn as_slice(&self) -> &[u8]
        ensures { result.now ≡ self.now }
    {
        &self.bytes[..self.len]
    }
}
