//! The texts as the leaves of their tree.

ghost use Rattle.std.specs.Prelude.{◌≡◌, ◌<◌, ◌≤◌, ◌+◌, length, slice_range};

use ats_hash::{Hash32, Steps};
use ats_impact::Collection;
use ats_tree::Leaves;
use std::marker::Model;

/// The leaves of the texts tree, or of a part of it: the bytes of the texts of consecutive documents. The texts are
/// lent and not copied.
#[derive(Drop)]
pub struct TextLeaves<'a> {
    collection: &'a Collection,
    from: u32,
    to: u32,
}

impl<'a> Model for TextLeaves<'a> {
    ghost use Rattle.std.specs.Prelude.{List, ℕ, length, slice_range};
    ghost use Rattle.ats_commit.specs.Inner.Trees.{IsRange};

    ghost Value = { List (List ℕ) };

    ghost view = { λ t. slice_range t.collection.now t.from t.to };

    ghost invariant = { λ t. IsRange t.from t.to (length t.collection.now) };
}

impl<'a> TextLeaves<'a> {
    /// The texts of the documents from `from` to `to - 1`, counted from 0.
    pub fn new(collection: &'a Collection, from: u32, to: u32) -> Self
        requires some { from < to }
        requires within { to ≤ length collection.now }
        ensures value { result ≡ slice_range collection.now from to }
        ensures count { length result + from ≡ to }
        ensures whole { from ≡ 0 → to ≡ length collection.now → result ≡ collection.now }
    {
        TextLeaves {
            collection,
            from,
            to,
        }
    }
}

impl Leaves for TextLeaves<'_> {
    ghost items = { λ texts. texts };

    fn len(&self) -> u32 {
        self.to - self.from
    }

    fn leaf_digest<H: Hash32>(&self, i: u32, steps: &mut Steps) -> [u8; 32] {
        let text = self.collection.text(self.from + i);
        H::digest2(0, text.as_bytes(), &[], steps)
    }
}
