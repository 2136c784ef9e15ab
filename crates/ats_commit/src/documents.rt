//! The documents as the leaves of their tree.

ghost use Rattle.std.specs.Prelude.{◌≤◌, length, map};
ghost use Rattle.ats_commit.specs.Trees.{leaf_of};

use ats_doctree::DocLeaf;
use ats_hash::{Hash32, Steps};
use ats_tree::{HashedString, Leaves, ShortLeaves};

/// The leaves of the documents tree: for each document the number of leaves of its terms tree in 4 bytes,
/// high byte first, then that tree's root.
#[derive(Drop)]
pub struct DocLeaves<'a> {
    pub leaves: &'a [DocLeaf],
    ghost few: { length leaves.now ≤ 65536 },
}

impl Leaves for DocLeaves<'_> {
    ghost items = { λ documents. map leaf_of documents.leaves.now };

    fn len(&self) -> u32 {
        self.leaves.len() as u32
    }

    fn leaf_digest<H: Hash32>(&self, i: u32, steps: &mut Steps) -> [u8; 32] {
        H::digest2(0, &self.leaves[i as usize].bytes(), &[], steps)
    }
}

impl ShortLeaves for DocLeaves<'_> {
    fn leaf_string(&self, i: u32) -> HashedString {
        let leaf = &self.leaves[i as usize];
        HashedString::tagged(0, &leaf.bytes(), &[])
    }
}
