//! A list as the leaves of its tree.

ghost use Rattle.std.specs.Prelude.{◌≤◌, length, map};
ghost use Rattle.ats_lists.specs.Leaf.{leaf_bytes};

use ats_hash::{Hash32, Steps};
use ats_postings::Entry;
use ats_tree::{HashedString, Leaves, ShortLeaves};

/// The leaves of the tree of a list: for each entry the document in 4 bytes, then the impact in 2 bytes,
/// high byte first.
#[derive(Drop)]
pub struct ListLeaves<'a> {
    pub entries: &'a [Entry],
    ghost few: { length entries.now ≤ 65536 },
}

impl Leaves for ListLeaves<'_> {
    ghost items = { λ list. map leaf_bytes list.entries.now };

    fn len(&self) -> u32 {
        self.entries.len() as u32
    }

    fn leaf_digest<H: Hash32>(&self, i: u32, steps: &mut Steps) -> [u8; 32] {
        let entry = self.entries[i as usize];
        H::digest2(
            0,
            &entry.doc.to_be_bytes(),
            &entry.impact.to_be_bytes(),
            steps,
        )
    }
}

impl ShortLeaves for ListLeaves<'_> {
    fn leaf_string(&self, i: u32) -> HashedString {
        let entry = self.entries[i as usize];
        HashedString::tagged(0, &entry.doc.to_be_bytes(), &entry.impact.to_be_bytes())
    }
}
