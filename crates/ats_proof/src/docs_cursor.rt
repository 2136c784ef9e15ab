//! The documents section.

ghost use Rattle.std.specs.Prelude.{◌≡◌, ◌≤◌, ◌*◌, length};
ghost use Rattle.std.specs.List.Sorted.{IsStrictlyIncreasing};
ghost use Rattle.ats_proof.specs.Parts.{parts_in};
ghost use Rattle.ats_proof.specs.Reading.{id_size, id_in};

use crate::bytes::number_4;
use crate::digests::DigestRun;
use ats_doctree::DOC_LEAF_BYTES;
use ats_grammar::are_bytes;
use ats_hash::Steps;
use ats_tree::Revealed;

/// The leaves of the met documents that are left, each at its document's number, and the digests left.
#[derive(Clone, Copy)]
pub struct DocsCursor<'a> {
    pub(crate) left: u32,
    pub(crate) ids: &'a [u8],
    pub(crate) leaves: &'a [u8],
    pub(crate) digests: DigestRun<'a>,
    pub ghost ids_space: { left * 4 ≤ length ids.now },
    pub ghost leaves_space: { left * 36 ≤ length leaves.now },
    pub ghost rises: { IsStrictlyIncreasing (parts_in id_size id_in left ids.now) },
}

impl<'a> Revealed<'a> for DocsCursor<'a> {
    ghost use Rattle.std.specs.Prelude.{take};
    ghost use Rattle.ats_proof.specs.Seen.{digests_of};
    ghost use Rattle.ats_proof.specs.SeenDocs.{docs_leaves_of};

    ghost shown = { λ s. docs_leaves_of s };

    ghost digests = { λ s. digests_of s.digests };

    ghost front_part = { λ s. take 4 s.leaves.now };

    fn position(&self) -> Option<u32> {
        self.digests.facts();
        if self.left == 0 {
            return None;
        }
        Some(number_4(self.ids))
    }

    fn leaf_front(&self) -> &'a [u8] {
        self.leaves.split_at(4).0
    }

    fn leaf_back(&self) -> &'a [u8] {
        are_bytes(self.leaves);
        self.leaves.split_at(4).1.split_at(32).0
    }

    fn pass_leaf(&mut self, steps: &mut Steps) {
        steps.tick();
        *self = DocsCursor {
            left: self.left - 1,
            ids: self.ids.split_at(4).1,
            leaves: self.leaves.split_at(DOC_LEAF_BYTES).1,
            digests: self.digests,
        };
    }

    fn pass_digest(&mut self, steps: &mut Steps) -> Option<&'a [u8]> {
        self.digests.pass(steps)
    }
}
