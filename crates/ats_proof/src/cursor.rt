//! A prefix as leaves of its list.

ghost use Rattle.std.specs.Prelude.{◌≡◌, ◌≤◌, ◌<◌, ◌+◌, ◌*◌, ◌^◌, length};
ghost use Rattle.ats_proof.specs.Parts.{total_size};
ghost use Rattle.ats_proof.specs.Runs.{AreNamed};

use crate::bytes::{nth, number_4};
use crate::digests::DigestRun;
use crate::lists::ListView;
use crate::record::ENTRY_BYTES;
use crate::view::ProofView;
use ats_grammar::are_bytes;
use ats_hash::Steps;
use ats_tree::Revealed;

/// The entries of a prefix that are left, as leaves of the list's tree, and the digests left. The position
/// of a leaf is the entry's number in the list, and its first four bytes are the met id that it names.
#[derive(Clone, Copy)]
pub struct ListCursor<'a> {
    pub(crate) at: u32,
    pub(crate) left: u32,
    pub(crate) entries: &'a [u8],
    pub(crate) met: u32,
    pub(crate) ids: &'a [u8],
    pub(crate) digests: DigestRun<'a>,
    pub ghost few: { at + left < 2 ^ 32 },
    pub ghost space: { left * 6 ≤ length entries.now },
    pub ghost ids_space: { met * 4 ≤ length ids.now },
    pub ghost named: { AreNamed met left entries.now },
}

impl<'a> ListView<'a> {
    ghost use Rattle.std.specs.List.{All};
    ghost use Rattle.ats_proof.specs.Runs.{shown_list};
    ghost use Rattle.ats_proof.specs.Seen.{digests_of};
    ghost use Rattle.ats_proof.specs.SeenLists.{list_of};
    ghost use Rattle.ats_proof.specs.SeenCursor.{list_leaves_of};

    /// The entries as leaves, with the document numbers of the proof. Each entry names a met document.
    pub fn revealed(&self, proof: &ProofView<'a>) -> ListCursor<'a>
        requires { All (λ e. e.doc < length proof.now.met) (list_of self.now).entries }
        ensures shown { list_leaves_of result ≡ shown_list 0 proof.now.met (list_of self.now).entries }
        ensures digests { digests_of result.digests ≡ (list_of self.now).digests }
    {
        ListCursor {
            at: 0,
            left: self.count,
            entries: self.entries,
            met: proof.begun.met,
            ids: proof.bytes.split_at(proof.begun.met_at + 4).1,
            digests: self.digests,
        }
    }
}

impl<'a> Revealed<'a> for ListCursor<'a> {
    ghost use Rattle.ats_proof.specs.Seen.{digests_of};
    ghost use Rattle.ats_proof.specs.SeenCursor.{list_leaves_of, id_front};

    ghost shown = { λ s. list_leaves_of s };

    ghost digests = { λ s. digests_of s.digests };

    ghost front_part = { λ s. id_front s.ids.now s.entries.now };

    fn position(&self) -> Option<u32> {
        self.digests.facts();
        if self.left == 0 {
            return None;
        }
        Some(self.at)
    }

    fn leaf_front(&self) -> &'a [u8] {
        nth(self.ids, self.met, 4, number_4(self.entries))
            .split_at(4)
            .0
    }

    fn leaf_back(&self) -> &'a [u8] {
        are_bytes(self.ids);
        are_bytes(self.entries);
        self.entries.split_at(4).1.split_at(2).0
    }

    fn pass_leaf(&mut self, steps: &mut Steps) {
        steps.tick();
        *self = ListCursor {
            at: self.at + 1,
            left: self.left - 1,
            entries: self.entries.split_at(ENTRY_BYTES).1,
            met: self.met,
            ids: self.ids,
            digests: self.digests,
        };
    }

    fn pass_digest(&mut self, steps: &mut Steps) -> Option<&'a [u8]> {
        self.digests.pass(steps)
    }
}
