//! Shown leaves of the dictionary.

use crate::section::Section;
use ats_dict::DictLeaf;
use ats_hash::Steps;
use ats_proof::DictView;
use ats_tree::Revealed;

/// A shown leaf of the dictionary, with its position there.
#[derive(Clone, Copy)]
pub(crate) struct Leaf<'a> {
    pub(crate) position: u32,
    pub(crate) entry: DictLeaf<'a>,
}

impl<'a> Section for DictView<'a> {
    ghost use Rattle.std.proofs.Props.{props};
    ghost use Rattle.ats_proof.specs.Value.{ShownEntry};
    ghost use Rattle.ats_client.specs.Inner.Seen.{entries_left, shown_of};
    ghost use Rattle.ats_client.specs.Slots.{entry_shown};

    type Leaf = Leaf<'a>;

    ghost Item = { ShownEntry };

    ghost item_is_set = { Prim.hlevel props };

    ghost leaves = { entries_left };

    ghost item = { shown_of };

    ghost shown = { entry_shown };

    #[tactic(auto, unfolding(crate::specs::Inner::Seen::entries_left))]
    fn first(&self) -> Option<Leaf<'a>> {
        let entry = self.leaf()?;
        let position = Revealed::position(self)?;
        Some(Leaf { position, entry })
    }

    fn position(leaf: &Leaf<'a>) -> u32 {
        leaf.position
    }

    fn term<'b>(leaf: &'b Leaf<'a>) -> &'b [u8] {
        leaf.entry.term
    }

    #[tactic(auto, unfolding(crate::specs::Inner::Seen::entries_left))]
    fn pass(&mut self, steps: &mut Steps) -> bool {
        if self.leaf().is_none() {
            return false;
        }
        self.pass_leaf(steps);
        true
    }
}
