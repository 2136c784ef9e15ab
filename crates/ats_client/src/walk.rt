//! The shown leaves of a section, in one pass.

ghost use Rattle.std.proofs.Props.{props};
ghost use Rattle.std.specs.Prelude.{◌≡◌, ◌≤◌, ◌+◌, ◌^◌, ◌↔◌, IsTrue, length, map, drop, slice_get, option_map};

use crate::section::{Section, lies_between, passed};
use ats_hash::Steps;
use ats_proof::Slot;

/// The shown leaves of a section from a place on. If places never fall, each leaf is passed once.
#[derive(Drop)]
pub(crate) struct Walk<S: Section> {
    all: S,
    left: S,
    place: u16,
    pub ghost stands: { S.leaves left ≡ drop place (S.leaves all) } by { Prim.hlevel (props, S.item_is_set) },
}

impl<S: Section> Walk<S> {
    ghost use Rattle.ats_client.specs.Slots.{ShowsTerm};

    /// All leaves.
    pub(crate) fn over(all: S) -> Self
        ensures all { result.all ≡ all }
        ensures left { result.left ≡ all }
        ensures place { result.place ≡ 0 }
    {
        Walk {
            all,
            left: all,
            place: 0,
        }
    }

    /// The leaf at a place. The walk goes there.
    pub(crate) fn leaf(&mut self, place: u16, steps: &mut Steps) -> Option<S::Leaf>
        requires space { steps.old ≤ 2 ^ 63 }
        ensures same { self.new.all ≡ self.old.all }
        ensures leaf { option_map S.item result ≡ slice_get (S.leaves self.old.all) place }
        ensures left { S.leaves self.new.left ≡ drop place (S.leaves self.old.all) }
        ensures place { self.new.place ≡ place }
        ensures cost { steps.new ≤ steps.old + 2 ^ 16 }
        ensures most { self.old.place ≤ place
            → steps.new + length (S.leaves self.new.left) ≤ steps.old + length (S.leaves self.old.left) }
    {
        let left = match place.checked_sub(self.place) {
            Some(count) => passed(self.left, count, steps),
            None => passed(self.all, place, steps),
        };
        *self = Walk {
            all: self.all,
            left,
            place,
        };
        left.first()
    }

    /// Whether the slot shows the term.
    pub(crate) fn shows(&mut self, term: &[u8], slot: Slot, steps: &mut Steps) -> bool
        requires space { steps.old ≤ 2 ^ 62 + 2 ^ 60 }
        ensures same { self.new.all ≡ self.old.all }
        ensures shows { IsTrue result ↔ ShowsTerm (map S.shown (S.leaves self.old.all)) term.now slot }
        ensures place { self.new.place ≡ slot.index }
        ensures cost { steps.new ≤ steps.old + 2 ^ 17 }
        ensures most { self.old.place ≤ slot.index
            → steps.new + length (S.leaves self.new.left) ≤ steps.old + length (S.leaves self.old.left) + 1 }
    {
        let Some(leaf) = self.leaf(slot.index, steps) else {
            return false;
        };
        if slot.present {
            return S::term(&leaf) == term;
        }
        match passed(self.left, 1, steps).first() {
            Some(next) => lies_between::<S>(term, &leaf, &next),
            None => false,
        }
    }
}
