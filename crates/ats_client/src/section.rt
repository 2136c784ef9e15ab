//! A section of shown leaves, each of which has a term.

ghost use Rattle.std.specs.Prelude.{◌≡◌, ◌≤◌, ◌+◌, ◌^◌, ◌↔◌, ◌⊎◌, IsTrue, List, [], length, drop, slice_get, option_map};
ghost use Rattle.ats_dict.specs.Dictionary.{IsBelow};
ghost use Rattle.ats_client.specs.Slots.{Shown};

use ats_hash::Steps;
use std::cmp::Ordering;

/// The leaves left of the section of a tree of terms: of the dictionary, or of a document's terms.
pub(crate) trait Section: Copy {
    /// A leaf as it is lent, with its position in the tree.
    type Leaf: Copy;

    /// The content of a leaf.
    ghost Item: { Type 0 };

    /// Contents are a set, so that a walk can keep its place.
    ghost item_is_set: { IsSet Item };

    /// The contents of the leaves left.
    ghost leaves: { Self → List Item };

    /// The content of a lent leaf.
    ghost item: { Self.Leaf → Item };

    /// The position and the term of a leaf.
    ghost shown: { Item → Shown };

    /// The first leaf left.
    fn first(&self) -> Option<Self::Leaf>
        ensures { option_map item result ≡ slice_get (leaves self.now) 0 };

    /// Its position in the tree.
    fn position(leaf: &Self::Leaf) -> u32
        ensures { result ≡ (shown (item leaf.now)).position };

    /// Its term.
    fn term(leaf: &Self::Leaf) -> &[u8]
        ensures { result.now ≡ (shown (item leaf.now)).term };

    /// Removes the first leaf left. Returns false if none is left.
    fn pass(&mut self, steps: &mut Steps) -> bool
        requires space { steps.old ≤ 2 ^ 63 + 2 ^ 16 }
        ensures end { IsTrue result ⊎ (leaves self.old ≡ []) }
        ensures passed { leaves self.new ≡ drop 1 (leaves self.old) }
        ensures cost { steps.new ≤ steps.old + 1 }
        ensures most { steps.new + length (leaves self.new) ≤ steps.old + length (leaves self.old) };
}

/// The section without its first `count` leaves, or without all if there are fewer.
pub(crate) fn passed<S: Section>(section: S, count: u16, steps: &mut Steps) -> S
    requires space { steps.old ≤ 2 ^ 63 }
    ensures passed { S.leaves result ≡ drop count (S.leaves section) }
    ensures cost { steps.new ≤ steps.old + count }
    ensures most { steps.new + length (S.leaves result) ≤ steps.old + length (S.leaves section) }
{
    let mut left = section;
    for _i in 0..count {
        if !left.pass(steps) {
            return left;
        }
    }
    left
}

/// Whether the leaves are neighbours and the term lies between theirs.
pub(crate) fn lies_between<S: Section>(term: &[u8], leaf: &S::Leaf, next: &S::Leaf) -> bool
    ensures { IsTrue result ↔ (((S.shown (S.item next.now)).position ≡ (S.shown (S.item leaf.now)).position + 1)
        × IsBelow (S.shown (S.item leaf.now)).term term.now × IsBelow term.now (S.shown (S.item next.now)).term) }
{
    S::position(next).checked_sub(S::position(leaf)) == Some(1)
        && S::term(leaf).cmp(term) == Ordering::Less
        && term.cmp(S::term(next)) == Ordering::Less
}
