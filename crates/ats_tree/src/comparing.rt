//! Whether what is shown of a tree is the tree's own.

ghost use Rattle.std.specs.Prelude.{◌≡◌, ℕ, ◌↔◌, ◌+◌, ◌*◌, ◌^◌, ◌<◌, ◌≤◌, List, [], length, take, drop, All, IsTrue};
ghost use Rattle.std.specs.List.Sorted.{IsStrictlyIncreasing};
ghost use Rattle.ats_tree.specs.Elided.{shown_with, elided_digests};
ghost use Rattle.ats_tree.specs.Kept.{kept_digests, elided_part, IsNodeList};
ghost use Rattle.ats_tree.specs.Inner.OwnShown.{IsOwnPart};
ghost use Rattle.ats_tree.specs.Part.{RisesFrom, shown_from};
ghost use Rattle.ats_tree.specs.Inner.Part.{RisesWithin};

use crate::cut::cut_of;
use crate::eliding::count_below;
use crate::node_strings::ShortLeaves;
use crate::partial_tree::PartialTree;
use ats_hash::Steps;

/// Whether what is left begins with the part of `n` leaves from position `from` on, whose nodes have the first of these
/// digests. If it does, the leaves before the part's end and the digests that it needs are taken.
pub(crate) fn begins_with_part<L: ShortLeaves, S: PartialTree>(
    digests: &[[u8; 32]],
    leaves: &L,
    from: u32,
    n: u32,
    shown: &mut S,
    steps: &mut Steps,
) -> bool
    requires some { 1 ≤ n }
    requires nodes { 2 * n ≤ length digests.now + 1 }
    requires sized { All (λ d. length d ≡ 32) digests.now }
    requires within { from + n ≤ length (L.items leaves.now) }
    requires ends { from + n < 2 ^ 32 }
    requires rising { RisesFrom from (S.shown shown.old) }
    requires short { All (λ s. length s.1 ≤ 127) (S.shown shown.old) }
    requires space { steps.old + n < 2 ^ 64 }
    ensures exact { IsTrue result
        ↔ IsOwnPart (L.items leaves.now) digests.now from n (S.shown shown.old) (S.digests shown.old) }
    ensures leaves_left { IsTrue result → S.shown shown.new ≡ shown_from (from + n) (S.shown shown.old) }
    ensures digests_left { IsTrue result → S.digests shown.new
        ≡ drop (length (elided_part digests.now from n (S.shown shown.old))) (S.digests shown.old) }
    ensures cost { steps.new ≤ steps.old + n }
{
    match shown.position() {
        Some(at) if at < from + n => {
            if n == 1 {
                return shown.take_leaf(steps).bytes() == leaves.leaf_string(from).bytes();
            }
            let k = cut_of(n);
            let right = 2 * k as usize;
            if !begins_with_part(&digests[1..], leaves, from, k, shown, steps) {
                return false;
            }
            begins_with_part(&digests[right..], leaves, from + k, n - k, shown, steps)
        }
        _ => match shown.take_digest(steps) {
            Some(theirs) => theirs == digests[0],
            None => false,
        },
    }
}

/// Whether the digests left begin with those that the leaves at `positions` need of the tree whose nodes have these
/// digests. If they do, they are taken. It only compares: nothing is hashed, and no memory is taken.
pub fn begins_with_elided<S: PartialTree>(
    digests: &[[u8; 32]],
    positions: &[u32],
    shown: &mut S,
    steps: &mut Steps,
) -> bool
    requires nodes { IsNodeList digests.now }
    requires rising { IsStrictlyIncreasing positions.now }
    requires below { All (λ p. 2 * p + 1 ≤ length digests.now) positions.now }
    requires theirs { All (λ d. length d ≡ 32) (S.digests shown.old) }
    requires space { steps.old + length digests.now < 2 ^ 64 }
    ensures exact { (H : List ℕ → List ℕ) (leaves : List (List ℕ)) → digests.now ≡ kept_digests H leaves
        → IsTrue result ↔ take (length (elided_digests H leaves positions.now)) (S.digests shown.old)
        ≡ elided_digests H leaves positions.now }
    ensures left { (H : List ℕ → List ℕ) (leaves : List (List ℕ)) → digests.now ≡ kept_digests H leaves
        → IsTrue result → S.digests shown.new
        ≡ drop (length (elided_digests H leaves positions.now)) (S.digests shown.old) }
    ensures rest { IsTrue result → All (λ d. length d ≡ 32) (S.digests shown.new) }
    ensures cost { steps.new ≤ steps.old + length digests.now }
{
    let n = digests.len() as u32 / 2 + 1;
    begins_with_elided_part(digests, 0, n, positions, shown, steps)
}

/// The same of the part of `n` leaves from position `from` on, whose nodes have the first of these digests.
fn begins_with_elided_part<S: PartialTree>(
    digests: &[[u8; 32]],
    from: u32,
    n: u32,
    positions: &[u32],
    shown: &mut S,
    steps: &mut Steps,
) -> bool
    requires some { 1 ≤ n }
    requires nodes { 2 * n ≤ length digests.now + 1 }
    requires sized { All (λ d. length d ≡ 32) digests.now }
    requires ends { from + n < 2 ^ 32 }
    requires rising { RisesWithin from (from + n) positions.now }
    requires theirs { All (λ d. length d ≡ 32) (S.digests shown.old) }
    requires space { steps.old + n < 2 ^ 64 }
    ensures exact { IsTrue result ↔ take (length (elided_part digests.now from n (shown_with [] positions.now)))
        (S.digests shown.old) ≡ elided_part digests.now from n (shown_with [] positions.now) }
    ensures left { IsTrue result → S.digests shown.new
        ≡ drop (length (elided_part digests.now from n (shown_with [] positions.now))) (S.digests shown.old) }
    ensures cost { steps.new ≤ steps.old + n }
{
    if positions.is_empty() {
        return match shown.take_digest(steps) {
            Some(theirs) => theirs == digests[0],
            None => false,
        };
    }
    if n == 1 {
        return true;
    }
    let k = cut_of(n);
    let right = 2 * k as usize;
    let (before, after) = positions.split_at(count_below(positions, from + k));
    if !begins_with_elided_part(&digests[1..], from, k, before, shown, steps) {
        return false;
    }
    begins_with_elided_part(&digests[right..], from + k, n - k, after, shown, steps)
}
