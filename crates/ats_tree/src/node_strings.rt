//! The string that is hashed at a node of a tree.

ghost use Rattle.std.specs.Prelude.{◌≡◌, ◌+◌, ◌*◌, ◌^◌, ◌<◌, ◌≤◌, [], ◌∷◌, length, take, drop, All, slice_index_or};
ghost use Rattle.ats_tree.specs.Kept.{kept_digests};
ghost use Rattle.ats_tree.specs.Tree.{tree_of};
ghost use Rattle.ats_tree.specs.Paths.{path_of};
ghost use Rattle.ats_tree.specs.Strings.{string_at};

use crate::cut::cut_of;
use crate::hashed_string::HashedString;
use crate::hashing::Leaves;
use ats_hash::HashKind;

/// Leaves of at most 127 bytes each, so that each fits in a [`HashedString`] after its tag.
pub trait ShortLeaves: Leaves {
    /// The string whose digest `leaf_digest` returns: the tag 0, then leaf `i`, from 0.
    fn leaf_string(&self, i: u32) -> HashedString
        requires { i < length (Self.items self.now) }
        ensures { result ≡ 0 ∷ slice_index_or (Self.items self.now) i [] };
}

/// The string at the node to which the turns lead from the root of the part of `n` leaves from leaf `from` on, whose
/// nodes have these digests: its own first, then those of its left part, then those of its right part.
pub fn string_of_part<H: HashKind, L: ShortLeaves>(
    digests: &[[u8; 32]],
    leaves: &L,
    from: u32,
    n: u32,
    depth: u8,
    turns: u32,
) -> Option<HashedString>
    requires nodes { length digests.now + 1 ≡ 2 * n }
    requires sized { All (λ d. length d ≡ 32) digests.now }
    requires within { from + n ≤ length (L.items leaves.now) }
    requires ends { from + n < 2 ^ 32 }
    requires shallow { depth ≤ 32 }
    requires kept { digests.now ≡ kept_digests H.hash (take n (drop from (L.items leaves.now))) }
    ensures { result ≡ string_at H.hash (tree_of (take n (drop from (L.items leaves.now)))) (path_of depth turns) }
{
    if n == 1 {
        return if depth == 0 {
            Some(leaves.leaf_string(from))
        } else {
            None
        };
    }
    let k = cut_of(n);
    let right = 2 * k as usize;
    if depth == 0 {
        return Some(HashedString::tagged(1, &digests[1], &digests[right]));
    }
    let further = depth - 1;
    if (turns >> further) % 2 == 0 {
        string_of_part::<H, L>(&digests[1..right], leaves, from, k, further, turns)
    } else {
        string_of_part::<H, L>(&digests[right..], leaves, from + k, n - k, further, turns)
    }
}
