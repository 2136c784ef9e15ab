//! The first collision: a string that rebuilding a tree hashes, different from our string there, with the same digest.

ghost use Rattle.std.specs.Prelude.{◌≡◌, ℕ, ◌+◌, ◌*◌, ◌^◌, ◌<◌, ◌≤◌, ◌≢◌, ◌↔◌, List, ◌∷◌, ◌++◌, length, map, All, Option, IsTrue, IsSome, IfSome, option_map};
ghost use Rattle.ats_tree.specs.Clashes.{difference_of};
ghost use Rattle.ats_tree.specs.Inner.Clashes.{part_strings, IsPlaced};
ghost use Rattle.ats_tree.specs.Differences.{moved, collision_or, first_collision};
ghost use Rattle.ats_tree.specs.Nodes.{Node, by_path};
ghost use Rattle.ats_tree.specs.Part.{RisesFrom, IsPart};
ghost use Rattle.ats_tree.specs.Paths.{path_of};
ghost use Rattle.ats_tree.specs.Rebuild.{need, rebuilt};
ghost use Rattle.ats_tree.specs.Shown.{places};
ghost use Rattle.ats_tree.specs.Strings.{strings, node_strings};
ghost use Rattle.ats_tree.specs.Tree.{tree_of};

use crate::cut::cut_of;
use crate::lending::{Lent, RemainingLeaves};
use crate::own::OwnNodes;
use crate::preimage::{LeafPreimage, Preimage};
use crate::revealing::Revealed;
use ats_hash::{Hash32, Steps};
use std::marker::PhantomData;

/// Two different strings with equal digests, at one node of a tree.
#[derive(Clone, Copy, Debug, PartialEq, Eq)]
pub struct Clash<S> {
    /// How many turns lead from the root to the node, at most 32.
    pub depth: u8,
    /// The turns: the `depth` lowest binary digits, highest first, 0 for left and 1 for right. The other digits are 0.
    pub turns: u32,
    /// Our own string at the node.
    pub ours: S,
    /// The string that rebuilding hashes there.
    pub theirs: S,
}

/// The digest of a part of a tree, and the first clash in it.
#[derive(Clone, Copy, Debug, PartialEq, Eq)]
pub struct ComparedPart<S> {
    pub digest: [u8; 32],
    /// Its depth and its turns lead from the root of the part.
    pub clash: Option<Clash<S>>,
}

/// The first clash between our own strings and those that rebuilding the tree of `n` leaves hashes, in pre-order: a
/// node, its left part, its right part. Our string at a node is hashed only if it differs from theirs.
pub fn first_clash<'a, H: Hash32, R: Revealed<'a>, S: LeafPreimage<'a>, O: OwnNodes<S>>(
    n: u32,
    revealed: &mut R,
    own: &O,
    steps: &mut Steps,
) -> Option<Clash<S>>
    requires rebuilds { IsSome (rebuilt H.hash n (R.shown revealed.old) (R.digests revealed.old)) }
    requires fit { All (λ s. S.fits s.1) (R.shown revealed.old) }
    requires space { steps.old ≤ 2 ^ 63 }
    ensures clash { option_map (difference_of S.bytes) result
        ≡ first_collision H.hash (O.ours own.now)
        (node_strings H.hash n (R.shown revealed.old) (R.digests revealed.old)) }
    ensures place { IfSome result (λ c. c.turns < 2 ^ c.depth) }
    ensures cost { steps.new ≤ steps.old + 5 * n }
{
    let _facts = revealed.position();
    first_clash_in_part::<H, R, S, O>(0, n, revealed, own, steps).clash
}

/// The first clash in the tree of the `n` places from position `from` on, as [`first_clash`] finds it, with the digest
/// of this tree. It takes the leaves shown there and the digests that they need; what comes after them is left.
pub fn first_clash_in_part<'a, H: Hash32, R: Revealed<'a>, S: LeafPreimage<'a>, O: OwnNodes<S>>(
    from: u32,
    n: u32,
    revealed: &mut R,
    own: &O,
    steps: &mut Steps,
) -> ComparedPart<S>
    requires some { 1 ≤ n }
    requires ends { from + n < 2 ^ 32 }
    requires rising { RisesFrom from (R.shown revealed.old) }
    requires enough { need (tree_of (places from n (R.shown revealed.old))) ≤ length (R.digests revealed.old) }
    requires fit { All (λ s. S.fits s.1) (R.shown revealed.old) }
    requires space { steps.old + 5 * n < 2 ^ 64 }
    ensures whole { IsPart H.hash from n (R.shown revealed.old) (R.digests revealed.old)
        result.digest (R.shown revealed.new) (R.digests revealed.new) }
    ensures clash { option_map (difference_of S.bytes) result.clash ≡ first_collision H.hash (O.ours own.now)
        (map (moved by_path) (strings H.hash (tree_of (places from n (R.shown revealed.old))) (R.digests revealed.old))) }
    ensures place { IfSome result.clash (λ c. c.turns < 2 ^ c.depth) }
    ensures cost { steps.new + 2 ≤ steps.old + 5 * n }
{
    let mut lent = Lent {
        revealed,
        lends: PhantomData,
    };
    let compared = part::<H, _, S, O>(from, n, 0, 0, &mut lent, own, steps);
    let Lent {
        revealed: _back,
        lends: _,
    } = lent;
    compared
}

/// The same for a part of such a tree, to whose root the turns lead. So do the turns of the clash.
fn part<H: Hash32, F: RemainingLeaves<S>, S: Preimage, O: OwnNodes<S>>(
    from: u32,
    n: u32,
    depth: u8,
    turns: u32,
    remaining: &mut F,
    own: &O,
    steps: &mut Steps,
) -> ComparedPart<S>
    requires some { 1 ≤ n }
    requires ends { from + n < 2 ^ 32 }
    requires placed { IsPlaced n depth turns }
    requires rising { RisesFrom from (F.leaves remaining.old) }
    requires enough { need (tree_of (places from n (F.leaves remaining.old))) ≤ length (F.others remaining.old) }
    requires fit { All (λ s. S.fits s.1) (F.leaves remaining.old) }
    requires space { steps.old + 5 * n < 2 ^ 64 }
    ensures whole { IsPart H.hash from n (F.leaves remaining.old) (F.others remaining.old)
        result.digest (F.leaves remaining.new) (F.others remaining.new) }
    ensures still { F.stays remaining.old remaining.new }
    ensures clash { option_map (difference_of S.bytes) result.clash ≡ first_collision H.hash (O.ours own.now)
        (part_strings H.hash (path_of depth turns) (tree_of (places from n (F.leaves remaining.old))) (F.others remaining.old)) }
    ensures place { IfSome result.clash (λ c. c.turns < 2 ^ c.depth) }
    ensures cost { steps.new + 2 ≤ steps.old + 5 * n }
{
    match remaining.first_position() {
        Some(at) if at < from + n => {
            if n == 1 {
                let theirs = remaining.first_string();
                let digest = remaining.take_leaf::<H>(steps);
                let clash = clash_or::<H, S, O>(own, depth, turns, theirs, &digest, None, steps);
                ComparedPart { digest, clash }
            } else {
                let k = cut_of(n);
                let left = part::<H, F, S, O>(from, k, depth + 1, 2 * turns, remaining, own, steps);
                let right = part::<H, F, S, O>(
                    from + k,
                    n - k,
                    depth + 1,
                    2 * turns + 1,
                    remaining,
                    own,
                    steps,
                );
                let theirs = S::of_node(&left.digest, &right.digest);
                let digest = H::digest2(1, &left.digest, &right.digest, steps);
                let later = left.clash.or(right.clash);
                let clash = clash_or::<H, S, O>(own, depth, turns, theirs, &digest, later, steps);
                ComparedPart { digest, clash }
            }
        }
        _ => {
            let Some(digest) = remaining.take_digest(steps) else {
                unreachable!()
            };
            ComparedPart {
                digest,
                clash: None,
            }
        }
    }
}

/// The clash of a string with ours at its node, if we have one there that differs from it and has its digest, which is
/// given; else `later`.
fn clash_or<H: Hash32, S: Preimage, O: OwnNodes<S>>(
    own: &O,
    depth: u8,
    turns: u32,
    theirs: S,
    digest: &[u8; 32],
    later: Option<Clash<S>>,
    steps: &mut Steps,
) -> Option<Clash<S>>
    requires deep { depth ≤ 32 }
    requires inside { turns < 2 ^ depth }
    requires digest { digest.now ≡ H.hash (S.bytes theirs) }
    requires places { IfSome later (λ c. c.turns < 2 ^ c.depth) }
    requires space { steps.old + 1 < 2 ^ 64 }
    ensures clash { option_map (difference_of S.bytes) result
        ≡ collision_or H.hash (O.ours own.now (by_path (path_of depth turns)))
        (record { place = by_path (path_of depth turns); text = S.bytes theirs }) (option_map (difference_of S.bytes) later) }
    ensures place { IfSome result (λ c. c.turns < 2 ^ c.depth) }
    ensures cost { steps.new ≤ steps.old + 1 }
{
    match own.at(depth, turns) {
        Some(ours) if collides::<H, S>(&ours, &theirs, digest, steps) => Some(Clash {
            depth,
            turns,
            ours,
            theirs,
        }),
        _ => later,
    }
}

/// Whether our string differs from theirs and has the same digest. The digest of theirs is given. If the strings are
/// equal, nothing is hashed.
pub fn collides<H: Hash32, S: Preimage>(
    ours: &S,
    theirs: &S,
    digest: &[u8; 32],
    steps: &mut Steps,
) -> bool
    requires tagged { 0 < length (S.bytes ours.now) }
    requires digest { digest.now ≡ H.hash (S.bytes theirs.now) }
    requires space { steps.old + 1 < 2 ^ 64 }
    ensures collides { IsTrue result
        ↔ ((S.bytes ours.now ≢ S.bytes theirs.now) × (H.hash (S.bytes ours.now) ≡ H.hash (S.bytes theirs.now))) }
    ensures cost { steps.new ≤ steps.old + 1 }
{
    !ours.is_same(theirs) && ours.digest::<H>(steps) == *digest
}
