//! The digests of all nodes of a tree, kept, so that showing them needs no hashing.

ghost use Rattle.std.specs.Prelude.{◌≡◌, ℕ, ◌+◌, ◌*◌, ◌^◌, ◌<◌, ◌≤◌, ◌↔◌, List, [], ◌++◌, length, take, drop, All, Some, IsTrue, IfOk, OnOk, OnErr, slice_get};
ghost use Rattle.std.specs.List.Sorted.{IsStrictlyIncreasing};
ghost use Rattle.ats_tree.specs.Tree.{mth};
ghost use Rattle.ats_tree.specs.Elided.{shown_with, elided_digests};
ghost use Rattle.ats_tree.specs.Kept.{kept_digests, elided_part, elided_kept, IsNodeList};
ghost use Rattle.ats_tree.specs.Nodes.{by_path};
ghost use Rattle.ats_tree.specs.OwnShown.{IsOwnShown};
ghost use Rattle.ats_tree.specs.Inner.Part.{RisesWithin};
ghost use Rattle.ats_tree.specs.Paths.{path_of};
ghost use Rattle.ats_tree.specs.Strings.{node_string};

use crate::comparing::begins_with_part;
use crate::cut::cut_of;
use crate::digests::{Digests, OutOfMemory};
use crate::eliding::count_below;
use crate::hashed_string::HashedString;
use crate::hashing::Leaves;
use crate::keeping_by_threads::keep_by_threads;
use crate::node_strings::{ShortLeaves, string_of_part};
use crate::partial_tree::PartialTree;
use ats_hash::{Hash32, HashKind, Steps};
use std::alloc::Global;
use std::marker::Model;
use std::thread::Threads;

/// The digests of all nodes of a tree, in pre-order: of each node first its own, then those of its left part,
/// then those of its right part. A tree of n leaves has 2n - 1 nodes; n is 1 to 2^31.
#[derive(Drop)]
pub struct Nodes {
    digests: Vec<[u8; 32]>,
}

impl Model for Nodes {
    ghost Value = { List (List ℕ) };

    ghost view = { λ s. s.digests.items };

    ghost invariant = { λ s. IsNodeList s.digests.items };
}

impl Nodes {
    /// The digests of the tree of the leaves. Each node is hashed once.
    pub fn of<H: Hash32, L: Leaves>(
        alloc: Global,
        leaves: &L,
        steps: &mut Steps,
    ) -> Result<Nodes, OutOfMemory>
        requires some { 1 ≤ length (L.items leaves.now) }
        requires few { length (L.items leaves.now) ≤ 2 ^ 31 }
        requires space { steps.old ≤ 2 ^ 63 }
        ensures value { IfOk result (λ nodes. nodes ≡ kept_digests H.hash (L.items leaves.now)) }
        ensures cost { steps.new ≤ steps.old + 2 * length (L.items leaves.now) }
    {
        let n = leaves.len();
        let mut digests = places_of_nodes(alloc, n)?;
        keep_part::<H, L>(leaves, 0, n, &mut digests, steps);
        Ok(Nodes { digests })
    }

    /// The digests of the tree of the leaves. Each node is hashed once. The tree is cut in two, and its parts again,
    /// `halvings` times in all; the parts of each cut may be hashed by two threads. With 0 one thread hashes
    /// everything.
    pub fn of_by_threads<H: Hash32 + Sync, L: Leaves + Sync, R: Threads + Sync>(
        rt: &R,
        alloc: Global,
        leaves: &L,
        halvings: u32,
    ) -> Result<Nodes, OutOfMemory>
        requires some { 1 ≤ length (L.items leaves.now) }
        requires few { length (L.items leaves.now) ≤ 2 ^ 31 }
        ensures { IfOk result (λ nodes. nodes ≡ kept_digests H.hash (L.items leaves.now)) }
    {
        let n = leaves.len();
        let mut digests = places_of_nodes(alloc, n)?;
        keep_by_threads::<H, L, R>(rt, alloc, leaves, 0, n, halvings, &mut digests);
        Ok(Nodes { digests })
    }

    /// How many nodes there are.
    pub fn len(&self) -> u32
        ensures { result ≡ length self.now }
    {
        self.digests.len() as u32
    }

    /// The digest of the tree.
    pub fn root(&self) -> [u8; 32]
        ensures first { slice_get self.now 0 ≡ Some result }
        ensures value { (H : List ℕ → List ℕ) (leaves : List (List ℕ)) → self.now ≡ kept_digests H leaves
            → result ≡ mth H leaves }
    {
        self.digests[0]
    }

    /// Appends the digests of the maximal subtrees that hold none of the leaves at `positions`, from left to right. If
    /// there are no positions, that is only the root.
    pub fn elided(&self, positions: &[u32], out: &mut Digests) -> Result<(), OutOfMemory>
        requires rising { IsStrictlyIncreasing positions.now }
        requires below { All (λ p. 2 * p + 1 ≤ length self.now) positions.now }
        ensures places { OnOk result (out.new ≡ out.old ++ elided_kept self.now positions.now) }
        ensures ok { (H : List ℕ → List ℕ) (leaves : List (List ℕ)) → self.now ≡ kept_digests H leaves
            → OnOk result (out.new ≡ out.old ++ elided_digests H leaves positions.now) }
        ensures err { OnErr result (out.new ≡ out.old) }
    {
        elide_kept(self.digests.as_slice(), positions, out)
    }

    /// Whether what is shown of a tree of `n` leaves is this tree's own, whose leaves these are. It only compares: nothing
    /// is hashed, and no memory is taken. How much of `shown` is left afterwards is not said.
    pub fn has_shown<H: HashKind, L: ShortLeaves, S: PartialTree>(
        &self,
        leaves: &L,
        n: u32,
        shown: &mut S,
        steps: &mut Steps,
    ) -> bool
        requires kept { self.now ≡ kept_digests H.hash (L.items leaves.now) }
        requires short { All (λ s. length s.1 ≤ 127) (S.shown shown.old) }
        requires space { steps.old ≤ 2 ^ 63 }
        ensures exact { IsTrue result
            ↔ IsOwnShown H.hash (L.items leaves.now) n (S.shown shown.old) (S.digests shown.old) }
        ensures cost { steps.new ≤ steps.old + n + 1 }
    {
        if self.len() / 2 + 1 != n {
            return false;
        }
        // Positions rise.
        let _facts = shown.position();
        if !begins_with_part(self.digests.as_slice(), leaves, 0, n, shown, steps) {
            return false;
        }
        shown.position().is_none() && shown.take_digest(steps).is_none()
    }

    /// The string that is hashed at the node to which `depth` turns lead from the root of the tree of the leaves, if
    /// there is such a node. The lowest binary digits of `turns` are the turns, highest first: 0 is left and 1 is
    /// right. It allocates nothing and hashes nothing.
    pub fn string_at<H: HashKind, L: ShortLeaves>(
        &self,
        leaves: &L,
        depth: u8,
        turns: u32,
    ) -> Option<HashedString>
        requires kept { self.now ≡ kept_digests H.hash (L.items leaves.now) }
        requires shallow { depth ≤ 32 }
        ensures { result ≡ node_string H.hash (L.items leaves.now) (by_path (path_of depth turns)) }
    {
        let n = self.len() / 2 + 1;
        string_of_part::<H, L>(self.digests.as_slice(), leaves, 0, n, depth, turns)
    }
}

/// Places for the digests of all nodes of the tree of `n` leaves.
fn places_of_nodes(alloc: Global, n: u32) -> Result<Vec<[u8; 32]>, OutOfMemory>
    requires { 1 ≤ n }
    ensures { IfOk result (λ all. length all.items + 1 ≡ 2 * n) }
{
    Ok(vec![in alloc; [0; 32]; 2 * n as usize - 1]?)
}

/// Puts the digests of the tree of the `n` leaves from leaf `from` on in their places: its own first, then those of its
/// left part, then those of its right part.
pub fn keep_part<H: Hash32, L: Leaves>(
    leaves: &L,
    from: u32,
    n: u32,
    digests: &mut [[u8; 32]],
    steps: &mut Steps,
)
    requires some { 1 ≤ n }
    requires within { from + n ≤ length (L.items leaves.now) }
    requires ends { from + n < 2 ^ 32 }
    requires nodes { length digests.old + 1 ≡ 2 * n }
    requires space { steps.old + 2 * n ≤ 2 ^ 64 }
    ensures kept { digests.new ≡ kept_digests H.hash (take n (drop from (L.items leaves.now))) }
    ensures cost { steps.new + 1 ≡ steps.old + 2 * n }
{
    let (own, parts) = digests.split_at_mut(1);
    if n == 1 {
        own[0] = leaves.leaf_digest::<H>(from, steps);
        return;
    }
    let k = cut_of(n);
    let (left, right) = parts.split_at_mut(2 * k as usize - 1);
    keep_part::<H, L>(leaves, from, k, left, steps);
    keep_part::<H, L>(leaves, from + k, n - k, right, steps);
    own[0] = H::digest2(1, &left[0], &right[0], steps);
}

/// Appends, of the digests of all nodes of a tree, those of the maximal subtrees that hold none of the leaves at
/// `positions`, from left to right. If there are no positions, that is only the root.
pub fn elide_kept(
    digests: &[[u8; 32]],
    positions: &[u32],
    out: &mut Digests,
) -> Result<(), OutOfMemory>
    requires nodes { IsNodeList digests.now }
    requires rising { IsStrictlyIncreasing positions.now }
    requires below { All (λ p. 2 * p + 1 ≤ length digests.now) positions.now }
    ensures places { OnOk result (out.new ≡ out.old ++ elided_kept digests.now positions.now) }
    ensures ok { (H : List ℕ → List ℕ) (leaves : List (List ℕ)) → digests.now ≡ kept_digests H leaves
        → OnOk result (out.new ≡ out.old ++ elided_digests H leaves positions.now) }
    ensures err { OnErr result (out.new ≡ out.old) }
{
    let before = out.len();
    let n = digests.len() as u32 / 2 + 1;
    let outcome = elide_kept_part(digests, 0, n, positions, out);
    if outcome.is_err() {
        out.truncate(before);
    }
    outcome
}

/// Appends the digests that the positions need of the part of `n` leaves from position `from` on, whose nodes have the
/// first of these digests: its own first, then those of its left part, then those of its right part.
fn elide_kept_part(
    digests: &[[u8; 32]],
    from: u32,
    n: u32,
    positions: &[u32],
    out: &mut Digests,
) -> Result<(), OutOfMemory>
    requires some { 1 ≤ n }
    requires nodes { 2 * n ≤ length digests.now + 1 }
    requires sized { All (λ d. length d ≡ 32) digests.now }
    requires ends { from + n < 2 ^ 32 }
    requires rising { RisesWithin from (from + n) positions.now }
    ensures ok { OnOk result (out.new ≡ out.old ++ elided_part digests.now from n (shown_with [] positions.now)) }
    ensures front { take (length out.old) out.new ≡ out.old }
{
    if positions.is_empty() {
        out.push(digests[0])
    } else if n == 1 {
        Ok(())
    } else {
        let k = cut_of(n);
        let right = 2 * k as usize;
        let (before, after) = positions.split_at(count_below(positions, from + k));
        elide_kept_part(&digests[1..], from, k, before, out)?;
        elide_kept_part(&digests[right..], from + k, n - k, after, out)
    }
}
