//! The digests of a list in blocks, kept, so that showing its first entries needs no hashing.

ghost use Rattle.std.specs.Prelude.{◌≡◌, ℕ, ◌+◌, ◌*◌, ◌^◌, ◌<◌, ◌≤◌, ◌↔◌, List, [], ◌∷◌, ◌++◌, length, map, take, drop, All, Some, IsTrue, IfOk, OnOk, OnErr, nat_lt, if◌then◌else◌, slice_get};
ghost use Rattle.std.specs.List.{range_with_len};
ghost use Rattle.ats_tree.specs.Elided.{elided_digests};
ghost use Rattle.ats_tree.specs.Kept.{kept_digests, IsNodeList};
ghost use Rattle.ats_tree.specs.Paths.{path_of};
ghost use Rattle.ats_tree.specs.Strings.{string_at};
ghost use Rattle.ats_tree.specs.Tree.{mth, tree_of};
ghost use Rattle.ats_lists.specs.Blocks.{blocks_in, items_in, block};
ghost use Rattle.ats_lists.specs.Chain.{link, no_block, chain, chain_from, chain_string, chain_elided};
ghost use Rattle.ats_lists.specs.KeptChain.{ChainDigests, kept_chain};
ghost use Rattle.ats_lists.specs.Inner.KeptChain.{digests_in, chain_in, IsChainRun};
ghost use Rattle.ats_lists.specs.Leaf.{leaf_bytes};

use crate::chain_rebuilding::BLOCK;
use crate::leaves::ListLeaves;
use crate::memory::OutOfMemory;
use ats_hash::{Hash32, HashKind, Steps};
use ats_postings::Entry;
use ats_tree::{
    Digests, HashedString, Leaves, PartialTree, begins_with_elided, elide_kept, keep_part,
    string_of_part,
};
use std::alloc::Global;
use std::marker::Model;

/// How many digests are kept of a block, if it is not the last one.
const DIGESTS: usize = 128;

/// The digests of a list in blocks, of 1 to 65,536 entries: for each block its own, then those of all nodes of its tree
/// in pre-order. They stand in one run, of two digests for each entry.
#[derive(Drop)]
pub struct Chain {
    digests: Vec<[u8; 32]>,
}

impl Model for Chain {
    ghost Value = { ChainDigests };

    ghost view = { λ s. chain_in s.digests.items };

    ghost invariant = { λ s. IsChainRun s.digests.items };
}

impl Chain {
    /// The digests of the list of the entries. Each node and each block is hashed once.
    pub fn of<H: Hash32>(
        alloc: Global,
        entries: &[Entry],
        steps: &mut Steps,
    ) -> Result<Chain, OutOfMemory>
        requires some { 1 ≤ length entries.now }
        requires few { length entries.now ≤ 65536 }
        requires space { steps.old ≤ 2 ^ 63 }
        ensures value { IfOk result (λ chain. chain ≡ kept_chain H.hash (map leaf_bytes entries.now)) }
        ensures cost { steps.new ≤ steps.old + 2 * length entries.now }
    {
        let mut digests = vec![in alloc; [0; 32]; 2 * entries.len()]?;
        keep_blocks::<H, ListLeaves>(&ListLeaves { entries }, &mut digests, steps);
        Ok(Chain { digests })
    }

    /// How many entries there are.
    pub fn len(&self) -> u32
        ensures { result ≡ self.now.entries }
    {
        self.digests.len() as u32 / 2
    }

    /// The digest of the list.
    pub fn root(&self) -> [u8; 32]
        ensures first { slice_get self.now.links 0 ≡ Some result }
        ensures value { (H : List ℕ → List ℕ) (leaves : List (List ℕ)) → self.now ≡ kept_chain H leaves
            → result ≡ chain H leaves }
    {
        self.digests[0]
    }

    /// Appends the digests that the first `k` entries need, without those entries: of the last block of which some entry
    /// is shown those of the maximal subtrees with no shown entry, from left to right, then that of the next block, if
    /// there is one.
    pub fn elided(&self, k: u32, out: &mut Digests) -> Result<(), OutOfMemory>
        requires some { 1 ≤ k }
        requires within { k ≤ self.now.entries }
        ensures ok { (H : List ℕ → List ℕ) (leaves : List (List ℕ)) → self.now ≡ kept_chain H leaves
            → OnOk result (out.new ≡ out.old ++ chain_elided H leaves k) }
        ensures err { OnErr result (out.new ≡ out.old) }
    {
        let before = out.len();
        let blocks = k.div_ceil(BLOCK);
        self.elide_nodes(blocks - 1, k - BLOCK * (blocks - 1), out)?;
        let outcome = self.elide_link(blocks, out);
        if outcome.is_err() {
            out.truncate(before);
        }
        outcome
    }

    /// Whether the digests left are those that the first `k` entries need, as `elided` appends them. It only compares: nothing
    /// is hashed, and no memory is taken.
    pub fn has_digests<S: PartialTree>(&self, k: u32, shown: &mut S, steps: &mut Steps) -> bool
        requires some { 1 ≤ k }
        requires within { k ≤ self.now.entries }
        requires theirs { All (λ d. length d ≡ 32) (S.digests shown.old) }
        requires space { steps.old + 256 < 2 ^ 64 }
        ensures { (H : List ℕ → List ℕ) (leaves : List (List ℕ)) → self.now ≡ kept_chain H leaves
            → IsTrue result ↔ S.digests shown.old ≡ chain_elided H leaves k }
    {
        let blocks = k.div_ceil(BLOCK);
        if !self.begins_with_nodes(blocks - 1, k - BLOCK * (blocks - 1), shown, steps) {
            return false;
        }
        self.is_link(blocks, shown, steps)
    }

    /// The string that is hashed for the list and has these two numbers, if there is one. Block j has its own string at
    /// depth 0 and `turns` 64 j. The node of its tree with depth d and turns p has depth 1 + d and `turns` 64 j + p. It
    /// allocates nothing and hashes nothing.
    pub fn string_at<H: HashKind>(
        &self,
        entries: &[Entry],
        depth: u8,
        turns: u32,
    ) -> Option<HashedString>
        requires kept { self.now ≡ kept_chain H.hash (map leaf_bytes entries.now) }
        requires shallow { depth ≤ 32 }
        ensures { result ≡ chain_string H.hash (map leaf_bytes entries.now) depth turns }
    {
        let j = turns / BLOCK;
        let place = turns % BLOCK;
        if BLOCK * j >= self.len() {
            return None;
        }
        if depth == 0 {
            return if place == 0 {
                Some(self.block_string(j))
            } else {
                None
            };
        }
        let further = depth - 1;
        let rest = place >> further;
        if rest == 0 {
            self.node_string::<H>(entries, j, further, place)
        } else {
            None
        }
    }

    // The string of block `j`.
    fn block_string(&self, j: u32) -> HashedString
        requires { j < blocks_in self.now.entries }
        ensures { (H : List ℕ → List ℕ) (leaves : List (List ℕ)) → self.now ≡ kept_chain H leaves
            → result ≡ link (mth H (block leaves j)) (chain_from H leaves (j + 1)) }
    {
        let nodes = self.nodes(j);
        let next = DIGESTS * (j as usize + 1);
        if next < self.digests.len() {
            HashedString::tagged(3, &nodes[0], &self.digests[next])
        } else {
            HashedString::tagged(3, &nodes[0], &[0; 32])
        }
    }

    // The string at the node to which the turns lead from the root of the tree of block `j`.
    fn node_string<H: HashKind>(
        &self,
        entries: &[Entry],
        j: u32,
        depth: u8,
        turns: u32,
    ) -> Option<HashedString>
        requires inside { j < blocks_in self.now.entries }
        requires kept { self.now ≡ kept_chain H.hash (map leaf_bytes entries.now) }
        requires shallow { depth ≤ 32 }
        ensures { result ≡ string_at H.hash (tree_of (block (map leaf_bytes entries.now) j)) (path_of depth turns) }
    {
        // There are at most 65,536 entries.
        let _ = &self.digests;
        let leaves = ListLeaves { entries };
        let start = BLOCK * j;
        let n = BLOCK.min(self.len() - start);
        string_of_part::<H, ListLeaves>(self.nodes(j), &leaves, start, n, depth, turns)
    }

    // The digests of all nodes of the tree of block `j`.
    fn nodes(&self, j: u32) -> &[[u8; 32]]
        requires { j < blocks_in self.now.entries }
        ensures list { IsNodeList result.now }
        ensures count { length result.now + 1 ≡ 2 * items_in self.now.entries j }
        ensures value { (H : List ℕ → List ℕ) (leaves : List (List ℕ)) → self.now ≡ kept_chain H leaves
            → result.now ≡ kept_digests H (block leaves j) }
    {
        let start = DIGESTS * j as usize;
        let end = self.digests.len().min(start + DIGESTS);
        &self.digests[start + 1..end]
    }

    // Appends the digests that the first `count` leaves of the tree of block `j` need.
    fn elide_nodes(&self, j: u32, count: u32, out: &mut Digests) -> Result<(), OutOfMemory>
        requires inside { j < blocks_in self.now.entries }
        requires within { count ≤ items_in self.now.entries j }
        ensures ok { (H : List ℕ → List ℕ) (leaves : List (List ℕ)) → self.now ≡ kept_chain H leaves
            → OnOk result (out.new ≡ out.old ++ elided_digests H (block leaves j) (range_with_len 0 count)) }
        ensures err { OnErr result (out.new ≡ out.old) }
        ensures front { take (length out.old) out.new ≡ out.old }
    {
        let all = first_positions();
        elide_kept(self.nodes(j), &all[..count as usize], out)?;
        Ok(())
    }

    // Whether the digests left begin with those that the first `count` leaves of the tree of block `j` need. If they do,
    // they are taken.
    fn begins_with_nodes<S: PartialTree>(
        &self,
        j: u32,
        count: u32,
        shown: &mut S,
        steps: &mut Steps,
    ) -> bool
        requires inside { j < blocks_in self.now.entries }
        requires within { count ≤ items_in self.now.entries j }
        requires theirs { All (λ d. length d ≡ 32) (S.digests shown.old) }
        requires space { steps.old + 128 < 2 ^ 64 }
        ensures exact { (H : List ℕ → List ℕ) (leaves : List (List ℕ)) → self.now ≡ kept_chain H leaves
            → IsTrue result ↔ take (length (elided_digests H (block leaves j) (range_with_len 0 count))) (S.digests shown.old)
            ≡ elided_digests H (block leaves j) (range_with_len 0 count) }
        ensures left { (H : List ℕ → List ℕ) (leaves : List (List ℕ)) → self.now ≡ kept_chain H leaves → IsTrue result
            → S.digests shown.new
            ≡ drop (length (elided_digests H (block leaves j) (range_with_len 0 count))) (S.digests shown.old) }
        ensures rest { IsTrue result → All (λ d. length d ≡ 32) (S.digests shown.new) }
        ensures cost { steps.new ≤ steps.old + 128 }
    {
        let all = first_positions();
        begins_with_elided::<S>(self.nodes(j), &all[..count as usize], shown, steps)
    }

    // Whether the digests left are that of block `j`, or none if there is no such block.
    fn is_link<S: PartialTree>(&self, j: u32, shown: &mut S, steps: &mut Steps) -> bool
        requires inside { j ≤ blocks_in self.now.entries }
        requires theirs { All (λ d. length d ≡ 32) (S.digests shown.old) }
        requires space { steps.old + 2 < 2 ^ 64 }
        ensures { (H : List ℕ → List ℕ) (leaves : List (List ℕ)) → self.now ≡ kept_chain H leaves
            → IsTrue result
            ↔ S.digests shown.old ≡ (if nat_lt (64 * j) (length leaves) then chain_from H leaves j ∷ [] else []) }
    {
        let at = DIGESTS * j as usize;
        if at >= self.digests.len() {
            return shown.take_digest(steps).is_none();
        }
        match shown.take_digest(steps) {
            Some(theirs) => theirs == self.digests[at] && shown.take_digest(steps).is_none(),
            None => false,
        }
    }

    // Appends the digest of block `j`, if there is such a block.
    fn elide_link(&self, j: u32, out: &mut Digests) -> Result<(), OutOfMemory>
        requires { j ≤ blocks_in self.now.entries }
        ensures ok { (H : List ℕ → List ℕ) (leaves : List (List ℕ)) → self.now ≡ kept_chain H leaves
            → OnOk result (out.new ≡ out.old ++ (if nat_lt (64 * j) (length leaves) then chain_from H leaves j ∷ [] else [])) }
        ensures front { take (length out.old) out.new ≡ out.old }
    {
        let at = DIGESTS * j as usize;
        if at < self.digests.len() {
            out.push(self.digests[at])?;
        }
        Ok(())
    }
}

/// The positions of the leaves of a block.
fn first_positions() -> [u32; 64]
    ensures { result ≡ range_with_len 0 64 }
{
    [
        0, 1, 2, 3, 4, 5, 6, 7, 8, 9, 10, 11, 12, 13, 14, 15, 16, 17, 18, 19, 20, 21, 22, 23, 24,
        25, 26, 27, 28, 29, 30, 31, 32, 33, 34, 35, 36, 37, 38, 39, 40, 41, 42, 43, 44, 45, 46, 47,
        48, 49, 50, 51, 52, 53, 54, 55, 56, 57, 58, 59, 60, 61, 62, 63,
    ]
}

/// Puts the digests of the blocks of the leaves in their places, from the last block to the first.
fn keep_blocks<H: Hash32, L: Leaves>(leaves: &L, digests: &mut [[u8; 32]], steps: &mut Steps)
    requires few { length (L.items leaves.now) ≤ 65536 }
    requires size { length digests.old ≡ 2 * length (L.items leaves.now) }
    requires space { steps.old ≤ 2 ^ 63 }
    ensures kept { (j : ℕ) → j < blocks_in (length (L.items leaves.now))
        → digests_in digests.new j ≡ chain_from H.hash (L.items leaves.now) j ∷ kept_digests H.hash (block (L.items leaves.now) j) }
    ensures cost { steps.new ≡ steps.old + 2 * length (L.items leaves.now) }
{
    let n = leaves.len();
    let mut next = [0; 32];
    for j in (0..n.div_ceil(BLOCK)).rev() {
        let start = BLOCK * j;
        let size = BLOCK.min(n - start);
        let own = &mut digests[2 * start as usize..2 * (start + size) as usize];
        next = keep_block::<H, L>(leaves, start, size, &next, own, steps);
    }
}

/// Puts the digests of the block of the `n` leaves from leaf `start` on in their places, and returns its own, which comes
/// first. `next` is that of the next block.
fn keep_block<H: Hash32, L: Leaves>(
    leaves: &L,
    start: u32,
    n: u32,
    next: &[u8; 32],
    digests: &mut [[u8; 32]],
    steps: &mut Steps,
) -> [u8; 32]
    requires some { 1 ≤ n }
    requires within { start + n ≤ length (L.items leaves.now) }
    requires ends { start + n < 2 ^ 32 }
    requires size { length digests.old ≡ 2 * n }
    requires space { steps.old + 2 * n < 2 ^ 64 }
    ensures kept { digests.new ≡ result ∷ kept_digests H.hash (take n (drop start (L.items leaves.now))) }
    ensures own { result ≡ H.hash (link (mth H.hash (take n (drop start (L.items leaves.now)))) next.now) }
    ensures cost { steps.new ≡ steps.old + 2 * n }
{
    let (own, nodes) = digests.split_at_mut(1);
    keep_part::<H, L>(leaves, start, n, nodes, steps);
    let digest = H::digest2(3, &nodes[0], next, steps);
    own[0] = digest;
    digest
}
