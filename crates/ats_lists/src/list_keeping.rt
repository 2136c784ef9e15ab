//! The digests of a list, kept in either format.

ghost use Rattle.std.specs.Prelude.{◌≡◌, ℕ, ◌+◌, ◌*◌, ◌^◌, ◌≤◌, List, ◌++◌, length, IfOk, OnOk, OnErr};
ghost use Rattle.std.specs.List.{range_with_len};
ghost use Rattle.ats_lists.specs.Formats.{list_root, list_string, prefix_digests};
ghost use Rattle.ats_lists.specs.KeptList.{kept_list, format_of, entries_of};
ghost use Rattle.ats_postings.specs.declared.entry.Entry.{Entry};
ghost use Rattle.ats_lists.specs.declared.format.Format.{Format};

use crate::chain_keeping::Chain;
use crate::format::Format;
use crate::leaves::ListLeaves;
use crate::memory::OutOfMemory;
use ats_hash::{Hash32, HashKind, Steps};
use ats_postings::Entry;
use ats_tree::{Digests, HashedString, Nodes};
use std::alloc::Global;

/// The digests of a list of 1 to 65,536 entries, kept, so that showing its first entries needs no hashing.
#[derive(Drop)]
pub enum ListDigests {
    /// Those of a list that is one tree.
    Tree(Nodes),
    /// Those of a list in blocks.
    Blocks(Chain),
}

impl ListDigests {
    /// The digests of the list of the entries in this format. Each node and each block is hashed once.
    pub fn of<H: Hash32>(
        alloc: Global,
        format: Format,
        entries: &[Entry],
        steps: &mut Steps,
    ) -> Result<ListDigests, OutOfMemory>
        requires some { 1 ≤ length entries.now }
        requires few { length entries.now ≤ 65536 }
        requires space { steps.old ≤ 2 ^ 63 }
        ensures value { IfOk result (λ kept. kept ≡ kept_list H.hash format entries.now) }
        ensures cost { steps.new ≤ steps.old + 2 * length entries.now }
    {
        match format {
            Format::One => {
                let nodes = Nodes::of::<H, ListLeaves>(alloc, &ListLeaves { entries }, steps)?;
                Ok(ListDigests::Tree(nodes))
            }
            Format::Two => {
                let chain = Chain::of::<H>(alloc, entries, steps)?;
                Ok(ListDigests::Blocks(chain))
            }
        }
    }

    /// The digest of the list.
    pub fn root(&self) -> [u8; 32]
        ensures { (H : List ℕ → List ℕ) (format : Format) (entries : List Entry) → self.now ≡ kept_list H format entries
            → result ≡ list_root H format entries }
    {
        match self {
            ListDigests::Tree(nodes) => nodes.root(),
            ListDigests::Blocks(chain) => chain.root(),
        }
    }

    /// Appends the digests that the first `k` entries need, without those entries, from left to right.
    pub fn front(&self, alloc: Global, k: u32, out: &mut Digests) -> Result<(), OutOfMemory>
        requires some { 1 ≤ k }
        requires within { k ≤ entries_of self.now }
        ensures ok { (H : List ℕ → List ℕ) (format : Format) (entries : List Entry) → self.now ≡ kept_list H format entries
            → OnOk result (out.new ≡ out.old ++ prefix_digests H format entries k) }
        ensures err { OnErr result (out.new ≡ out.old) }
    {
        match self {
            ListDigests::Tree(nodes) => {
                let positions = first_numbers(alloc, k)?;
                nodes.elided(&positions, out)?;
                Ok(())
            }
            ListDigests::Blocks(chain) => chain.elided(k, out),
        }
    }

    /// The string that is hashed for the list and has these two numbers, if there is one. It allocates nothing and hashes
    /// nothing.
    pub fn string_at<H: HashKind>(
        &self,
        entries: &[Entry],
        depth: u8,
        turns: u32,
    ) -> Option<HashedString>
        requires few { length entries.now ≤ 65536 }
        requires kept { self.now ≡ kept_list H.hash (format_of self.now) entries.now }
        requires shallow { depth ≤ 32 }
        ensures { result ≡ list_string H.hash (format_of self.now) entries.now (record { depth = depth; turns = turns }) }
    {
        match self {
            ListDigests::Tree(nodes) => {
                nodes.string_at::<H, ListLeaves>(&ListLeaves { entries }, depth, turns)
            }
            ListDigests::Blocks(chain) => chain.string_at::<H>(entries, depth, turns),
        }
    }
}

// The numbers below `count`.
fn first_numbers(alloc: Global, count: u32) -> Result<Vec<u32>, OutOfMemory>
    ensures { IfOk result (λ numbers. numbers.items ≡ range_with_len 0 count) }
{
    let mut numbers = Vec::with_capacity(alloc, count as usize)?;
    for i in 0..count {
        numbers.push(i)?;
    }
    Ok(numbers)
}
