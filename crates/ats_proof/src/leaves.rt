//! Runs of leaves with terms, one after another.

ghost use Rattle.std.specs.Prelude.{◌≡◌, ◌≤◌, ◌<◌, ◌+◌, ◌^◌, ◌++◌, length, map, take, drop};
ghost use Rattle.std.specs.List.Sorted.{IsStrictlyIncreasing};
ghost use Rattle.ats_tree.specs.Shown.{positions_of, first_position, first_leaf};
ghost use Rattle.ats_proof.specs.Parts.{total_size};
ghost use Rattle.ats_proof.specs.Reading.{term_length_in, leaf_size};
ghost use Rattle.ats_proof.specs.Runs.{leaves_in};

use crate::bytes::{number_1, number_4};
use ats_hash::Steps;

/// The first of some leaves, from its length on, cut after its term; and the leaves after it.
#[derive(Clone, Copy)]
pub(crate) struct CutLeaf<'a> {
    pub(crate) front: &'a [u8],
    pub(crate) back: &'a [u8],
    pub(crate) rest: &'a [u8],
}

/// Cuts the first leaf, which has `after_term` bytes after its term.
pub(crate) fn cut_leaf(bytes: &[u8], after_term: usize) -> CutLeaf<'_>
    requires { leaf_size after_term bytes.now ≤ length bytes.now }
    ensures front { result.front.now ≡ take (1 + term_length_in bytes.now) (drop 4 bytes.now) }
    ensures back { result.back.now ≡ take after_term (drop (5 + term_length_in bytes.now) bytes.now) }
    ensures rest { result.rest.now ≡ drop (leaf_size after_term bytes.now) bytes.now }
{
    let (_, leaf) = bytes.split_at(4);
    let length = usize::from(number_1(leaf));
    let (front, after) = leaf.split_at(1 + length);
    let (back, rest) = after.split_at(after_term);
    CutLeaf { front, back, rest }
}

/// The leaves of a section that are left.
#[derive(Clone, Copy)]
pub(crate) struct LeafRun<'a> {
    pub(crate) left: u32,
    /// How many bytes each has after its term.
    pub(crate) after_term: usize,
    pub(crate) bytes: &'a [u8],
    pub ghost fits: { total_size (leaf_size after_term) left bytes.now ≤ length bytes.now },
    pub ghost rises: { IsStrictlyIncreasing (positions_of (leaves_in after_term left bytes.now)) },
}

impl<'a> LeafRun<'a> {
    ghost use Rattle.ats_proof.specs.Seen.{leaves_of};

    /// The first leaf left, cut after its term.
    pub(crate) fn first(&self) -> CutLeaf<'a>
        requires { 0 < self.now.left }
        ensures front { result.front.now ≡ take (1 + term_length_in self.now.bytes.now) (drop 4 self.now.bytes.now) }
        ensures back { result.back.now
            ≡ take self.now.after_term (drop (5 + term_length_in self.now.bytes.now) self.now.bytes.now) }
        ensures size { length result.back.now ≡ self.now.after_term }
        ensures whole { result.front.now ++ result.back.now ≡ first_leaf (leaves_of self.now) }
        ensures rest { result.rest.now ≡ drop (leaf_size self.now.after_term self.now.bytes.now) self.now.bytes.now }
    {
        cut_leaf(self.bytes, self.after_term)
    }

    /// The position of the first leaf left.
    pub(crate) fn position(&self) -> Option<u32>
        ensures first { result ≡ first_position (leaves_of self.now) }
        ensures rising { IsStrictlyIncreasing (positions_of (leaves_of self.now)) }
    {
        if self.left == 0 {
            return None;
        }
        Some(number_4(self.bytes))
    }

    /// Removes the first leaf left.
    pub(crate) fn pass(&mut self, steps: &mut Steps)
        requires left { 0 < self.old.left }
        requires space { steps.old + 1 < 2 ^ 64 }
        ensures passed { leaves_of self.new ≡ drop 1 (leaves_of self.old) }
        ensures count { self.new.left + 1 ≡ self.old.left }
        ensures rest { self.new.bytes.now ≡ drop (leaf_size self.old.after_term self.old.bytes.now) self.old.bytes.now }
        ensures after_term { self.new.after_term ≡ self.old.after_term }
        ensures cost { steps.new ≡ steps.old + 1 }
    {
        steps.tick();
        let first = self.first();
        self.left -= 1;
        self.bytes = first.rest;
    }
}
