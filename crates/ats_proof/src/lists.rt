//! The prefixes of the lists.

ghost use Rattle.std.specs.Prelude.{◌≡◌, ◌≤◌, ◌<◌, ◌+◌, ◌*◌, ◌^◌, length, drop, slice_get, option_map, Some};
ghost use Rattle.ats_proof.specs.Parts.{total_size};
ghost use Rattle.ats_proof.specs.Reading.{prefix_size, prefix_in};

use crate::bytes::{nth, number_2, number_4};
use crate::digests::{DigestRun, counted_digests_2};
use crate::record::ENTRY_BYTES;
use ats_hash::Steps;
use ats_postings::Entry;

/// The prefixes of a proof that are left, one for each present term, in the order of these terms.
#[derive(Clone, Copy)]
pub struct ListsView<'a> {
    pub(crate) left: u32,
    pub(crate) bytes: &'a [u8],
    pub ghost fits: { total_size prefix_size left bytes.now ≤ length bytes.now },
}

/// The entries of one prefix, and its digests.
#[derive(Clone, Copy)]
pub struct ListView<'a> {
    pub(crate) count: u32,
    pub(crate) entries: &'a [u8],
    pub(crate) digests: DigestRun<'a>,
    pub ghost space: { count * 6 ≤ length entries.now },
}

impl<'a> ListsView<'a> {
    ghost use Rattle.ats_proof.specs.SeenLists.{lists_of, list_of};

    // The first prefix left, and the bytes after it.
    pub(crate) fn cut(&self) -> (ListView<'a>, &'a [u8])
        requires { 0 < self.now.left }
        ensures list { list_of result.0 ≡ prefix_in self.now.bytes.now }
        ensures rest { result.1.now ≡ drop (prefix_size self.now.bytes.now) self.now.bytes.now }
    {
        let count = number_4(self.bytes);
        let (_, entries) = self.bytes.split_at(4);
        let (_, after) = entries.split_at(count as usize * ENTRY_BYTES);
        let (digests, rest) = counted_digests_2(after);
        (
            ListView {
                count,
                entries,
                digests,
            },
            rest,
        )
    }

    /// Removes and returns the first prefix left, `None` if none is left.
    pub fn next(&mut self, steps: &mut Steps) -> Option<ListView<'a>>
        requires { steps.old + 1 < 2 ^ 64 }
        ensures first { option_map list_of result ≡ slice_get (lists_of self.old) 0 }
        ensures passed { lists_of self.new ≡ drop 1 (lists_of self.old) }
        ensures cost { steps.new ≡ steps.old + 1 }
    {
        steps.tick();
        if self.left == 0 {
            return None;
        }
        let (list, rest) = self.cut();
        self.left -= 1;
        self.bytes = rest;
        Some(list)
    }
}

impl<'a> ListView<'a> {
    ghost use Rattle.ats_proof.specs.SeenLists.{list_of};

    /// How many entries the prefix has.
    pub fn len(&self) -> u32
        ensures { result ≡ length (list_of self.now).entries }
    {
        self.count
    }

    /// The entry at a place, whose `doc` holds the document's place among the met ids.
    pub fn entry(&self, i: u32, steps: &mut Steps) -> Entry
        requires within { i < length (list_of self.now).entries }
        requires space { steps.old + 1 < 2 ^ 64 }
        ensures entry { slice_get (list_of self.now).entries i ≡ Some result }
        ensures cost { steps.new ≡ steps.old + 1 }
    {
        steps.tick();
        let entry = nth(self.entries, self.count, ENTRY_BYTES, i);
        let (_, impact) = entry.split_at(4);
        Entry {
            doc: number_4(entry),
            impact: number_2(impact),
        }
    }
}
