//! How many bytes the sections have whose parts have sizes of their own.

ghost use Rattle.std.specs.Prelude.{◌≡◌, ◌≤◌, ◌+◌, ◌*◌, length};
ghost use Rattle.ats_proof.specs.Parts.{total_size, parts_in, counted_size};
ghost use Rattle.ats_proof.specs.Value.{kind_of_slot, present_in};
ghost use Rattle.ats_proof.specs.Reading.{leaf_size, prefix_size, section_size, slot_size, slot_in, digest_size, posting_size};

use crate::bytes::{number_1, number_2, number_4};
use crate::leaves::cut_leaf;
use crate::record::ENTRY_BYTES;

// How many bytes `count` leaves have, each with `after_term` bytes after its term.
fn leaves_size(count: u32, after_term: usize, bytes: &[u8]) -> usize
    requires { total_size (leaf_size after_term) count bytes.now ≤ length bytes.now }
    ensures { result ≡ total_size (leaf_size after_term) count bytes.now }
{
    let mut left = count;
    let mut rest = bytes;
    'leaves: while left > 0 {
        rest = cut_leaf(rest, after_term).rest;
        left -= 1;
    }
    bytes.len() - rest.len()
}

/// How many bytes leaves and their number in two bytes have.
pub(crate) fn counted_leaves_size(after_term: usize, bytes: &[u8]) -> usize
    requires { counted_size 2 (leaf_size after_term) bytes.now ≤ length bytes.now }
    ensures { result ≡ counted_size 2 (leaf_size after_term) bytes.now }
{
    let count = u32::from(number_2(bytes));
    let (_, leaves) = bytes.split_at(2);
    2 + leaves_size(count, after_term, leaves)
}

/// How many bytes digests and their number in two bytes have.
pub(crate) fn counted_digests_size_2(bytes: &[u8]) -> usize
    requires { counted_size 2 digest_size bytes.now ≤ length bytes.now }
    ensures { result ≡ counted_size 2 digest_size bytes.now }
{
    2 + usize::from(number_2(bytes)) * 32
}

/// How many bytes digests and their number in four bytes have.
pub(crate) fn counted_digests_size_4(bytes: &[u8]) -> usize
    requires { counted_size 4 digest_size bytes.now ≤ length bytes.now }
    ensures { result ≡ counted_size 4 digest_size bytes.now }
{
    4 + number_4(bytes) as usize * 32
}

// 1 if a slot finds its term present, else 0.
fn kind_of(bytes: &[u8]) -> u32
    requires { 3 ≤ length bytes.now }
    ensures kind { result ≡ kind_of_slot (slot_in bytes.now) }
    ensures few { result ≤ 1 }
{
    u32::from(number_1(bytes) == 1)
}

/// How many terms the first `count` slots find present.
pub(crate) fn present_count(count: u32, bytes: &[u8]) -> u32
    requires { count * 3 ≤ length bytes.now }
    ensures { result ≡ present_in (parts_in slot_size slot_in count bytes.now) }
{
    let mut left = count;
    let mut rest = bytes;
    let mut present = 0;
    'slots: while left > 0 {
        present += kind_of(rest);
        let (_, after) = rest.split_at(3);
        rest = after;
        left -= 1;
    }
    present
}

// How many bytes entries and their number have.
fn counted_postings_size(bytes: &[u8]) -> usize
    requires { counted_size 4 posting_size bytes.now ≤ length bytes.now }
    ensures { result ≡ counted_size 4 posting_size bytes.now }
{
    4 + number_4(bytes) as usize * ENTRY_BYTES
}

// How many bytes a prefix has.
fn list_size(bytes: &[u8]) -> usize
    requires { prefix_size bytes.now ≤ length bytes.now }
    ensures { result ≡ prefix_size bytes.now }
{
    let entries = counted_postings_size(bytes);
    let (_, digests) = bytes.split_at(entries);
    entries + counted_digests_size_2(digests)
}

/// How many bytes `count` prefixes have.
pub(crate) fn lists_size(count: u32, bytes: &[u8]) -> usize
    requires { total_size prefix_size count bytes.now ≤ length bytes.now }
    ensures { result ≡ total_size prefix_size count bytes.now }
{
    let mut left = count;
    let mut rest = bytes;
    'lists: while left > 0 {
        let (_, after) = rest.split_at(list_size(rest));
        rest = after;
        left -= 1;
    }
    bytes.len() - rest.len()
}

// How many bytes a terms section has, with `present` slots.
fn section_size(present: u32, bytes: &[u8]) -> usize
    requires { section_size present bytes.now ≤ length bytes.now }
    ensures { result ≡ section_size present bytes.now }
{
    let leaves = counted_leaves_size(2, bytes);
    let (_, digests) = bytes.split_at(leaves);
    leaves + counted_digests_size_2(digests) + present as usize * 3
}

/// How many bytes `count` terms sections have.
pub(crate) fn sections_size(present: u32, count: u32, bytes: &[u8]) -> usize
    requires { total_size (section_size present) count bytes.now ≤ length bytes.now }
    ensures { result ≡ total_size (section_size present) count bytes.now }
{
    let mut left = count;
    let mut rest = bytes;
    'sections: while left > 0 {
        let (_, after) = rest.split_at(section_size(present, rest));
        rest = after;
        left -= 1;
    }
    bytes.len() - rest.len()
}
