//! An index as bytes.

ghost use Rattle.std.specs.Prelude.{◌≡◌, ◌++◌, ◌<◌, ◌≤◌, ◌^◌, ℕ, List, length, OnOk};
ghost use Rattle.std.specs.Int.{to_be_bytes, w16, w32};
ghost use Rattle.std.specs.List.{flat_map};
ghost use Rattle.ats_lists.specs.Leaf.{leaf_bytes};
ghost use Rattle.ats_index.specs.Spelling.{list_bytes, lists_bytes, text_bytes, texts_bytes};

use crate::compare::Takes;
use crate::memory::OutOfMemory;
use ats_impact::Collection;
use ats_lists::{Format, Lists};
use ats_postings::Entry;
use byteorder::{BigEndian, ByteOrder};

pub(crate) const MAGIC: [u8; 4] = *b"ATSI";

// Puts a number in 4 bytes.
fn put_u32<W: Takes>(to: &mut W, number: u32) -> Result<(), OutOfMemory>
    ensures { (about front : List ℕ) → W.has to.old about front
        → OnOk result (W.has to.new about (front ++ to_be_bytes w32 number)) }
{
    let mut bytes = [0; 4];
    BigEndian::write_u32(&mut bytes, number);
    to.put(&bytes)
}

// Puts a number in 2 bytes.
fn put_u16<W: Takes>(to: &mut W, number: u16) -> Result<(), OutOfMemory>
    ensures { (about front : List ℕ) → W.has to.old about front
        → OnOk result (W.has to.new about (front ++ to_be_bytes w16 number)) }
{
    let mut bytes = [0; 2];
    BigEndian::write_u16(&mut bytes, number);
    to.put(&bytes)
}

// Puts a text after its length.
#[tactic(auto, unfolding(crate::specs::Spelling::text_bytes))]
fn put_text<W: Takes>(to: &mut W, text: &[u8]) -> Result<(), OutOfMemory>
    requires { length text.now < 2 ^ 32 }
    ensures { (about front : List ℕ) → W.has to.old about front
        → OnOk result (W.has to.new about (front ++ text_bytes text.now)) }
{
    put_u32(to, text.len() as u32)?;
    to.put(text)?;
    Ok(())
}

/// Puts the first fields of an index in this format and then the texts of a collection.
pub(crate) fn put_texts<W: Takes>(
    to: &mut W,
    format: Format,
    collection: &Collection,
) -> Result<(), OutOfMemory>
    ensures { (about front : List ℕ) → W.has to.old about front
        → OnOk result (W.has to.new about (front ++ texts_bytes format collection.now)) }
{
    let documents = collection.documents();
    to.put(&MAGIC)?;
    to.put(&[format.number()])?;
    put_u32(to, documents)?;
    for doc in 0..documents {
        put_text(to, collection.text(doc).as_bytes())?;
    }
    Ok(())
}

// Puts the entries of a list.
fn put_entries<W: Takes>(to: &mut W, entries: &[Entry]) -> Result<(), OutOfMemory>
    ensures { (about front : List ℕ) → W.has to.old about front
        → OnOk result (W.has to.new about (front ++ flat_map leaf_bytes entries.now)) }
{
    for entry in entries {
        put_u32(to, entry.doc)?;
        put_u16(to, entry.impact)?;
    }
    Ok(())
}

// Puts a list after its term.
#[tactic(auto, unfolding(crate::specs::Spelling::list_bytes))]
fn put_list<W: Takes>(to: &mut W, term: &[u8], entries: &[Entry]) -> Result<(), OutOfMemory>
    requires term { length term.now ≤ 64 }
    requires few { length entries.now ≤ 65536 }
    ensures { (about front : List ℕ) → W.has to.old about front
        → OnOk result (W.has to.new about (front ++ list_bytes (term.now, entries.now))) }
{
    to.put(&[term.len() as u8])?;
    to.put(term)?;
    put_u32(to, entries.len() as u32)?;
    put_entries(to, entries)
}

/// Puts the number of lists and then the lists.
pub(crate) fn put_lists<W: Takes>(to: &mut W, lists: &Lists) -> Result<(), OutOfMemory>
    ensures { (about front : List ℕ) → W.has to.old about front
        → OnOk result (W.has to.new about (front ++ lists_bytes lists.now)) }
{
    put_u32(to, lists.len())?;
    for i in 0..lists.len() {
        put_list(to, lists.term(i), lists.list(i))?;
    }
    Ok(())
}

// The bytes before the texts, and those of the number of lists and of the root.
const FRONT_BYTES: usize = 9;

const LISTS_AND_ROOT_BYTES: usize = 36;

// The bytes of the length of a text; of the lengths of a term and of its list; and of an entry.
const TEXT_LENGTH_BYTES: usize = 4;

const LIST_LENGTH_BYTES: usize = 5;

const ENTRY_BYTES: usize = 6;

/// How many bytes the index of these has, so that room for them is allocated at once.
pub(crate) fn index_size(collection: &Collection, lists: &Lists) -> usize {
    let mut size = FRONT_BYTES + LISTS_AND_ROOT_BYTES;
    for doc in 0..collection.documents() {
        size = size
            .saturating_add(TEXT_LENGTH_BYTES)
            .saturating_add(collection.text(doc).len());
    }
    for i in 0..lists.len() {
        let entries = lists.list(i).len().saturating_mul(ENTRY_BYTES);
        size = size
            .saturating_add(LIST_LENGTH_BYTES)
            .saturating_add(lists.term(i).len())
            .saturating_add(entries);
    }
    size
}
