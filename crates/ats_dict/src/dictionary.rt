//! The dictionary of a collection.

ghost use Rattle.std.specs.Prelude.{◌≡◌, ◌+◌, ◌<◌, ◌≤◌, ◌^◌, ℕ, [], ◌∷◌, ◌++◌, length, drop, slice_index, OnOk, OnErr};
ghost use Rattle.std.specs.Int.{to_be_bytes, w32};
ghost use Rattle.ats_terms.specs.Terms.{IsTerm};
ghost use Rattle.ats_dict.specs.Dictionary.{IsAboveLast, IsDictionary, entry_at, term_at, zero_root, dict_leaves};
ghost use Rattle.ats_dict.specs.Found.{IsSpot};

use crate::pieces::put;
use crate::spot::Spot;
use ats_hash::{Hash32, Steps};
use ats_terms::SortedTerms;
use ats_tree::{HashedString, Leaves, ShortLeaves};
use std::alloc::Global;
use std::marker::Model;

/// Memory ran out.
#[derive(Clone, Copy, Debug, PartialEq, Eq)]
pub struct OutOfMemory;

/// A leaf of the dictionary. The low sentinel has the empty term, the high one the single byte 0xFF; both have `f` 0
/// and a root of zero bytes.
#[derive(Clone, Copy, Debug)]
pub struct DictLeaf<'a> {
    /// The bytes of the term: 1 to 64 of them, none in the low sentinel.
    pub term: &'a [u8],
    /// How many documents have the term.
    pub f: u32,
    /// The root of the term's list.
    pub list_root: [u8; 32],
}

// A leaf, with its term and the length before it in one piece, as it is hashed.
#[derive(Drop)]
struct Parts<'a> {
    front: &'a [u8],
    f: u32,
    list_root: [u8; 32],
}

// The range of the length and the term of an entry, and the other parts of its leaf.
#[derive(Clone, Copy)]
struct Stored {
    start: u32,
    end: u32,
    f: u32,
    list_root: [u8; 32],
}

/// The terms of a collection in byte order, each with the number of its documents and the root of its list,
/// between the two sentinels.
///
/// There are at most 2^24 terms of 1 to 64 bytes, of which none begins with 0xFF. They are in one block of memory, each
/// after its length. A dictionary keeps its allocator.
#[derive(Drop)]
pub struct Dictionary {
    fronts: Vec<u8>,
    entries: Vec<Stored>,
}

impl Model for Dictionary {
    ghost use Rattle.std.specs.Prelude.{List};
    ghost use Rattle.ats_dict.specs.Entry.{DictEntry};

    ghost Value = { List DictEntry };

    ghost use Rattle.ats_dict.specs.Inner.Packed.{entries_of, ArePacked};

    ghost view = { λ d. entries_of d.fronts.items d.entries.items };

    ghost invariant = { λ d. ArePacked d.fronts.items d.entries.items };
}

// A sentinel, by its length and its term.
#[tactic(auto, unfolding(crate::specs::Dictionary::zero_root))]
fn sentinel(front: &[u8]) -> Parts<'_>
    ensures front { result.front.now ≡ front.now }
    ensures number { result.f ≡ 0 }
    ensures root { result.list_root ≡ zero_root }
{
    Parts {
        front,
        f: 0,
        list_root: [0; 32],
    }
}

// The bytes of a number of documents and a root.
const BACK_BYTES: usize = 36;

// The part of a leaf after the term.
fn back(f: u32, list_root: &[u8; 32]) -> [u8; BACK_BYTES]
    ensures { result ≡ to_be_bytes w32 f ++ list_root.now }
{
    let mut back = [0; BACK_BYTES];
    put(&mut back, 0, &f.to_be_bytes());
    put(&mut back, 4, list_root);
    back
}

// Appends a term to the packed ones, its length first.
fn pack(fronts: &mut Vec<u8>, term: &[u8]) -> Result<(), OutOfMemory>
    requires { length term.now ≤ 64 }
    ensures ok { OnOk result (fronts.new.items ≡ fronts.old.items ++ length term.now ∷ term.now) }
    ensures err { OnErr result (fronts.new.items ≡ fronts.old.items) }
{
    let len = fronts.len();
    if fronts.push(term.len() as u8).is_err() {
        return Err(OutOfMemory);
    }
    if fronts.extend_from_slice(term).is_err() {
        fronts.truncate(len);
        return Err(OutOfMemory);
    }
    Ok(())
}

impl Dictionary {
    /// Only the sentinels. It allocates nothing.
    pub fn new(alloc: Global) -> Self
        ensures { result ≡ [] }
    {
        Dictionary {
            fronts: Vec::new(alloc),
            entries: Vec::new(alloc),
        }
    }

    /// Appends a term, with the number of its documents and the root of its list.
    pub fn push(&mut self, term: &[u8], f: u32, list_root: &[u8; 32]) -> Result<(), OutOfMemory>
        requires term { IsTerm term.now }
        requires above { IsAboveLast self.old term.now }
        requires few { length self.old < 2 ^ 24 }
        ensures ok { OnOk result (self.new ≡ self.old ++ record { term = term.now; f = f; root = list_root.now } ∷ []) }
        ensures err { OnErr result (self.new ≡ self.old) }
    {
        let start = self.fronts.len();
        pack(&mut self.fronts, term)?;
        let stored = Stored {
            start: start as u32,
            end: self.fronts.len() as u32,
            f,
            list_root: *list_root,
        };
        if self.entries.push(stored).is_err() {
            self.fronts.truncate(start);
            return Err(OutOfMemory);
        }
        Ok(())
    }

    // The leaf at a position, in the parts that are hashed.
    fn parts(&self, p: u32) -> Parts<'_>
        requires { p < length self.now + 2 }
        ensures entry { entry_at self.now p
            ≡ record { term = drop 1 result.front.now; f = result.f; root = result.list_root } }
        ensures front { result.front.now ≡ length (drop 1 result.front.now) ∷ drop 1 result.front.now }
        ensures few { length result.front.now ≤ 65 }
    {
        if p == 0 {
            return sentinel(&[0]);
        }
        match self.entries.get(p as usize - 1) {
            Some(stored) => Parts {
                front: &self.fronts[stored.start as usize..stored.end as usize],
                f: stored.f,
                list_root: stored.list_root,
            },
            None => sentinel(&[1, 0xff]),
        }
    }

    /// The leaf at position `p`, counted from 0, sentinels included.
    pub fn leaf(&self, p: u32) -> DictLeaf<'_>
        requires { p < length self.now + 2 }
        ensures { entry_at self.now p ≡ record { term = result.term.now; f = result.f; root = result.list_root } }
    {
        let Parts {
            front,
            f,
            list_root,
        } = self.parts(p);
        DictLeaf {
            term: &front[1..],
            f,
            list_root,
        }
    }

    /// Finds the place of a term. The term must not be empty and must not begin with 0xFF.
    pub fn find(&self, term: &[u8]) -> Spot
        requires some { 1 ≤ length term.now }
        requires front { slice_index term.now 0 < 255 }
        ensures spot { IsSpot self.now term.now result }
        ensures only { (p : ℕ) → p < length self.now + 2 → term_at self.now p ≡ term.now → result ≡ Spot.At p }
    {
        match ats_terms::find(self, term) {
            ats_terms::Spot::At(p) => Spot::At(p),
            ats_terms::Spot::Between(p) => Spot::Between(p),
        }
    }
}

impl SortedTerms for Dictionary {
    ghost count = { length };

    ghost at = { term_at };

    fn positions(&self) -> u32 {
        self.len()
    }

    fn term_at(&self, p: u32) -> &[u8] {
        self.leaf(p).term
    }
}

impl Leaves for Dictionary {
    ghost items = { dict_leaves };

    fn len(&self) -> u32
        ensures value { result ≡ length (dict_leaves self.now) }
        ensures count { result ≡ length self.now + 2 }
        ensures holds { IsDictionary self.now }
    {
        self.entries.len() as u32 + 2
    }

    fn leaf_digest<H: Hash32>(&self, i: u32, steps: &mut Steps) -> [u8; 32] {
        let parts = self.parts(i);
        H::digest2(0, parts.front, &back(parts.f, &parts.list_root), steps)
    }
}

impl ShortLeaves for Dictionary {
    fn leaf_string(&self, i: u32) -> HashedString {
        let parts = self.parts(i);
        HashedString::tagged(0, parts.front, &back(parts.f, &parts.list_root))
    }
}
