//! The terms of a document, as the leaves of its tree.

ghost use Rattle.std.specs.Prelude.{◌≡◌, ◌≢◌, ◌+◌, ◌<◌, ◌≤◌, ◌^◌, ◌∷◌, [], List, ℕ, length, take, slice_index, slice_index_or, IfOk};
ghost use Rattle.ats_terms.specs.Terms.{terms};
ghost use Rattle.ats_terms.specs.Query.{counted};
ghost use Rattle.ats_doctree.specs.Impacts.{doc_terms, AreImpacts};
ghost use Rattle.ats_doctree.specs.Sentinels.{term_at, impact_at, terms_leaves};
ghost use Rattle.ats_doctree.specs.Found.{IsSpot};

use crate::memory::OutOfMemory;
use crate::spot::Spot;
use ats_hash::{Hash32, Steps};
use ats_impact::{Collection, impact};
use ats_terms::{SortedTerms, TermCounts};
use ats_tree::{HashedString, Leaves, ShortLeaves};
use std::alloc::Global;
use std::marker::Model;

/// The distinct terms of a document in byte order, each with its impact, between the two sentinels.
///
/// A document has at most 2^20 terms, so at most 2^20 + 2 leaves. The counts are kept, and an impact is computed when
/// it is read.
#[derive(Drop)]
pub struct DocTerms {
    counts: TermCounts,
    total: u32,
    len: u32,
    documents: u32,
}

impl Model for DocTerms {
    ghost use Rattle.std.specs.Prelude.{List, ℕ};
    ghost use Rattle.ats_doctree.specs.Impacts.{with_impacts};
    ghost use Rattle.ats_doctree.specs.Inner.Kept.{AreCounts};

    ghost Value = { List (List ℕ × ℕ) };

    ghost view = { λ d. with_impacts d.total d.len d.documents d.counts };

    ghost invariant = { λ d. AreCounts d.total d.len d.documents d.counts };
}

// The most bytes that a term has with its length.
const FRONT_BYTES: usize = 65;

// Puts the length of a term and then the term at the start of a block.
fn put_term(block: &mut [u8; FRONT_BYTES], term: &[u8])
    requires { length term.now ≤ 64 }
    ensures { take (length term.now + 1) block.new ≡ length term.now ∷ term.now }
{
    block[0] = term.len() as u8;
    block[1..term.len() + 1].copy_from_slice(term);
}

impl DocTerms {
    /// The terms of a document, counted from 0.
    pub fn of(alloc: Global, collection: &Collection, doc: u32) -> Result<Self, OutOfMemory>
        requires { doc < length collection.now }
        ensures { IfOk result (λ made. made ≡ doc_terms collection.now doc) }
    {
        let counts = TermCounts::of(alloc, collection.terms(doc))?;
        Ok(DocTerms::from_counts(counts, collection, doc))
    }

    /// The terms of a document, counted from 0, for a caller who has counted them already. It allocates nothing.
    pub fn from_counts(counts: TermCounts, collection: &Collection, doc: u32) -> Self
        requires doc { doc < length collection.now }
        requires counts { counts ≡ counted (terms (slice_index_or collection.now doc [])) }
        ensures { result ≡ doc_terms collection.now doc }
    {
        DocTerms {
            counts,
            total: collection.total(),
            len: collection.terms(doc).len() as u32,
            documents: collection.documents(),
        }
    }

    /// The term of the leaf at position `p`, counted from 0, sentinels included. It is empty in the low sentinel, and
    /// the single byte 0xFF in the high one.
    pub fn term(&self, p: u32) -> &[u8]
        requires { p < length self.now + 2 }
        ensures value { result.now ≡ term_at self.now p }
        ensures few { length result.now ≤ 64 }
    {
        if p == 0 {
            return &[];
        }
        let i = p as usize - 1;
        if i == self.counts.len() {
            return &[0xff];
        }
        self.counts.term(i)
    }

    /// The impact of the leaf at position `p`, counted from 0, sentinels included: 1 to 2,200 for a term, and 0 in the
    /// sentinels.
    pub fn impact(&self, p: u32) -> u16
        requires { p < length self.now + 2 }
        ensures value { result ≡ impact_at self.now p }
        ensures some { 1 ≤ p → p ≤ length self.now → 1 ≤ result }
        ensures few { result ≤ 2200 }
    {
        if p == 0 || p as usize > self.counts.len() {
            return 0;
        }
        let count = self.counts.count(p as usize - 1);
        impact(count, self.total, self.len, self.documents)
    }

    /// Finds the place of a term. The term must not be empty and must not begin with 0xFF.
    pub fn find(&self, term: &[u8]) -> Spot
        requires some { 1 ≤ length term.now }
        requires front { slice_index term.now 0 < 255 }
        ensures spot { IsSpot self.now term.now result }
        ensures only { (p : ℕ) → p < length self.now + 2 → term_at self.now p ≡ term.now → result ≡ Spot.At p }
    {
        match ats_terms::find(self, term) {
            ats_terms::Spot::At(p) => Spot::At(p),
            ats_terms::Spot::Between(p) => Spot::Between(p),
        }
    }
}

impl SortedTerms for DocTerms {
    ghost count = { length };

    ghost at = { term_at };

    fn positions(&self) -> u32 {
        self.len()
    }

    fn term_at(&self, p: u32) -> &[u8] {
        self.term(p)
    }
}

impl Leaves for DocTerms {
    ghost items = { terms_leaves };

    fn len(&self) -> u32
        ensures value { result ≡ length (terms_leaves self.now) }
        ensures count { result ≡ length self.now + 2 }
        ensures few { result ≤ 2 ^ 20 + 2 }
        ensures holds { AreImpacts self.now }
    {
        self.counts.len() as u32 + 2
    }

    fn leaf_digest<H: Hash32>(&self, i: u32, steps: &mut Steps) -> [u8; 32] {
        let term = self.term(i);
        let mut block = [0; FRONT_BYTES];
        put_term(&mut block, term);
        let front = &block[..term.len() + 1];
        H::digest2(0, front, &self.impact(i).to_be_bytes(), steps)
    }
}

impl ShortLeaves for DocTerms {
    fn leaf_string(&self, i: u32) -> HashedString {
        let term = self.term(i);
        let mut string = HashedString::tagged(0, &[term.len() as u8], term);
        string.push(&self.impact(i).to_be_bytes());
        string
    }
}
