//! The writer of a proof's records.

ghost use Rattle.std.specs.Prelude.{◌≡◌, ◌+◌, ◌≤◌, ◌<◌, ◌^◌, ℕ, List, [], length, Some, IsOk, OnOk, OnErr, IfOk, IfErr};
ghost use Rattle.ats_lists.specs.declared.format.Format.TheVariants.{One};
ghost use Rattle.ats_proof.specs.Records.{algorithm_byte, front_record, count16_record, count32_record, dict_leaf_record, digest_record, slot_record, met_record, entry_record, doc_leaf_record, term_leaf_record, answer_record};
ghost use Rattle.ats_proof.specs.Written.{writing, after};

use crate::memory::OutOfMemory;
use crate::packed::Packed;
use crate::record::{Algorithm, Slot, TermLeaf};
use ats_base::Bytes;
use ats_dict::{DictLeaf, Header};
use ats_doctree::DocLeaf;
use ats_lists::Format;
use std::alloc::Global;
use std::marker::Model;

const MAGIC: [u8; 4] = *b"ATSP";

/// A proof that is being written, record by record.
///
/// It keeps the bytes while they are within its limit. Past that it only counts them, and allocates nothing. A writer
/// keeps its allocator. The caller decides which record comes next. If memory runs out for a record, the writer stays
/// as it was.
#[derive(Drop)]
pub struct ProofWriter {
    limit: u64,
    asked: u64,
    kept: Option<Bytes>,
}

impl Model for ProofWriter {
    ghost use Rattle.ats_proof.specs.Written.{Written};
    ghost use Rattle.ats_proof.specs.Inner.Written.{Holds};

    ghost Value = { Written };

    ghost view = { λ w. record { limit = w.limit; asked = w.asked; kept = w.kept } };

    ghost invariant = { λ w. Holds w.limit w.asked w.kept };
}

// The byte of an algorithm.
fn algorithm_byte(algorithm: Algorithm) -> u8
    ensures { result ≡ algorithm_byte algorithm }
{
    match algorithm {
        Algorithm::Tra => 1,
        Algorithm::Tnra => 2,
    }
}

impl ProofWriter {
    /// An empty writer of at most `limit` bytes. It allocates nothing.
    pub fn new(alloc: Global, limit: u64) -> Self
        ensures made { result ≡ writing limit [] }
        ensures size { result.asked ≡ 0 }
    {
        ProofWriter {
            limit,
            asked: 0,
            kept: Some(Bytes::new(alloc)),
        }
    }

    // Appends a record's bytes.
    fn append(&mut self, bytes: &[u8]) -> Result<(), OutOfMemory>
        requires { self.old.asked + length bytes.now ≤ 2 ^ 63 }
        ensures ok { OnOk result (self.new ≡ after self.old bytes.now) }
        ensures size { OnOk result (self.new.asked ≡ self.old.asked + length bytes.now) }
        ensures counts { self.old.limit < self.old.asked + length bytes.now → IsOk result }
        ensures err { OnErr result (self.new ≡ self.old) }
    {
        let asked = self.asked + bytes.len() as u64;
        if asked > self.limit {
            self.kept = None;
        } else if let Some(kept) = &mut self.kept {
            kept.extend(bytes)?;
        }
        self.asked = asked;
        Ok(())
    }

    /// The front of a proof over lists of format One.
    pub fn front(
        &mut self,
        algorithm: Algorithm,
        header: &Header,
        terms: u16,
    ) -> Result<(), OutOfMemory>
        requires { self.old.asked + 113 ≤ 2 ^ 63 }
        ensures ok { OnOk result (self.new ≡ after self.old (front_record One algorithm header.now terms)) }
        ensures size { OnOk result (self.new.asked ≡ self.old.asked + 113) }
        ensures counts { self.old.limit < self.old.asked + 113 → IsOk result }
        ensures err { OnErr result (self.new ≡ self.old) }
    {
        self.front_in(Format::One, algorithm, header, terms)
    }

    /// The front: magic, version, algorithm, header, and the number of the query's terms. The version is 1 if each list
    /// of the archive is one tree, and 2 if each is a chain of blocks.
    pub fn front_in(
        &mut self,
        format: Format,
        algorithm: Algorithm,
        header: &Header,
        terms: u16,
    ) -> Result<(), OutOfMemory>
        requires { self.old.asked + 113 ≤ 2 ^ 63 }
        ensures ok { OnOk result (self.new ≡ after self.old (front_record format algorithm header.now terms)) }
        ensures size { OnOk result (self.new.asked ≡ self.old.asked + 113) }
        ensures counts { self.old.limit < self.old.asked + 113 → IsOk result }
        ensures err { OnErr result (self.new ≡ self.old) }
    {
        let mut record = Packed::new();
        record.put(&MAGIC);
        record.put(&[format.number(), algorithm_byte(algorithm)]);
        record.put(&header.bytes());
        record.put(&terms.to_be_bytes());
        self.append(record.as_slice())
    }

    /// How many of something come next, in 2 bytes.
    pub fn count16(&mut self, n: u16) -> Result<(), OutOfMemory>
        requires { self.old.asked + 2 ≤ 2 ^ 63 }
        ensures ok { OnOk result (self.new ≡ after self.old (count16_record n)) }
        ensures size { OnOk result (self.new.asked ≡ self.old.asked + 2) }
        ensures counts { self.old.limit < self.old.asked + 2 → IsOk result }
        ensures err { OnErr result (self.new ≡ self.old) }
    {
        self.append(&n.to_be_bytes())
    }

    /// How many of something come next, in 4 bytes.
    pub fn count32(&mut self, n: u32) -> Result<(), OutOfMemory>
        requires { self.old.asked + 4 ≤ 2 ^ 63 }
        ensures ok { OnOk result (self.new ≡ after self.old (count32_record n)) }
        ensures size { OnOk result (self.new.asked ≡ self.old.asked + 4) }
        ensures counts { self.old.limit < self.old.asked + 4 → IsOk result }
        ensures err { OnErr result (self.new ≡ self.old) }
    {
        self.append(&n.to_be_bytes())
    }

    #[tactic(auto, unfolding(ats_dict::specs::Entry::dict_leaf_bytes))]
    /// A leaf of the dictionary, with its position in the tree.
    pub fn dict_leaf(&mut self, position: u32, leaf: &DictLeaf<'_>) -> Result<(), OutOfMemory>
        requires term { length leaf.now.term.now ≤ 64 }
        requires few { self.old.asked + 41 + length leaf.now.term.now ≤ 2 ^ 63 }
        ensures ok { OnOk result (self.new
            ≡ after self.old (dict_leaf_record position leaf.now.term.now leaf.now.f leaf.now.list_root)) }
        ensures size { OnOk result (self.new.asked ≡ self.old.asked + 41 + length leaf.now.term.now) }
        ensures counts { self.old.limit < self.old.asked + 41 + length leaf.now.term.now → IsOk result }
        ensures err { OnErr result (self.new ≡ self.old) }
    {
        let mut record = Packed::new();
        record.put(&position.to_be_bytes());
        record.put_term(leaf.term);
        record.put(&leaf.f.to_be_bytes());
        record.put(&leaf.list_root);
        self.append(record.as_slice())
    }

    /// The digest of a part of a tree that shows no leaf.
    pub fn digest(&mut self, digest: &[u8; 32]) -> Result<(), OutOfMemory>
        requires { self.old.asked + 32 ≤ 2 ^ 63 }
        ensures ok { OnOk result (self.new ≡ after self.old (digest_record digest.now)) }
        ensures size { OnOk result (self.new.asked ≡ self.old.asked + 32) }
        ensures counts { self.old.limit < self.old.asked + 32 → IsOk result }
        ensures err { OnErr result (self.new ≡ self.old) }
    {
        self.append(digest)
    }

    /// Where a section shows a term.
    pub fn slot(&mut self, slot: Slot) -> Result<(), OutOfMemory>
        requires { self.old.asked + 3 ≤ 2 ^ 63 }
        ensures ok { OnOk result (self.new ≡ after self.old (slot_record slot)) }
        ensures size { OnOk result (self.new.asked ≡ self.old.asked + 3) }
        ensures counts { self.old.limit < self.old.asked + 3 → IsOk result }
        ensures err { OnErr result (self.new ≡ self.old) }
    {
        let [high, low] = slot.index.to_be_bytes();
        self.append(&[u8::from(slot.present), high, low])
    }

    /// The number of a met document.
    pub fn met(&mut self, id: u32) -> Result<(), OutOfMemory>
        requires { self.old.asked + 4 ≤ 2 ^ 63 }
        ensures ok { OnOk result (self.new ≡ after self.old (met_record id)) }
        ensures size { OnOk result (self.new.asked ≡ self.old.asked + 4) }
        ensures counts { self.old.limit < self.old.asked + 4 → IsOk result }
        ensures err { OnErr result (self.new ≡ self.old) }
    {
        self.append(&id.to_be_bytes())
    }

    /// An entry of a list: which met document it names, counted from 0, and its impact.
    pub fn entry(&mut self, index: u32, impact: u16) -> Result<(), OutOfMemory>
        requires { self.old.asked + 6 ≤ 2 ^ 63 }
        ensures ok { OnOk result (self.new ≡ after self.old (entry_record index impact)) }
        ensures size { OnOk result (self.new.asked ≡ self.old.asked + 6) }
        ensures counts { self.old.limit < self.old.asked + 6 → IsOk result }
        ensures err { OnErr result (self.new ≡ self.old) }
    {
        let [a, b, c, d] = index.to_be_bytes();
        let [high, low] = impact.to_be_bytes();
        self.append(&[a, b, c, d, high, low])
    }

    /// A leaf of the documents.
    pub fn doc_leaf(&mut self, leaf: &DocLeaf) -> Result<(), OutOfMemory>
        requires { self.old.asked + 36 ≤ 2 ^ 63 }
        ensures ok { OnOk result (self.new ≡ after self.old (doc_leaf_record leaf.now)) }
        ensures size { OnOk result (self.new.asked ≡ self.old.asked + 36) }
        ensures counts { self.old.limit < self.old.asked + 36 → IsOk result }
        ensures err { OnErr result (self.new ≡ self.old) }
    {
        self.append(&leaf.bytes())
    }

    #[tactic(auto, unfolding(ats_doctree::specs::Sentinels::leaf_bytes))]
    /// A leaf of the terms of a document, with its position in the tree.
    pub fn term_leaf(&mut self, position: u32, leaf: &TermLeaf<'_>) -> Result<(), OutOfMemory>
        requires term { length leaf.now.term.now ≤ 64 }
        requires few { self.old.asked + 7 + length leaf.now.term.now ≤ 2 ^ 63 }
        ensures ok { OnOk result (self.new
            ≡ after self.old (term_leaf_record position leaf.now.term.now leaf.now.impact)) }
        ensures size { OnOk result (self.new.asked ≡ self.old.asked + 7 + length leaf.now.term.now) }
        ensures counts { self.old.limit < self.old.asked + 7 + length leaf.now.term.now → IsOk result }
        ensures err { OnErr result (self.new ≡ self.old) }
    {
        let mut record = Packed::new();
        record.put(&position.to_be_bytes());
        record.put_term(leaf.term);
        record.put(&leaf.impact.to_be_bytes());
        self.append(record.as_slice())
    }

    /// A row of the answer: which met document it is, counted from 0.
    pub fn answer(&mut self, index: u32) -> Result<(), OutOfMemory>
        requires { self.old.asked + 4 ≤ 2 ^ 63 }
        ensures ok { OnOk result (self.new ≡ after self.old (answer_record index)) }
        ensures size { OnOk result (self.new.asked ≡ self.old.asked + 4) }
        ensures counts { self.old.limit < self.old.asked + 4 → IsOk result }
        ensures err { OnErr result (self.new ≡ self.old) }
    {
        self.append(&index.to_be_bytes())
    }

    /// All bytes, or how many were appended if those are more than the limit.
    pub fn finish(self) -> Result<Bytes, u64>
        ensures bytes { IfOk result (λ bytes. self.kept ≡ Some bytes) }
        ensures whole { (bytes : List ℕ) → self ≡ writing self.limit bytes → IfOk result (λ made. made ≡ bytes) }
        ensures number { IfOk result (λ bytes. length bytes ≡ self.asked) }
        ensures within { IfOk result (λ _. self.asked ≤ self.limit) }
        ensures asked { IfErr result (λ n. n ≡ self.asked) }
        ensures beyond { IfErr result (λ _. self.limit < self.asked) }
    {
        match self.kept {
            Some(bytes) => Ok(bytes),
            None => Err(self.asked),
        }
    }
}
