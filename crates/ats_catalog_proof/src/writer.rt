//! The bytes of a catalog's proof, as far as they are written.

ghost use Rattle.std.specs.Prelude.{◌≡◌, ◌+◌, ◌≤◌, ◌<◌, ◌^◌, ◌++◌, ℕ, List, length, OnOk, IfOk, IfErr};
ghost use Rattle.std.specs.List.{All, concat};
ghost use Rattle.ats_proof.specs.Written.{after, writing};
ghost use Rattle.ats_catalog_bytes.specs.Value.{proof_fields};
ghost use Rattle.ats_catalog_proof.specs.Written.{front_bytes};

use crate::memory::OutOfMemory;
use ats_base::Bytes;
use ats_proof::records_are_joined;
use std::alloc::Global;
use std::marker::Model;

/// The most bytes that a catalog's proof may have.
const MAX_BYTES: u64 = 1 << 28;

/// The bytes of a catalog's proof that were written. Past the limit of 2^28 they are counted, and not kept.
#[derive(Drop)]
pub(crate) struct CatalogWriter {
    asked: u64,
    kept: Option<Bytes>,
}

impl Model for CatalogWriter {
    ghost use Rattle.std.specs.Prelude.{◌^◌};
    ghost use Rattle.ats_proof.specs.Written.{Written};
    ghost use Rattle.ats_catalog_proof.specs.Inner.Kept.{IsKept};

    ghost Value = { Written };

    ghost view = { λ w. record { limit = 2 ^ 28; asked = w.asked; kept = w.kept } };

    ghost invariant = { λ w. IsKept w.asked w.kept };
}

// The bytes up to the last root.
fn front(alloc: Global, roots: &[[u8; 32]]) -> Result<Bytes, OutOfMemory>
    requires few { length roots.now ≤ 4096 }
    ensures { IfOk result (λ bytes. bytes ≡ front_bytes roots.now) }
{
    let [a, b, c, d] = (roots.len() as u32).to_be_bytes();
    let mut bytes = Bytes::new(alloc);
    bytes.extend(&[b'A', b'T', b'S', b'S', 1, a, b, c, d])?;
    for root in roots {
        bytes.extend(root)?;
    }
    Ok(bytes)
}

impl CatalogWriter {
    /// A writer to which the front was written: how many shards there are, and their roots.
    pub(crate) fn begin(alloc: Global, roots: &[[u8; 32]]) -> Result<Self, OutOfMemory>
        requires few { length roots.now ≤ 4096 }
        requires sized { All (λ root. length root ≡ 32) roots.now }
        ensures front { IfOk result (λ made. made ≡ writing (2 ^ 28) (front_bytes roots.now)) }
        ensures small { IfOk result (λ made. made.asked ≤ 2 ^ 18) }
    {
        let bytes = front(alloc, roots)?;
        let asked = bytes.len() as u64;
        Ok(CatalogWriter {
            asked,
            kept: Some(bytes),
        })
    }

    // Appends bytes.
    fn append(&mut self, bytes: &[u8]) -> Result<(), OutOfMemory>
        requires space { self.old.asked + length bytes.now ≤ 2 ^ 63 }
        ensures ok { OnOk result (self.new ≡ after self.old bytes.now) }
        ensures size { OnOk result (self.new.asked ≡ self.old.asked + length bytes.now) }
    {
        let asked = self.asked + bytes.len() as u64;
        if asked > MAX_BYTES {
            self.kept = None;
        } else if let Some(kept) = &mut self.kept {
            kept.extend(bytes)?;
        }
        self.asked = asked;
        Ok(())
    }

    /// Appends the proof of a shard, after its length.
    pub(crate) fn put(&mut self, proof: &[u8]) -> Result<(), OutOfMemory>
        requires short { length proof.now ≤ 2 ^ 26 }
        requires space { self.old.asked ≤ 2 ^ 62 }
        ensures ok { OnOk result ((bytes : List ℕ) → self.old ≡ writing (2 ^ 28) bytes
            → self.new ≡ writing (2 ^ 28) (bytes ++ concat (proof_fields proof.now))) }
        ensures size { OnOk result (self.new.asked ≡ self.old.asked + 4 + length proof.now) }
    {
        records_are_joined();
        self.append(&(proof.len() as u32).to_be_bytes())?;
        self.append(proof)?;
        Ok(())
    }

    /// All bytes, or how many there are if those are more than the limit.
    pub(crate) fn finish(self) -> Result<Bytes, u64>
        ensures whole { (bytes : List ℕ) → self ≡ writing (2 ^ 28) bytes
            → IfOk result (λ made. (made ≡ bytes) × (length made ≤ 2 ^ 28)) }
        ensures beyond { (bytes : List ℕ) → self ≡ writing (2 ^ 28) bytes
            → IfErr result (λ n. (n ≡ length bytes) × (2 ^ 28 < n)) }
        ensures within { IfOk result (λ made. length made ≤ 2 ^ 28) }
    {
        match self.kept {
            Some(bytes) => Ok(bytes),
            None => Err(self.asked),
        }
    }
}
