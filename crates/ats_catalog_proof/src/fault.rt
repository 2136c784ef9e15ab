//! Why there is no file.

use crate::memory::OutOfMemory;

/// Why a shard's proof is not appended.
#[derive(Clone, Copy, Debug, PartialEq, Eq)]
pub enum CatalogProveFault {
    /// The index is another than the first pass took for the shard.
    OtherIndex { shard: u32 },
    /// The shard's proof has this many bytes, more than 2^26.
    ProofTooLong { shard: u32, length: u64 },
    /// Memory ran out.
    OutOfMemory,
}

impl From<OutOfMemory> for CatalogProveFault {
    ghost use Rattle.std.specs.Prelude.{◌≡◌};
    ghost use Rattle.ats_catalog_proof.specs.declared.fault.CatalogProveFault.TheVariants.{OutOfMemory};

    ghost from_gives = { λ _ e. e ≡ OutOfMemory };

    fn from(_: OutOfMemory) -> Self {
        CatalogProveFault::OutOfMemory
    }
}

/// The file has this many bytes, more than 2^28.
#[derive(Clone, Copy, Debug, PartialEq, Eq)]
pub struct CatalogTooLong {
    pub length: u64,
}
