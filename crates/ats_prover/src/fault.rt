//! Why there is no proof.

use std::alloc::{AllocError, AllocFailed};

/// Why no proof was returned.
#[derive(Clone, Copy, Debug, PartialEq, Eq)]
pub enum ProveFault {
    /// The proof has this many bytes, more than the limit.
    ProofTooLong { length: u64 },
    OutOfMemory,
}

/// Memory ran out.
#[derive(Clone, Copy)]
pub(crate) struct OutOfMemory;

impl From<OutOfMemory> for ProveFault {
    ghost use Rattle.std.specs.Prelude.{◌≡◌};
    ghost use Rattle.ats_prover.specs.declared.fault.ProveFault.TheVariants.{OutOfMemory};

    ghost from_gives = { λ _ e. e ≡ OutOfMemory };

    fn from(_: OutOfMemory) -> Self {
        ProveFault::OutOfMemory
    }
}

impl From<AllocError> for OutOfMemory {
    fn from(_: AllocError) -> Self {
        OutOfMemory
    }
}

impl<T: Drop> From<AllocFailed<T>> for OutOfMemory {
    fn from(_: AllocFailed<T>) -> Self {
        OutOfMemory
    }
}

impl From<ats_tree::OutOfMemory> for OutOfMemory {
    fn from(_: ats_tree::OutOfMemory) -> Self {
        OutOfMemory
    }
}

impl From<ats_bound::OutOfMemory> for OutOfMemory {
    fn from(_: ats_bound::OutOfMemory) -> Self {
        OutOfMemory
    }
}

impl From<ats_lists::OutOfMemory> for OutOfMemory {
    fn from(_: ats_lists::OutOfMemory) -> Self {
        OutOfMemory
    }
}

impl From<ats_proof::OutOfMemory> for OutOfMemory {
    fn from(_: ats_proof::OutOfMemory) -> Self {
        OutOfMemory
    }
}

impl From<ats_tnra::OutOfMemory> for OutOfMemory {
    fn from(_: ats_tnra::OutOfMemory) -> Self {
        OutOfMemory
    }
}

impl From<ats_tra::OutOfMemory> for OutOfMemory {
    fn from(_: ats_tra::OutOfMemory) -> Self {
        OutOfMemory
    }
}
