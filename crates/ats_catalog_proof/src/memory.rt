//! Out of memory.

use std::alloc::{AllocError, AllocFailed};

/// Memory ran out.
#[derive(Clone, Copy, Debug, PartialEq, Eq)]
pub struct OutOfMemory;

impl From<AllocError> for OutOfMemory {
    fn from(_: AllocError) -> Self {
        OutOfMemory
    }
}

impl<T: Drop> From<AllocFailed<T>> for OutOfMemory {
    fn from(_: AllocFailed<T>) -> Self {
        OutOfMemory
    }
}

impl From<ats_base::OutOfMemory> for OutOfMemory {
    fn from(_: ats_base::OutOfMemory) -> Self {
        OutOfMemory
    }
}

impl From<ats_impact::OutOfMemory> for OutOfMemory {
    fn from(_: ats_impact::OutOfMemory) -> Self {
        OutOfMemory
    }
}
