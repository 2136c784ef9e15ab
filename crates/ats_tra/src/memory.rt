//! Out of memory.

use std::alloc::AllocFailed;

/// Memory ran out.
#[derive(Clone, Copy, Debug, PartialEq, Eq)]
pub struct OutOfMemory;

impl<T: Drop> From<AllocFailed<T>> for OutOfMemory {
    fn from(_: AllocFailed<T>) -> Self {
        OutOfMemory
    }
}

impl From<ats_bound::OutOfMemory> for OutOfMemory {
    fn from(_: ats_bound::OutOfMemory) -> Self {
        OutOfMemory
    }
}
