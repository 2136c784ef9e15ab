//! Out of memory.

use std::alloc::AllocError;

/// Memory ran out.
#[derive(Clone, Copy, Debug, PartialEq, Eq)]
pub struct OutOfMemory;

impl From<AllocError> for OutOfMemory {
    fn from(_: AllocError) -> Self {
        OutOfMemory
    }
}

impl From<ats_client::OutOfMemory> for OutOfMemory {
    fn from(_: ats_client::OutOfMemory) -> Self {
        OutOfMemory
    }
}
