//! The error for lack of memory.

use std::alloc::{AllocError, AllocFailed};

/// Memory ran out.
#[derive(Clone, Copy, Debug, PartialEq, Eq)]
pub struct OutOfMemory;

impl From<AllocError> for OutOfMemory {
    fn from(_: AllocError) -> Self {
        OutOfMemory
    }
}

impl<T: Drop> From<AllocFailed<T>> for OutOfMemory {
    fn from(_: AllocFailed<T>) -> Self {
        OutOfMemory
    }
}

impl From<ats_terms::OutOfMemory> for OutOfMemory {
    fn from(_: ats_terms::OutOfMemory) -> Self {
        OutOfMemory
    }
}

impl From<ats_lists::OutOfMemory> for OutOfMemory {
    fn from(_: ats_lists::OutOfMemory) -> Self {
        OutOfMemory
    }
}

impl From<ats_doctree::OutOfMemory> for OutOfMemory {
    fn from(_: ats_doctree::OutOfMemory) -> Self {
        OutOfMemory
    }
}

impl From<ats_dict::OutOfMemory> for OutOfMemory {
    fn from(_: ats_dict::OutOfMemory) -> Self {
        OutOfMemory
    }
}

impl From<ats_base::OutOfMemory> for OutOfMemory {
    fn from(_: ats_base::OutOfMemory) -> Self {
        OutOfMemory
    }
}

impl From<ats_impact::OutOfMemory> for OutOfMemory {
    fn from(_: ats_impact::OutOfMemory) -> Self {
        OutOfMemory
    }
}

impl From<ats_tree::OutOfMemory> for OutOfMemory {
    fn from(_: ats_tree::OutOfMemory) -> Self {
        OutOfMemory
    }
}
