//! The error for lack of memory.

/// Memory ran out.
#[derive(Clone, Copy, Debug, PartialEq, Eq)]
pub struct OutOfMemory;

impl From<ats_terms::OutOfMemory> for OutOfMemory {
    fn from(_: ats_terms::OutOfMemory) -> Self {
        OutOfMemory
    }
}
