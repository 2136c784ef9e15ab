//! Out of memory.

/// Memory ran out.
#[derive(Clone, Copy, Debug, PartialEq, Eq)]
pub struct OutOfMemory;

impl From<ats_base::OutOfMemory> for OutOfMemory {
    fn from(_: ats_base::OutOfMemory) -> Self {
        OutOfMemory
    }
}
