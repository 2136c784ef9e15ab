//! Out of memory.

/// Memory ran out.
#[derive(Clone, Copy, Debug, PartialEq, Eq)]
pub struct OutOfMemory;

impl From<ats_impact::OutOfMemory> for OutOfMemory {
    fn from(_: ats_impact::OutOfMemory) -> Self {
        OutOfMemory
    }
}
