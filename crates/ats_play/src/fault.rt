//! Why a line of a document, or a file, was not played.

use std::alloc::{AllocError, AllocFailed};

/// Why a line of a document, or a file, was not played.
#[derive(Clone, Copy, Debug, PartialEq, Eq)]
pub enum Fault {
    /// Memory ran out.
    OutOfMemory,
    /// The line or the file cannot be read, or names something that is not there.
    Unread,
}

impl From<AllocError> for Fault {
    fn from(_: AllocError) -> Self {
        Fault::OutOfMemory
    }
}

impl<T: Drop> From<AllocFailed<T>> for Fault {
    fn from(_: AllocFailed<T>) -> Self {
        Fault::OutOfMemory
    }
}

impl From<ats_base::OutOfMemory> for Fault {
    fn from(_: ats_base::OutOfMemory) -> Self {
        Fault::OutOfMemory
    }
}

impl From<ats_terms::OutOfMemory> for Fault {
    fn from(_: ats_terms::OutOfMemory) -> Self {
        Fault::OutOfMemory
    }
}

impl From<std::io::Error> for Fault {
    fn from(_: std::io::Error) -> Self {
        Fault::Unread
    }
}
