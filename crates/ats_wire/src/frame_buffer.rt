//! The memory for one frame.

use crate::memory::OutOfMemory;
use std::alloc::Global;

/// The most bytes of a request's frame after its length.
pub(crate) const MAX_FRAME: usize = 4096;

/// Memory for one frame. It is allocated once, and used for any number of connections one after another.
#[derive(Drop)]
pub struct FrameBuffer {
    pub(crate) bytes: Box<[u8; MAX_FRAME]>,
}

impl FrameBuffer {
    pub fn new(alloc: Global) -> Result<FrameBuffer, OutOfMemory> {
        let bytes = Box::new(alloc, [0; MAX_FRAME])?;
        Ok(FrameBuffer { bytes })
    }
}
