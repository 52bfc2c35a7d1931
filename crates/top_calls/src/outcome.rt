// What a call gave, and what is asked of it.
use iso_memdisk::MemDisk;
use std::alloc::{AllocError, Global};

/// What a call gave.
#[derive(Drop)]
pub struct Outcome {
    pub status: u8,
    pub output: Vec<u8>,
    pub disk: MemDisk,
}

impl Outcome {
    /// Whether it ended with this status and this output.
    pub fn gave(&self, status: u8, output: &[u8]) -> bool {
        self.status == status && self.output.as_slice() == output
    }

    /// The image that a crash leaves for this pick: for 0 what it was at the last sync, and for 1 all that was written.
    ///
    /// # Errors
    ///
    /// Want of memory.
    pub fn image(&self, alloc: Global, pick: u64) -> Result<Vec<u8>, AllocError> {
        self.disk.crash(alloc, pick).or(Err(AllocError))
    }
}
