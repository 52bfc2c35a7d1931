// Disks in memory that fail.
use iso_memdisk::{CallKind, MemDisk};
use std::alloc::{AllocError, Global};

/// How a disk fails.
#[derive(Clone, Copy)]
pub enum Fault {
    /// At no call.
    Never,
    /// At each call after this number of calls.
    Behind(u64),
    /// At one call alone, counted from 1.
    At(u64),
    /// At one call of a kind alone, counted from 1 among those.
    OfKind(CallKind, u64),
}

/// How a disk fails from a call on: for good, or at that call alone.
#[derive(Clone, Copy)]
pub enum Failing {
    From,
    At,
}

impl Failing {
    /// So, from the call of this number on, counted from 1.
    pub fn fault(self, number: u64) -> Fault {
        match self {
            Failing::From => Fault::Behind(number.saturating_sub(1)),
            Failing::At => Fault::At(number),
        }
    }
}

/// A disk of these bytes that fails so.
///
/// # Errors
///
/// Want of memory.
pub fn faulty(alloc: Global, bytes: &[u8], fault: Fault) -> Result<MemDisk, AllocError> {
    let mut disk = MemDisk::new(alloc, bytes.to_vec(alloc)?);
    match fault {
        Fault::Never => {}
        Fault::Behind(calls) => disk.fuse(calls),
        Fault::At(number) => disk.fail(number),
        Fault::OfKind(kind, number) => disk.fail_kind(kind, number),
    }
    Ok(disk)
}
