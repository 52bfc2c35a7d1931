// Where a file store is, and why its calls are refused.

use crate::stores::{Area, Region, StoreError};

/// Why a call of the file store is refused.
#[derive(Clone, Copy, Debug, PartialEq, Eq)]
pub enum FsError {
    /// A name does not have 1 to 28 bytes.
    BadName,
    /// The bytes that are asked for or written are not 1 to 4,096, or they begin after the file's end, or pass the limit of a file.
    BadRange,
    /// The name has a file.
    Exists,
    /// A block is not well formed, blocks are wanting, or the transaction refuses an access.
    Store(StoreError),
}

/// The blocks that a file store has: the tree region, whose keys are the names, and the region of the files' blocks after it.
#[derive(Clone, Copy)]
pub struct FsRegion {
    pub tree: Region,
    pub files: Region,
}

/// Where a file store is: the same with the size of a block.
#[derive(Clone, Copy)]
pub struct FileAreas {
    pub tree: Area,
    pub files: Area,
}
