// The answers of a transaction's calls and of the stores, and where a store is.

use iso_model::{Bytes, Items};

/// Why a call of a transaction is refused.
#[derive(Clone, Copy, Debug, PartialEq, Eq)]
pub enum TxError {
    /// The array has no such block.
    BadBlock,
    /// The mark is empty or passes the end of the block.
    BadRange,
    /// There is no access to mark.
    NoAccess,
    /// The access has as many marks as it may.
    TooManyMarks,
    /// The transaction has as many accesses as it may.
    TooManyAccesses,
    /// The disk is down.
    Down,
    /// The disk has failed in this call.
    Disk,
    /// Want of memory.
    Memory,
    /// There is no transaction.
    NotInTx,
}

/// Why a call of a store is refused.
#[derive(Clone, Copy, Debug, PartialEq, Eq)]
pub enum StoreError {
    /// A key does not have 1 to 28 bytes.
    BadKey,
    /// A value has more than 32 bytes.
    BadValue,
    /// The call needs more blocks than are free.
    NoBlocks { need: u32, free: u32 },
    /// This block of the image is not what the call has to find there.
    Broken { block: u32 },
    /// The transaction refuses an access.
    Tx(TxError),
    /// Want of memory for the call's own buffers.
    Memory,
}

/// The blocks that a store has: the first one, and how many.
#[derive(Clone, Copy)]
pub struct Region {
    pub start: u32,
    pub size: u32,
}

/// Where a store is: how many bytes a block has, the region's first block, and how many blocks the region has.
#[derive(Clone, Copy)]
pub struct Area {
    pub size: u32,
    pub start: u32,
    pub blocks: u32,
}

/// A cell of a block; the block is counted from the start of its region.
#[derive(Clone, Copy)]
pub struct Spot {
    pub block: u32,
    pub cell: u32,
}

/// Keys with their values. Contracts see a list of pairs of byte lists.
pub type PairList = Items<(Bytes, Bytes)>;
