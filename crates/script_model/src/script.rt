// The operations of a script and its lines. Operations that are added later are further variants.

use iso_model::{Bytes, Clash, Label, LabelList, LabelReplies, Mode};
use store_model::PairList;

/// How many labels a group has at most.
pub const MAX_LABELS: usize = 16;

/// What a client asks for.
#[derive(Drop)]
pub enum Op {
    /// In the mode that is named, or else in the image's.
    Begin { mode: Option<Mode> },
    /// Ends the transaction of the client.
    End,
    /// Aborts the transaction of the client.
    Abort,
    /// A write of these bytes at `off`, with one mark over them.
    Put { block: u32, off: u32, bytes: Bytes },
    /// A read of a whole block.
    Read { block: u32 },
    /// A read of `len` bytes at `off`, with one mark over them.
    Get { block: u32, off: u32, len: u32 },
    /// A write of a whole block.
    Write { block: u32, bytes: Bytes },
    /// A write of a block full of one byte.
    Fill { block: u32, bytes: Bytes },
    /// One more mark on the last access.
    Mark { off: u32, len: u32 },
    /// Puts the transaction under a label.
    Release { label: Label },
    /// Attaches the transaction under a label to the client.
    Takeover { label: Label },
    /// A takeover that waits for the label where clients run concurrently.
    Await { label: Label },
    /// Ends the transactions under these labels, in order, with one body and one gate.
    Group { labels: LabelList },
    /// Lets versions go that no transaction can be shown.
    Trim,
    /// The numbers of the image.
    Stat,
    /// Moves the base up to the floor, in the other half.
    Compact,
    /// As `Compact`, with an image of form 2.
    Upgrade,
    /// Puts a value at a key of the hash store.
    HashPut { key: Bytes, value: Bytes },
    /// The value of a key of the hash store.
    HashGet { key: Bytes },
    /// Removes a key of the hash store.
    HashDelete { key: Bytes },
    /// Puts a value at a key of the tree store.
    TreePut { key: Bytes, value: Bytes },
    /// The value of a key of the tree store.
    TreeGet { key: Bytes },
    /// Removes a key of the tree store.
    TreeDelete { key: Bytes },
    /// The first pairs of the tree store from one key on and before another, at most `most`.
    TreeScan { from: Bytes, to: Bytes, most: u32 },
    /// Makes an empty file of this name.
    FileNew { name: Bytes },
    /// Writes these bytes at `off` of a file, which grows where they pass its end.
    FileWrite { name: Bytes, off: u32, bytes: Bytes },
    /// The bytes of a file from `off` on, at most `len`.
    FileRead { name: Bytes, off: u32, len: u32 },
    /// Gives the file of one name another.
    FileMove { from: Bytes, to: Bytes },
    /// Removes a file.
    FileDelete { name: Bytes },
}

/// A line of a script: an operation of a client, 1 to 64.
#[derive(Drop)]
pub struct Line {
    pub client: u8,
    pub op: Op,
}

/// What a line of a script says: nothing, or an operation of a client.
#[derive(Drop)]
pub enum Parsed {
    /// Nothing: it is empty or a comment.
    Skip,
    /// An operation of a client.
    Line(Line),
}

/// The first bad line, counted from 1, and the first test that it fails.
#[derive(Clone, Copy, Debug, PartialEq, Eq)]
pub struct BadLine {
    pub line: u64,
    pub cause: u8,
}

/// Why a line gives no operation: the first test that it fails, 1 to 8 or 10, or want of memory.
#[derive(Clone, Copy, Debug, PartialEq, Eq)]
pub enum LineError {
    /// The number of the first test that it fails.
    Cause(u8),
    /// Want of memory.
    Memory,
}

/// What an operation is answered.
#[derive(Drop)]
pub enum Reply {
    /// It is done.
    Done,
    /// A transaction began at the commit of this number.
    Began(u64),
    /// The bytes that were read.
    Shown(Bytes),
    /// The transaction ended with the commit of this number.
    Committed(u64),
    /// The transaction ended without a write.
    ReadOnly,
    /// The transaction ended, and a commit after its begin conflicts with it.
    Conflict(Clash),
    /// How a group ended, for each of its labels in order: none where nothing was under the label.
    Grouped(LabelReplies),
    /// The floor below which versions were let go.
    Trimmed(u64),
    /// The base was moved to this number.
    Compacted(u64),
    /// The base was moved to this number, and the image has form 2.
    Upgraded(u64),
    /// The last commit's number, the base and the trim number, how many transactions are live, how many bytes of the
    /// log records take, and how many versions are kept.
    Numbers {
        last: u64,
        base: u64,
        trim: u64,
        live: u32,
        used: u32,
        versions: u64,
    },
    /// The value of a key of a store, or the bytes of a file.
    Found(Bytes),
    /// Pairs of the tree store, at least one.
    Pairs(PairList),
    /// A store has no such key or file, or no key of the range.
    Missing,
    /// The client has a transaction.
    InTx,
    /// The client has no transaction.
    NotInTx,
    /// The image has transactions of its own mode alone.
    ModeFixed,
    /// The image has no such store.
    NoStore,
    /// The transaction is not serial.
    StoreMode,
    /// A key does not have 1 to 28 bytes.
    BadKey,
    /// A value has more than 32 bytes.
    BadValue,
    /// The name of a file does not have 1 to 28 bytes.
    BadName,
    /// The name has a file.
    Exists,
    /// The array has no such block.
    BadBlock,
    /// The range is empty, or passes the end of the block or a limit of the store.
    BadRange,
    /// There is no access to mark.
    NoAccess,
    /// The last access has as many marks as it may.
    TooManyMarks,
    /// The transaction has as many accesses as it may.
    TooManyAccesses,
    /// This block of the image is not what a store has to find there.
    Broken {
        block: u32,
    },
    /// A store needs more blocks than are free.
    NoBlocks {
        need: u32,
        free: u32,
    },
    /// No transaction is under the label.
    NoHandle,
    /// A transaction is under the label.
    LabelTaken,
    /// As many transactions are live as may be.
    TooManyTx,
    /// The number that must rise is the last one.
    Worn,
    /// The record and the next gate need more bytes than the log has free.
    LogFull {
        need: u64,
        free: u64,
    },
}
