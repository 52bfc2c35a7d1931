// The data of a transaction and of an image.

use crate::{AccessList, Bytes, SpanList};

/// What an access does.
#[derive(Clone, Copy, Debug, PartialEq, Eq)]
pub enum Kind {
    Read,
    Write,
}

/// The isolation of an image's transactions.
#[derive(Clone, Copy, Debug, PartialEq, Eq)]
pub enum Mode {
    /// Strict serializability.
    Serial,
    /// Snapshot isolation: the first committer wins.
    Snapshot,
}

/// The bytes of a block from `off` on, `len` of them.
#[derive(Clone, Copy, Debug, PartialEq, Eq)]
pub struct Span {
    pub off: u16,
    pub len: u16,
}

/// A read or a write of one block. It covers its spans, and the whole block where it has none.
/// A read has no bytes; a write has those of a whole block.
#[derive(Debug, Drop)]
pub struct Access {
    pub kind: Kind,
    pub block: u32,
    pub spans: SpanList,
    pub bytes: Bytes,
}

/// A transaction that committed: the last commit's number when it began, its mode and its accesses in order.
#[derive(Debug, Drop)]
pub struct Commit {
    pub begin: u64,
    pub mode: Mode,
    pub accesses: AccessList,
}

/// Where a transaction conflicts: a commit, a block, and a byte of it.
#[derive(Clone, Copy, Debug, PartialEq, Eq)]
pub struct Clash {
    pub commit: u64,
    pub block: u32,
    pub at: u16,
}

/// The fixed numbers of an image: bytes of a block, number of blocks, bytes of a log, the mode,
/// blocks of the hash and the tree region, and the form of its halves (1 or 2).
#[derive(Clone, Copy, Debug, PartialEq, Eq)]
pub struct Geometry {
    pub block: u32,
    pub blocks: u32,
    pub log: u32,
    pub mode: Mode,
    pub hash: u32,
    pub tree: u32,
    pub form: u8,
}

/// How a transaction ended.
#[derive(Clone, Copy, Debug, PartialEq, Eq)]
pub enum EndReply {
    /// Its writes are the commit of this number.
    Committed(u64),
    /// It had no write.
    ReadOnly,
    /// A commit after its begin conflicts with it.
    Conflict(Clash),
}

/// How a member of a group ended: with `Full` and `Worn` it was aborted.
#[derive(Clone, Copy, Debug, PartialEq, Eq)]
pub enum GroupReply {
    /// Its writes are this commit.
    Committed(u64),
    /// It had no write.
    ReadOnly,
    /// A commit after its begin conflicts with it.
    Conflict(Clash),
    /// Its record and the next gate need more bytes than the log has free after the members before it.
    Full { need: u64, free: u64 },
    /// There is no number for it.
    Worn,
}

/// Bytes that follow one another in a block, from `off` on.
#[derive(Debug, Drop)]
pub struct Run {
    pub block: u32,
    pub off: u16,
    pub bytes: Bytes,
}

/// Why the last access of a transaction does not take a mark.
#[derive(Clone, Copy, Debug, PartialEq, Eq)]
pub enum MarkError {
    /// The mark is empty or passes the end of the block.
    BadRange,
    /// There is no access.
    NoAccess,
    /// The access has as many marks as it may.
    TooManyMarks,
}
