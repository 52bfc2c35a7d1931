// What a core's begin, end, compaction or upgrade is answered.

use crate::Clash;

/// What a begin, an end, a compaction or an upgrade is answered.
#[derive(Clone, Copy, Debug, PartialEq, Eq)]
pub enum CoreReply {
    /// It is done, and there is no more to say.
    Done,
    /// A transaction began at the commit of this number.
    Began(u64),
    /// It ended with the commit of this number.
    Committed(u64),
    /// It ended without a write.
    ReadOnly,
    /// It ended, and a commit after its begin conflicts with it.
    Conflict(Clash),
    /// The base was moved to this number.
    Compacted(u64),
    /// The base was moved to this number, and the image has form 2.
    Upgraded(u64),
    /// The image has transactions of its own mode alone.
    ModeFixed,
    /// As many transactions are live as may be.
    TooManyTx,
    /// The number that must rise is the last one.
    Worn,
    /// The record and the next gate need more bytes than the log has free.
    LogFull { need: u64, free: u64 },
}
