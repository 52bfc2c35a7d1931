// Why a call of a core fails.

/// Why a call of a core fails.
#[derive(Clone, Copy, Debug, PartialEq, Eq)]
pub enum CoreError {
    /// An earlier fault set the core down: the image is to be opened again.
    Down,
    /// As many transactions are live as may be.
    TooManyTx,
    /// The record and the next gate need more bytes than the log has free.
    LogFull { need: u64, free: u64 },
    /// The disk failed in this call.
    Disk,
    /// Want of memory.
    Memory,
    /// The number that must rise is the last one.
    Worn { at: u64 },
    /// The image has transactions of its own mode alone.
    ModeFixed,
}
