// Why a client's operation has no reply.

/// Why an operation has no reply.
#[derive(Clone, Copy, Debug, PartialEq, Eq)]
pub enum Stop {
    /// An earlier call took the image down.
    Down,
    /// The disk failed.
    Disk,
    /// Want of memory.
    Memory,
}
