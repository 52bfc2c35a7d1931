// Why a call of a log failed.

/// Why a call of a log failed.
#[derive(Clone, Copy, Debug, PartialEq, Eq)]
pub enum LogError {
    /// The records and the closed gate after them need `need` bytes, and `free` are free.
    LogFull { need: u64, free: u64 },
    /// A call of the disk failed.
    Disk,
    /// Memory ran out.
    Memory,
    /// Where in the image a record is wrong, and the number of the test that it fails.
    Damaged { at: u64, cause: u8 },
}
