// Why an image is not opened.

/// Why an image is not opened: the first test that it fails, a fault of the disk, or want of memory.
#[derive(Clone, Copy, Debug, PartialEq, Eq)]
pub enum OpenError {
    /// It has fewer than 64 bytes, another name, or the superblock's gate is closed.
    NotIsotope,
    /// The first field of the superblock that is wrong: 1 version, 2 block size, 3 blocks, 4 log bytes, 5 mode,
    /// 6 zero bytes, 7 regions.
    BadGeometry { field: u8 },
    /// It has not the size that its geometry wants.
    WrongSize { want: u64, have: u64 },
    /// The gates of both halves are closed.
    NoHalf,
    /// Where in the image the current half is wrong, and the number of the test that fails: those of a record, and in
    /// the half's header 3 for a byte that is not zero and 8 for a number that is too large.
    Damaged { at: u64, cause: u8 },
    /// The form of the current half is not known.
    UnknownForm { form: u8 },
    /// A call of the disk failed.
    Disk,
    /// Memory ran out.
    Memory,
}
