// The structs that C and this library share. All numbers are those of `isotope.h`.

/// The numbers of an image: bytes of a block, blocks, bytes of the log, the mode (1 serial, 2 snapshot), and the blocks of
/// the hash and of the tree region.
#[repr(C)]
#[derive(Clone, Copy)]
pub struct NewImage {
    pub block_size: u32,
    pub blocks: u32,
    pub log: u32,
    pub mode: u32,
    pub hash: u32,
    pub tree: u32,
}

/// The counts of an open image: the last commit's number, the base and the trim number, how many versions are kept, the
/// number of the live transaction that began first (0 where none is live), how many are live, how many bytes of the log
/// records take, how many it has, and the form.
#[repr(C)]
#[derive(Clone, Copy)]
pub struct Numbers {
    pub last: u64,
    pub base: u64,
    pub trim: u64,
    pub versions: u64,
    pub oldest: u64,
    pub live: u32,
    pub used: u32,
    pub log: u32,
    pub form: u32,
}

/// How a transaction ended. Of the numbers those count that its status is about, and the others are 0: a commit's number
/// (0 where nothing was written); the commit that it conflicts with, a block and a byte; the bytes of the log that it
/// needs, and those that are free.
#[repr(C)]
#[derive(Clone, Copy)]
pub struct Ended {
    pub status: i32,
    pub block: u32,
    pub at: u32,
    pub pad: u32,
    pub commit: u64,
    pub met: u64,
    pub need: u64,
    pub room: u64,
}

/// Why an image did not open: 0 for another reason, 1 it is no image of this project, 2 `what` is the wrong field, 3 it
/// wants `at` bytes and has `have`, 4 both halves are closed, 5 it is damaged at `at` by the test `what`, 6 its form is
/// `what`.
#[repr(C)]
#[derive(Clone, Copy)]
pub struct Refusal {
    pub why: u32,
    pub what: u32,
    pub at: u64,
    pub have: u64,
}

/// A call of the tape: 0 a write of `len` bytes at `at` of the file, 1 a sync, 2 none, which is the end of the tape, 28 a write
/// for whose bytes there is no room.
#[repr(C)]
#[derive(Clone, Copy)]
pub struct TapeCall {
    pub what: u64,
    pub at: u64,
    pub len: u64,
}
