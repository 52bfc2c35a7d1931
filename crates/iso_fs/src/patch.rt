// Bytes for a file.
ghost use Rattle.std.specs.Prelude.{◌+◌, ◌≤◌, length};
ghost use Rattle.store_model.specs.FileNodes.{most_bytes};

use crate::file::FileBlock;

/// Bytes for a file from a byte on, as many as a call may write.
#[derive(Drop)]
pub struct Patch<'a> {
    pub off: u32,
    pub bytes: &'a [u8],
    ghost some: { 1 ≤ length bytes.now },
    ghost few: { length bytes.now ≤ 4096 },
}

/// Bytes that are written into a file from a byte on, which may have as many bytes then.
#[derive(Drop)]
pub struct Writing<'a> {
    pub file: FileBlock<'a>,
    pub off: u32,
    pub bytes: &'a [u8],
    ghost fits: { off + length bytes.now ≤ most_bytes file.area.size },
}
