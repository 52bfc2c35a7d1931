// Where a call works, its buffers, and the test of a count.
ghost use Rattle.std.specs.Prelude.{◌≡◌, IfErr, IfOk, length};
ghost use Rattle.store_model.specs.FileCalls.{is_many};
ghost use Rattle.iso_fs.specs.Ends.{areas_of};

use iso_alloc::buffer;
use std::alloc::Global;
use store_model::{Area, FileAreas, FsRegion, StoreError};
use tx_blocks::TxBlocks;

/// The areas of the regions in the transaction's blocks.
pub fn areas_of<T: TxBlocks>(tx: &T, at: FsRegion) -> FileAreas
    ensures { result ≡ areas_of (T.state tx.now) at }
{
    let size = tx.block_size();
    FileAreas {
        tree: Area {
            size,
            start: at.tree.start,
            blocks: at.tree.size,
        },
        files: Area {
            size,
            start: at.files.start,
            blocks: at.files.size,
        },
    }
}

/// Two buffers of `size` bytes, and a third one of `last`.
///
/// # Errors
///
/// `Memory`: want of memory.
pub fn buffers(
    alloc: Global,
    size: usize,
    last: usize,
) -> Result<(Vec<u8>, Vec<u8>, Vec<u8>), StoreError>
    ensures sizes { IfOk result (λ all. (length all.0.items ≡ size) × (length all.1.items ≡ size) × (length all.2.items ≡ last)) }
    ensures memory { IfErr result (λ e. e ≡ StoreError.Memory) }
{
    let first = buffer(alloc, size)?;
    let second = buffer(alloc, size)?;
    let third = buffer(alloc, last)?;
    Ok((first, second, third))
}

/// Whether a call may read or write `count` bytes.
pub fn is_many(count: usize) -> bool
    ensures { result ≡ is_many count }
{
    1 <= count && count <= 4096
}
