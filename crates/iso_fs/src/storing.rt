// The writes of the data blocks of a file.
ghost use Rattle.std.specs.Prelude.{◌≡◌, ◌+◌, ◌*◌, ◌<◌, ◌≤◌, ◌++◌, cond, length, slice_index, [], ◌∷◌};
ghost use Rattle.store_model.specs.{Stores.store_access, FileCalls.write_pieces};
ghost use Rattle.iso_model.specs.Premises.{IsSpan};
ghost use Rattle.tx_blocks.specs.Runs.{HasStored};
ghost use Rattle.iso_tree.specs.Rows.{AreBlocks};
ghost use Rattle.iso_fs.specs.{Ends.{Across, HasBuffer, IsOwnPart}, Grows.{entries, write_end}};

use crate::file::{FileBlock, entry_at};
use crate::patch::Writing;
use crate::reading::piece_mark;
use iso_alloc::{lay_alone, piece};
use iso_model::Span;
use store_model::{FsError, StoreError, TxError};
use tx_blocks::{TxBlocks, store};

// The number of the data block at a place, where the first ones are in the file block and the others are new.
fn number_at(file: &FileBlock, news: &[u32], place: usize) -> u32
    requires news { AreBlocks file.now.area news.now }
    requires place { place < file.now.count + length news.now }
    ensures number { result ≡ slice_index (entries file.now ++ news.now) place }
    ensures below { result < file.now.area.blocks }
{
    let old = file.count;
    if place < old {
        return entry_at(file.bytes, place);
    }
    news[place - old]
}

// Writes a data block: of an old one the bytes in the span alone.
fn store_piece<T: TxBlocks>(
    tx: &mut T,
    block: u32,
    span: Span,
    is_old: bool,
    bytes: &[u8],
) -> Result<(), TxError>
    requires bytes { length bytes.now ≡ (T.state tx.old).size }
    requires block { block < (T.state tx.old).blocks }
    requires span { IsSpan (T.state tx.old).size span }
    ensures { Across T.state T.device tx.old tx.new (HasStored (store_access block (cond is_old (span ∷ []) []) bytes.now)) result }
{
    if is_old {
        return store(tx, block, &[span], bytes);
    }
    store(tx, block, &[], bytes)
}

/// Writes the data blocks of the range, whose numbers are those of the file block and new ones.
pub(crate) fn write_pieces<T: TxBlocks>(
    tx: &mut T,
    writing: &Writing,
    news: &[u32],
    into: &mut [u8],
) -> Result<bool, FsError>
    requires buffer { HasBuffer (T.state tx.old) writing.now.file.area into.old }
    requires news { AreBlocks writing.now.file.area news.now }
    requires covered { write_end writing.now ≤ (writing.now.file.count + length news.now) * writing.now.file.area.size }
    ensures { Across T.state T.device tx.old tx.new (IsOwnPart (write_pieces writing.now.file.area (entries writing.now.file ++ news.now) writing.now.file.count (length writing.now.bytes.now) writing.now.off (write_end writing.now) writing.now.bytes.now)) result }
{
    let area = writing.file.area;
    let old = writing.file.count;
    let end = writing.off + writing.bytes.len() as u32;
    let mut at = writing.off;
    while at < end {
        let rest = piece(
            writing.bytes,
            (at - writing.off) as usize,
            (end - at) as usize,
        );
        let span = piece_mark(area.size, at, end);
        let place = (at / area.size) as usize;
        let number = number_at(&writing.file, news, place);
        lay_alone(into, span.off as usize, &rest[..span.len as usize]);
        if let Err(e) = store_piece(tx, area.start + number, span, place < old, into) {
            return Err(FsError::Store(StoreError::Tx(e)));
        }
        at += span.len as u32;
    }
    Ok(true)
}
