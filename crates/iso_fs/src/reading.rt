// The read of a file.
ghost use Rattle.std.specs.Prelude.{false, ◌≡◌, ◌↔◌, ◌-◌, ◌<◌, ◌≤◌, Err, IsFalse, IsTrue, true, IfOk, length, option_map, take, []};
ghost use Rattle.iso_model.specs.Premises.{IsSpan};
ghost use Rattle.store_model.specs.{HashCalls.is_key, FileCalls.{is_many, read_op, read_pieces, read_program}, FileNodes.{bytes_of, piece_mark}, FileRegion.{files, AreFileRegions}};
ghost use Rattle.tx_blocks.specs.Runs.{HasRead, IsLocalCall};
ghost use Rattle.iso_fs.specs.{Ends.{areas_of, Across, HasBuffer, HasBuffers, HasFiles, HasRun, IsReading, IsSize, Leaves}, Finds.got_as};

use crate::buffers::{areas_of, buffers, is_many};
use crate::file::{FileBlock, bytes_of, data_count, entry_at};
use crate::find::find;
use crate::names::FileName;
use iso_alloc::{is_key, lay, piece};
use iso_model::{Bytes, Items, Span};
use std::alloc::Global;
use store_model::{FsError, FsRegion, StoreError};
use tx_blocks::{TxBlocks, look};

/// At most `len` bytes of a file from a byte on, as many as a call may read.
#[derive(Drop)]
struct FileRange {
    off: u32,
    len: u32,
    ghost many: { is_many len ≡ true },
}

/// The mark over the bytes of a data block that a range of the file has.
pub fn piece_mark(size: u32, from: u32, to: u32) -> Span
    requires size { IsSize size }
    requires less { from < to }
    ensures span { result ≡ piece_mark size from to }
    ensures fits { IsSpan size result }
    ensures within { result.len ≤ to - from }
{
    let off = from % size;
    let left = to - from;
    let room = size - off;
    Span {
        off: off as u16,
        len: if left < room {
            left as u16
        } else {
            room as u16
        },
    }
}

// Reads the pieces of a range, for which there is room. Answers how many bytes there are.
fn read_pieces<T: TxBlocks>(
    tx: &mut T,
    file: &FileBlock,
    from: u32,
    to: u32,
    block: &mut [u8],
    room: &mut [u8],
) -> Result<Option<u32>, FsError>
    requires buffer { HasBuffer (T.state tx.old) file.now.area block.old }
    requires up { from ≤ to }
    requires inside { to ≤ bytes_of file.now.bytes.now }
    requires room { to - from ≤ length room.old }
    ensures { Across T.state T.device tx.old tx.new (IsReading (read_pieces file.now.area file.now.bytes.now (length room.old) from to [])) (got_as room.new result) }
{
    let mut at = from;
    while at < to {
        let span = piece_mark(file.area.size, at, to);
        let number = entry_at(file.bytes, (at / file.area.size) as usize);
        if let Err(e) = look(tx, file.area.start + number, span, block) {
            return Err(FsError::Store(StoreError::Tx(e)));
        }
        lay(
            room,
            (at - from) as usize,
            piece(block, span.off as usize, span.len as usize),
        );
        at += span.len as u32;
    }
    Ok(Some(to - from))
}

// Reads a range of the file of a name, with buffers for two blocks and for the bytes. Answers how many bytes there are.
fn read_with<T: TxBlocks>(
    alloc: Global,
    tx: &mut T,
    name: &FileName,
    range: &FileRange,
    file: &mut [u8],
    block: &mut [u8],
    room: &mut [u8],
) -> Result<Option<u32>, FsError>
    requires buffers { HasBuffers (T.state tx.old) name.now.areas.files file.old block.old }
    requires room { length room.old ≡ range.now.len }
    ensures { Across T.state T.device tx.old tx.new (IsReading (read_program name.now.areas name.now.bytes.now range.now.off range.now.len)) (got_as room.new result) }
{
    let number = match find(alloc, tx, name, file) {
        Ok(Some(number)) => number,
        Ok(None) => return Ok(None),
        Err(e) => return Err(e),
    };
    let area = name.areas.files;
    let file = FileBlock {
        area,
        number,
        bytes: file,
        count: data_count(area, file),
    };
    let bytes = bytes_of(file.bytes);
    if bytes < range.off {
        return Err(FsError::BadRange);
    }
    let to = range.off + range.len.min(bytes - range.off);
    read_pieces(tx, &file, range.off, to, block, room)
}

// The bytes that were read.
fn bytes_read(found: Option<u32>, mut room: Vec<u8>) -> Option<Bytes>
    ensures { result ≡ option_map (λ n. take n room.items) found }
{
    let n = found?;
    room.truncate(n as usize);
    Some(Items::of(room))
}

/// Bytes of a file from `off` on, at most `len` of them; the answer ends where the file does. None exactly where the
/// name has no file. It writes nothing, and takes all its own memory before its first read.
///
/// # Errors
///
/// - `BadName` exactly where the name does not have 1 to 28 bytes.
/// - `BadRange`: the name is good, and `len` is not 1 to 4,096, which is seen before any read, or `off` is above the
///   file's size.
/// - `Store(Broken)`: a call of the tree answers it, its value names no file block, or that is not well formed.
/// - `Store(Memory)`: want of memory for a buffer.
/// - `Store(Tx)`: the transaction refuses an access, or wants memory.
pub fn read<T: TxBlocks>(
    alloc: Global,
    tx: &mut T,
    at: FsRegion,
    name: &[u8],
    off: u32,
    len: u32,
) -> Result<Option<Bytes>, FsError>
    requires { HasFiles (T.state tx.old) at }
    ensures ended { HasRun (read_program (areas_of (T.state tx.old) at) name.now off len) (T.state tx.old) (T.state tx.new) result }
    ensures local { IfOk result (IsLocalCall (AreFileRegions (areas_of (T.state tx.old) at)) (files (areas_of (T.state tx.old) at)) (read_op name.now off len) (T.state tx.old) (T.state tx.new)) }
    ensures bad_name { result ≡ Err FsError.BadName ↔ IsFalse (is_key name.now) }
    ensures bad_range { IsTrue (is_key name.now) → IsFalse (is_many len) → (result ≡ Err FsError.BadRange) × (T.state tx.new ≡ T.state tx.old) }
    ensures leaves { Leaves false (T.state tx.old) (T.state tx.new) 1 (T.device tx.old) (T.device tx.new) result }
    ensures reads { HasRead (T.state tx.old) (T.state tx.new) }
{
    if !is_key(name) {
        return Err(FsError::BadName);
    }
    if !is_many(len as usize) {
        return Err(FsError::BadRange);
    }
    let a = areas_of(tx, at);
    let size = a.files.size as usize;
    let (mut file, mut block, mut room) = match buffers(alloc, size, len as usize) {
        Ok(all) => all,
        Err(e) => return Err(FsError::Store(e)),
    };
    let name = FileName {
        areas: a,
        bytes: name,
    };
    let range = FileRange { off, len };
    match read_with(alloc, tx, &name, &range, &mut file, &mut block, &mut room) {
        Ok(found) => Ok(bytes_read(found, room)),
        Err(e) => Err(e),
    }
}
