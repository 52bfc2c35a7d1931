// The write of a file.
ghost use Rattle.std.specs.Prelude.{◌≡◌, ◌↔◌, ◌+◌, ◌<◌, ◌≤◌, List, ℕ, Err, IsFalse, IsTrue, None, false, IfOk, IfErr, [], length, take};
ghost use Rattle.store_model.specs.{HashCalls.is_key, FreeMap.map_bytes, TreeCalls.{first_write, with_used}, FileCalls.{is_many, with_new, write_op, write_program, write_to}, FileNodes.{blocks_for, bytes_of}, FileRegion.{files, AreFileRegions}};
ghost use Rattle.tx_blocks.specs.Runs.{IsLocalCall};
ghost use Rattle.iso_tree.specs.{FirstBlock.AreNew, Rows.AreBlocks};
ghost use Rattle.iso_fs.specs.{Ends.{areas_of, Across, HasBuffer, HasBuffers, HasFiles, HasRun, IsOfTx, IsOwnPart, IsPart, IsSize, Leaves}, Grows.{write_end, sized_by, IsGrowth, NeedsBlocks}};

use crate::buffers::{areas_of, buffers, is_many};
use crate::file::{FileBlock, bytes_of, data_count, is_fit};
use crate::find::find;
use crate::names::FileName;
use crate::patch::{Patch, Writing};
use crate::sized::lay_sized;
use crate::storing::write_pieces;
use iso_alloc::{free_blocks, is_key, region_of};
use iso_tree::{map_mark, store_first, take_blocks};
use std::alloc::Global;
use store_model::{FsError, FsRegion, StoreError};
use tx_blocks::{TxBlocks, look, store};

// Writes the file block of a file that grows, and its data.
fn write_grown<T: TxBlocks>(
    tx: &mut T,
    writing: &Writing,
    news: &[u32],
    into: &mut [u8],
) -> Result<bool, FsError>
    requires buffer { HasBuffer (T.state tx.old) writing.now.file.area into.old }
    requires news { AreBlocks writing.now.file.area news.now }
    requires grows { IsGrowth writing.now (length news.now) }
    ensures { Across T.state T.device tx.old tx.new (IsOwnPart (sized_by writing.now news.now)) result }
{
    let file = &writing.file;
    let end = writing.off + writing.bytes.len() as u32;
    lay_sized(file, news, end, into);
    if let Err(e) = store(tx, file.area.start + file.number, &[], into) {
        return Err(FsError::Store(StoreError::Tx(e)));
    }
    write_pieces(tx, writing, news, into)
}

// Writes a file that needs no new blocks: its file block where the size changes, and then the data.
fn write_sized<T: TxBlocks>(tx: &mut T, writing: &Writing, into: &mut [u8]) -> Result<bool, FsError>
    requires buffer { HasBuffer (T.state tx.old) writing.now.file.area into.old }
    requires grows { bytes_of writing.now.file.bytes.now < write_end writing.now → IsGrowth writing.now 0 }
    ensures { Across T.state T.device tx.old tx.new (IsOwnPart (sized_by writing.now [])) result }
{
    let end = writing.off + writing.bytes.len() as u32;
    if bytes_of(writing.file.bytes) < end {
        return write_grown(tx, writing, &[], into);
    }
    write_pieces(tx, writing, &[], into)
}

// Writes the map, in which new blocks are taken, and then the file.
fn write_news<T: TxBlocks>(
    tx: &mut T,
    writing: &Writing,
    map: &[u8],
    news: &[u32],
    into: &mut [u8],
) -> Result<bool, FsError>
    requires buffers { HasBuffers (T.state tx.old) writing.now.file.area map.now into.old }
    requires news { AreNew writing.now.file.area news.now }
    requires grows { IsGrowth writing.now (length news.now) }
    ensures part { (first : List ℕ) → take (64 + map_bytes writing.now.file.area.blocks) map.now ≡ with_used first news.now → Across T.state T.device tx.old tx.new (IsPart false 1 (first_write writing.now.file.area first news.now None (sized_by writing.now news.now))) result }
    ensures of_tx { IfErr result IsOfTx }
{
    if let Err(e) = store_first(tx, writing.file.area, map, news, None, into) {
        return Err(FsError::Store(StoreError::Tx(e)));
    }
    write_grown(tx, writing, news, into)
}

// Reads the map, and takes new blocks.
fn write_new<T: TxBlocks>(
    tx: &mut T,
    writing: &Writing,
    need: u32,
    map: &mut [u8],
    into: &mut [u8],
) -> Result<bool, FsError>
    requires buffers { HasBuffers (T.state tx.old) writing.now.file.area map.old into.old }
    requires need { NeedsBlocks writing.now need }
    ensures { Across T.state T.device tx.old tx.new (IsPart false 1 (with_new writing.now.file.area need (sized_by writing.now))) result }
{
    let area = writing.file.area;
    if let Err(e) = look(tx, area.start, map_mark(area), map) {
        return Err(FsError::Store(StoreError::Tx(e)));
    }
    let region = region_of(area);
    let free = free_blocks(map, region, 1);
    if free < need {
        return Err(FsError::Store(StoreError::NoBlocks { need, free }));
    }
    let mut news = [0; 16];
    take_blocks(map, region, need as usize, &mut news);
    write_news(tx, writing, map, &news[..need as usize], into)
}

// How many blocks `bytes` bytes take.
fn blocks_for(size: u32, bytes: u32) -> u32
    requires size { IsSize size }
    requires small { bytes ≤ 4128768 }
    ensures { result ≡ blocks_for size bytes }
{
    (bytes + (size - 1)) / size
}

// Writes bytes into a file whose file block is read.
fn write_to<T: TxBlocks>(
    tx: &mut T,
    file: FileBlock,
    patch: &Patch,
    map: &mut [u8],
    into: &mut [u8],
) -> Result<bool, FsError>
    requires { HasBuffers (T.state tx.old) file.area map.old into.old }
    ensures { Across T.state T.device tx.old tx.new (IsPart false 1 (write_to file.entry.area patch.now.off patch.now.bytes.now file.entry.number file.entry.bytes.now)) result }
{
    let off = patch.off;
    if bytes_of(file.bytes) < off {
        return Err(FsError::BadRange);
    }
    let end = off + patch.bytes.len() as u32;
    if !is_fit(file.area.size, end) {
        return Err(FsError::BadRange);
    }
    let old = file.count as u32;
    let now = blocks_for(file.area.size, end);
    let writing = Writing {
        file,
        off,
        bytes: patch.bytes,
    };
    if now <= old {
        return write_sized(tx, &writing, into);
    }
    write_new(tx, &writing, now - old, map, into)
}

// Writes bytes into the file of a name, with buffers for three blocks.
fn write_with<T: TxBlocks>(
    alloc: Global,
    tx: &mut T,
    name: &FileName,
    patch: &Patch,
    file: &mut [u8],
    map: &mut [u8],
    into: &mut [u8],
) -> Result<bool, FsError>
    requires buffers { HasBuffers (T.state tx.old) name.now.areas.files map.old into.old }
    requires file { length file.old ≡ name.now.areas.files.size }
    ensures { Across T.state T.device tx.old tx.new (IsPart false 1 (write_program name.now.areas name.now.bytes.now patch.now.off patch.now.bytes.now)) result }
{
    match find(alloc, tx, name, file) {
        Ok(Some(number)) => {
            let area = name.areas.files;
            let file = FileBlock {
                area,
                number,
                bytes: file,
                count: data_count(area, file),
            };
            write_to(tx, file, patch, map, into)
        }
        Ok(None) => Ok(false),
        Err(e) => Err(e),
    }
}

/// Writes bytes into a file from `off` on, which grows where they pass its end, and says whether the name has a file.
///
/// # Errors
///
/// Nothing was written, but where `Tx` comes after a write.
/// - `BadName` exactly where the name does not have 1 to 28 bytes.
/// - `BadRange`: the name is good, and there are not 1 to 4,096 bytes, which is seen before any read, or `off` is above
///   the file's size, or the file would have more bytes than it may.
/// - `Store(NoBlocks)`: fewer blocks are free than are needed.
/// - `Store(Broken)`: a call of the tree answers it, the value names no file block, or that is not well formed.
/// - `Store(Memory)`: want of memory for a buffer.
/// - `Store(Tx)`: the transaction refuses an access, or wants memory.
pub fn write<T: TxBlocks>(
    alloc: Global,
    tx: &mut T,
    at: FsRegion,
    name: &[u8],
    off: u32,
    bytes: &[u8],
) -> Result<bool, FsError>
    requires { HasFiles (T.state tx.old) at }
    ensures ended { HasRun (write_program (areas_of (T.state tx.old) at) name.now off bytes.now) (T.state tx.old) (T.state tx.new) result }
    ensures local { IfOk result (IsLocalCall (AreFileRegions (areas_of (T.state tx.old) at)) (files (areas_of (T.state tx.old) at)) (write_op name.now off bytes.now) (T.state tx.old) (T.state tx.new)) }
    ensures bad_name { result ≡ Err FsError.BadName ↔ IsFalse (is_key name.now) }
    ensures bad_range { IsTrue (is_key name.now) → IsFalse (is_many (length bytes.now)) → (result ≡ Err FsError.BadRange) × (T.state tx.new ≡ T.state tx.old) }
    ensures leaves { Leaves false (T.state tx.old) (T.state tx.new) 1 (T.device tx.old) (T.device tx.new) result }
{
    if !is_key(name) {
        return Err(FsError::BadName);
    }
    if !is_many(bytes.len()) {
        return Err(FsError::BadRange);
    }
    let a = areas_of(tx, at);
    let size = a.files.size as usize;
    let (mut file, mut map, mut into) = match buffers(alloc, size, size) {
        Ok(all) => all,
        Err(e) => return Err(FsError::Store(e)),
    };
    let name = FileName {
        areas: a,
        bytes: name,
    };
    let patch = Patch { off, bytes };
    write_with(alloc, tx, &name, &patch, &mut file, &mut map, &mut into)
}
