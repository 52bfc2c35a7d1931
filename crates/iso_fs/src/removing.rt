// The removal of a file.
ghost use Rattle.std.specs.Prelude.{◌≡◌, ◌↔◌, Err, IsFalse, false, IfOk, length};
ghost use Rattle.store_model.specs.{HashCalls.is_key, FileCalls.{remove_file, remove_op, remove_program}, FileRegion.{files, AreFileRegions}};
ghost use Rattle.tx_blocks.specs.Runs.{IsLocalCall};
ghost use Rattle.iso_fs.specs.Ends.{areas_of, Across, HasBuffers, HasFiles, HasRun, IsPart, Leaves};

use crate::buffers::{areas_of, buffers};
use crate::file::{FileBlock, data_count};
use crate::find::find;
use crate::left::store_left;
use crate::names::{FileName, remove_name};
use iso_alloc::is_key;
use iso_tree::map_mark;
use std::alloc::Global;
use store_model::{FsError, FsRegion, StoreError};
use tx_blocks::{TxBlocks, look};

// Reads the map, removes the name, and then gives the blocks of its file back.
fn remove_file<T: TxBlocks>(
    alloc: Global,
    tx: &mut T,
    name: &FileName,
    file: &FileBlock,
    map: &mut [u8],
    into: &mut [u8],
) -> Result<bool, FsError>
    requires buffers { HasBuffers (T.state tx.old) name.now.areas.files map.old into.old }
    requires area { file.now.area ≡ name.now.areas.files }
    ensures { Across T.state T.device tx.old tx.new (IsPart false 1 (remove_file name.now.areas name.now.bytes.now file.now.number file.now.bytes.now)) result }
{
    let area = name.areas.files;
    if let Err(e) = look(tx, area.start, map_mark(area), map) {
        return Err(FsError::Store(StoreError::Tx(e)));
    }
    if let Err(e) = remove_name(alloc, tx, name.areas.tree, name.bytes) {
        return Err(FsError::Store(e));
    }
    match store_left(tx, file, map, into) {
        Ok(()) => Ok(true),
        Err(e) => Err(FsError::Store(StoreError::Tx(e))),
    }
}

// Removes a file, with buffers for three blocks.
fn remove_with<T: TxBlocks>(
    alloc: Global,
    tx: &mut T,
    name: &FileName,
    file: &mut [u8],
    map: &mut [u8],
    into: &mut [u8],
) -> Result<bool, FsError>
    requires buffers { HasBuffers (T.state tx.old) name.now.areas.files map.old into.old }
    requires file { length file.old ≡ name.now.areas.files.size }
    ensures { Across T.state T.device tx.old tx.new (IsPart false 1 (remove_program name.now.areas name.now.bytes.now)) result }
{
    match find(alloc, tx, name, file) {
        Ok(Some(number)) => {
            let area = name.areas.files;
            let file = FileBlock {
                area,
                number,
                bytes: file,
                count: data_count(area, file),
            };
            remove_file(alloc, tx, name, &file, map, into)
        }
        Ok(None) => Ok(false),
        Err(e) => Err(e),
    }
}

/// Removes a file with all its blocks, and says whether the name had one.
///
/// # Errors
///
/// Nothing was written, but where `Tx` comes after a write.
/// - `BadName` exactly where the name does not have 1 to 28 bytes.
/// - `Store(Broken)`: a call of the tree answers it, the value names no file block, or that is not well formed.
/// - `Store(Memory)`: want of memory for a buffer.
/// - `Store(Tx)`: the transaction refuses an access, or wants memory.
pub fn remove<T: TxBlocks>(
    alloc: Global,
    tx: &mut T,
    at: FsRegion,
    name: &[u8],
) -> Result<bool, FsError>
    requires { HasFiles (T.state tx.old) at }
    ensures ended { HasRun (remove_program (areas_of (T.state tx.old) at) name.now) (T.state tx.old) (T.state tx.new) result }
    ensures local { IfOk result (IsLocalCall (AreFileRegions (areas_of (T.state tx.old) at)) (files (areas_of (T.state tx.old) at)) (remove_op name.now) (T.state tx.old) (T.state tx.new)) }
    ensures bad_name { result ≡ Err FsError.BadName ↔ IsFalse (is_key name.now) }
    ensures leaves { Leaves false (T.state tx.old) (T.state tx.new) 1 (T.device tx.old) (T.device tx.new) result }
{
    if !is_key(name) {
        return Err(FsError::BadName);
    }
    let a = areas_of(tx, at);
    let size = a.files.size as usize;
    let (mut file, mut map, mut into) = match buffers(alloc, size, size) {
        Ok(all) => all,
        Err(e) => return Err(FsError::Store(e)),
    };
    let name = FileName {
        areas: a,
        bytes: name,
    };
    remove_with(alloc, tx, &name, &mut file, &mut map, &mut into)
}
