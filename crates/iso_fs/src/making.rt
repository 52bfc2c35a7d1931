// A new file.
ghost use Rattle.std.specs.{Prelude.{false, ◌≡◌, ◌↔◌, ◌<◌, Err, IsFalse, IsTrue, is_some, IfOk, slice_index}, FinMap.get};
ghost use Rattle.store_model.specs.{FreeMap.bit_place, HashCalls.is_key, FileCalls.{create_op, create_program, name_file}, FileRegion.{files, AreFileRegions}};
ghost use Rattle.tx_blocks.specs.Runs.{IsLocalCall};
ghost use Rattle.iso_fs.specs.Ends.{areas_of, Across, ExistsWhere, HasBuffer, HasFiles, HasRun, IsPart, Leaves};

use crate::buffers::areas_of;
use crate::names::{FileName, put_value, value_of};
use crate::sized::start_file;
use iso_alloc::{buffer, is_key, region_of, take_lowest};
use iso_tree::map_mark;
use std::alloc::Global;
use store_model::{FsError, FsRegion, StoreError};
use tx_blocks::{TxBlocks, look, store, store_bit};

// Names a block in the tree, and makes it an empty file.
fn name_file<T: TxBlocks>(
    alloc: Global,
    tx: &mut T,
    name: &FileName,
    block: u32,
    buffer: &mut [u8],
) -> Result<(), FsError>
    requires buffer { HasBuffer (T.state tx.old) name.now.areas.files buffer.old }
    requires block { block < name.now.areas.files.blocks }
    ensures { Across T.state T.device tx.old tx.new (IsPart false 66 (name_file name.now.areas name.now.bytes.now block (slice_index buffer.old (bit_place block)))) result }
{
    let area = name.areas.files;
    let number = block.to_be_bytes();
    if let Err(e) = put_value(alloc, tx, name.areas.tree, name.bytes, &number) {
        return Err(FsError::Store(e));
    }
    if let Err(e) = store_bit(tx, area, block, buffer) {
        return Err(FsError::Store(StoreError::Tx(e)));
    }
    start_file(buffer, 0);
    match store(tx, area.start + block, &[], buffer) {
        Ok(()) => Ok(()),
        Err(e) => Err(FsError::Store(StoreError::Tx(e))),
    }
}

// A new file of a name that has none, with a buffer for a block.
fn create_with<T: TxBlocks>(
    alloc: Global,
    tx: &mut T,
    name: &FileName,
    buffer: &mut [u8],
) -> Result<(), FsError>
    requires { HasBuffer (T.state tx.old) name.now.areas.files buffer.old }
    ensures { Across T.state T.device tx.old tx.new (IsPart false 66 (create_program name.now.areas name.now.bytes.now)) result }
{
    let area = name.areas.files;
    match value_of(alloc, tx, name.areas.tree, name.bytes) {
        Ok(Some(_)) => return Err(FsError::Exists),
        Ok(None) => {}
        Err(e) => return Err(FsError::Store(e)),
    }
    if let Err(e) = look(tx, area.start, map_mark(area), buffer) {
        return Err(FsError::Store(StoreError::Tx(e)));
    }
    match take_lowest(buffer, region_of(area), 1) {
        Some(block) => name_file(alloc, tx, name, block, buffer),
        None => Err(FsError::Store(StoreError::NoBlocks { need: 1, free: 0 })),
    }
}

/// Makes an empty file.
///
/// # Errors
///
/// Nothing was written, but where `Tx` comes after a write.
/// - `BadName` exactly where the name does not have 1 to 28 bytes.
/// - `Exists`: the name has a file.
/// - `Store(NoBlocks)`: no block is free for the file, or in the tree.
/// - `Store(Broken)`: a call of the tree answers it.
/// - `Store(Memory)`: want of memory for a buffer.
/// - `Store(Tx)`: the transaction refuses an access, or wants memory.
pub fn create<T: TxBlocks>(
    alloc: Global,
    tx: &mut T,
    at: FsRegion,
    name: &[u8],
) -> Result<(), FsError>
    requires { HasFiles (T.state tx.old) at }
    ensures ended { HasRun (create_program (areas_of (T.state tx.old) at) name.now) (T.state tx.old) (T.state tx.new) result }
    ensures local { IfOk result (IsLocalCall (AreFileRegions (areas_of (T.state tx.old) at)) (files (areas_of (T.state tx.old) at)) (create_op name.now) (T.state tx.old) (T.state tx.new)) }
    ensures bad_name { result ≡ Err FsError.BadName ↔ IsFalse (is_key name.now) }
    ensures exists { IsTrue (is_key name.now) → ExistsWhere (areas_of (T.state tx.old) at) (T.state tx.old) (λ m. is_some (get m name.now)) result }
    ensures leaves { Leaves false (T.state tx.old) (T.state tx.new) 66 (T.device tx.old) (T.device tx.new) result }
{
    if !is_key(name) {
        return Err(FsError::BadName);
    }
    let a = areas_of(tx, at);
    let mut block = match buffer(alloc, a.files.size as usize) {
        Ok(block) => block,
        Err(e) => return Err(FsError::Store(e)),
    };
    let name = FileName {
        areas: a,
        bytes: name,
    };
    create_with(alloc, tx, &name, &mut block)
}
