// Another name for a file.
ghost use Rattle.std.specs.{Prelude.{◌≡◌, ◌↔◌, ◌&&◌, Err, IsFalse, IsTrue, is_some, true, IfOk}, FinMap.get};
ghost use Rattle.store_model.specs.{HashCalls.is_key, FileCalls.{rename_free, rename_op, rename_program, in_tree}, TreeCalls.get_program, FileRegion.{files, AreFileRegions}};
ghost use Rattle.tx_blocks.specs.Runs.{IsLocalCall};
ghost use Rattle.iso_fs.specs.Ends.{areas_of, Across, ExistsWhere, HasArea, HasFiles, HasRun, IsPart, Leaves};

use crate::buffers::areas_of;
use crate::names::{FileName, put_value, remove_name, value_of};
use iso_alloc::is_key;
use std::alloc::Global;
use store_model::{FsError, FsRegion};
use tx_blocks::TxBlocks;

// Puts the value at the new name, where that has none, and removes the old one.
fn move_value<T: TxBlocks>(
    alloc: Global,
    tx: &mut T,
    old: &FileName,
    new: &[u8],
    value: &[u8],
) -> Result<bool, FsError>
    requires holds { HasArea (T.state tx.old) old.now.areas.files }
    requires new { is_key new.now ≡ true }
    ensures { Across T.state T.device tx.old tx.new (IsPart true 66 (in_tree (get_program old.now.areas.tree new.now) (rename_free old.now.areas old.now.bytes.now new.now value.now))) result }
{
    let tree = old.areas.tree;
    match value_of(alloc, tx, tree, new) {
        Ok(Some(_)) => return Err(FsError::Exists),
        Ok(None) => {}
        Err(e) => return Err(FsError::Store(e)),
    }
    if let Err(e) = put_value(alloc, tx, tree, new, value) {
        return Err(FsError::Store(e));
    }
    match remove_name(alloc, tx, tree, old.bytes) {
        Ok(_) => Ok(true),
        Err(e) => Err(FsError::Store(e)),
    }
}

// Renames a file.
fn rename_in<T: TxBlocks>(
    alloc: Global,
    tx: &mut T,
    old: &FileName,
    new: &[u8],
) -> Result<bool, FsError>
    requires holds { HasArea (T.state tx.old) old.now.areas.files }
    requires new { is_key new.now ≡ true }
    ensures { Across T.state T.device tx.old tx.new (IsPart true 66 (rename_program old.now.areas old.now.bytes.now new.now)) result }
{
    match value_of(alloc, tx, old.areas.tree, old.bytes) {
        Ok(Some(value)) => move_value(alloc, tx, old, new, value.as_slice()),
        Ok(None) => Ok(false),
        Err(e) => Err(FsError::Store(e)),
    }
}

/// Gives a file another name, and says whether there is one.
///
/// # Errors
///
/// Nothing was written, but where `Tx` comes after a write, or `Memory` or `Broken` comes of the removal of the old
/// name, after the put of the new one.
/// - `BadName` exactly where one of the names does not have 1 to 28 bytes.
/// - `Exists`: the old name has a file, and the new one too, which may be the same.
/// - `Store(NoBlocks)`: the tree has too few free blocks.
/// - `Store(Broken)`: a call of the tree answers it.
/// - `Store(Memory)`: want of memory for a buffer.
/// - `Store(Tx)`: the transaction refuses an access, or wants memory.
pub fn rename<T: TxBlocks>(
    alloc: Global,
    tx: &mut T,
    at: FsRegion,
    old: &[u8],
    new: &[u8],
) -> Result<bool, FsError>
    requires { HasFiles (T.state tx.old) at }
    ensures ended { HasRun (rename_program (areas_of (T.state tx.old) at) old.now new.now) (T.state tx.old) (T.state tx.new) result }
    ensures local { IfOk result (IsLocalCall (AreFileRegions (areas_of (T.state tx.old) at)) (files (areas_of (T.state tx.old) at)) (rename_op old.now new.now) (T.state tx.old) (T.state tx.new)) }
    ensures bad_name { result ≡ Err FsError.BadName ↔ IsFalse (is_key old.now && is_key new.now) }
    ensures exists { IsTrue (is_key old.now && is_key new.now) → ExistsWhere (areas_of (T.state tx.old) at) (T.state tx.old) (λ m. is_some (get m old.now) && is_some (get m new.now)) result }
    ensures leaves { Leaves true (T.state tx.old) (T.state tx.new) 66 (T.device tx.old) (T.device tx.new) result }
{
    if !is_key(old) || !is_key(new) {
        return Err(FsError::BadName);
    }
    let a = areas_of(tx, at);
    let old = FileName {
        areas: a,
        bytes: old,
    };
    rename_in(alloc, tx, &old, new)
}
