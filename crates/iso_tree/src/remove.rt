// The removal of a key.
ghost use Rattle.std.specs.Prelude.{◌≡◌, ◌↔◌, ◌+◌, ◌≤◌, Err, Ok, IsFalse, true, IfOk, IfErr, OnErr, OnOk};
ghost use Rattle.store_model.specs.{HashCalls.is_key, HashRegion.del_op, TreeCalls.{del_below, del_program, edit_leaf, without_key}, TreeRegion.{tree_map, IsTreeArea, IsTreeRegion}};
ghost use Rattle.tx_blocks.specs.{Tx.IsLater, Runs.{area_of, HasEnded, HasRead, IsLocalCall, IsStoreCause}};
ghost use Rattle.iso_tree.specs.Walks.{Across, HasBuffers, HasLeaf, IsRemoval, TakesNoBlocks};

use crate::build::copy_without;
use crate::descent::{Leaf, descend, read_head};
use crate::leaf::store_leaf;
use crate::path::Path;
use crate::root::Root;
use iso_alloc::{buffer, is_key};
use std::alloc::Global;
use store_model::{Area, Region, StoreError};
use tx_blocks::{TxBlocks, area_of};

// Writes the leaf without the key; the buffer of its bytes is read into once more.
fn remove_cell<T: TxBlocks>(
    tx: &mut T,
    area: Area,
    key: &[u8],
    leaf: Leaf,
    old: &mut [u8],
    into: &mut [u8],
) -> Result<bool, StoreError>
    requires buffers { HasBuffers (T.state tx.old) area old.old into.old }
    requires leaf { HasLeaf (T.state tx.old) area key.now old.old leaf }
    ensures { Across T.state T.device tx.old tx.new (IsRemoval (edit_leaf area leaf.block (without_key key.now) (Ok true))) result }
{
    copy_without(key, old, into);
    store_leaf(tx, area, leaf.block, into, true, old)
}

// Removes a key below a root.
fn remove_below<T: TxBlocks>(
    tx: &mut T,
    root: Root,
    key: &[u8],
    block: &mut [u8],
    into: &mut [u8],
) -> Result<bool, StoreError>
    requires { HasBuffers (T.state tx.old) root.area block.old into.old }
    ensures { Across T.state T.device tx.old tx.new (IsRemoval (del_below root.area key.now root.block root.level)) result }
{
    if root.block == 0 {
        return Ok(false);
    }
    let mut path = Path::empty();
    let leaf = match descend(tx, root, key, false, &mut path, block) {
        Ok(leaf) => leaf,
        Err(e) => return Err(e),
    };
    let Some(_) = leaf.cell else {
        return Ok(false);
    };
    remove_cell(tx, root.area, key, leaf, block, into)
}

// Removes a key, with buffers for two blocks.
fn remove_with<T: TxBlocks>(
    tx: &mut T,
    area: Area,
    key: &[u8],
    block: &mut [u8],
    into: &mut [u8],
) -> Result<bool, StoreError>
    requires buffers { HasBuffers (T.state tx.old) area block.old into.old }
    requires key { is_key key.now ≡ true }
    ensures { Across T.state T.device tx.old tx.new (IsRemoval (del_program area key.now)) result }
{
    match read_head(tx, area, block) {
        Ok((number, level)) => {
            let root = Root {
                area,
                block: number,
                level,
            };
            remove_below(tx, root, key, block, into)
        }
        Err(e) => Err(e),
    }
}

/// Removes a key, and says whether the region's map had it.
///
/// # Errors
///
/// Nothing was written.
/// - `BadKey` exactly where the key does not have 1 to 28 bytes.
/// - `Broken`: the head or a node of the descent fails a test.
/// - `Memory`: want of memory for a buffer. The transaction is as before.
/// - `Tx`: the transaction refuses an access, or wants memory.
pub fn del<T: TxBlocks>(
    alloc: Global,
    tx: &mut T,
    region: Region,
    key: &[u8],
) -> Result<bool, StoreError>
    requires area { IsTreeArea (area_of (T.state tx.old) region) }
    requires fits { region.start + region.size ≤ (T.state tx.old).blocks }
    ensures ended { HasEnded (del_program (area_of (T.state tx.old) region) key.now) (T.state tx.old) (T.state tx.new) result }
    ensures local { IfOk result (IsLocalCall (IsTreeRegion (area_of (T.state tx.old) region)) (tree_map (area_of (T.state tx.old) region)) (del_op key.now) (T.state tx.old) (T.state tx.new)) }
    ensures bad_key { result ≡ Err StoreError.BadKey ↔ IsFalse (is_key key.now) }
    ensures cause { IfErr result (IsStoreCause (T.state tx.new) 1 (T.device tx.old) (T.device tx.new)) }
    ensures unwritten { OnErr result (HasRead (T.state tx.old) (T.state tx.new)) }
    ensures takes_none { IfErr result TakesNoBlocks }
    ensures later { IsLater (T.device tx.old) (T.device tx.new) }
    ensures passed { OnOk result ((T.device tx.new).faults ≡ (T.device tx.old).faults) }
{
    if !is_key(key) {
        return Err(StoreError::BadKey);
    }
    let size = tx.block_size() as usize;
    let mut block = buffer(alloc, size)?;
    let mut into = buffer(alloc, size)?;
    let area = area_of(tx, region);
    remove_with(tx, area, key, &mut block, &mut into)
}
