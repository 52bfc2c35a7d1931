// The put of a key.
ghost use Rattle.std.specs.Prelude.{◌≡◌, ◌↔◌, ◌+◌, ◌≤◌, Err, IsFalse, IsTrue, true, IfOk, IfErr, OnOk};
ghost use Rattle.store_model.specs.{HashCalls.{is_key, is_value}, HashRegion.put_op, TreeCalls.{put_below_root, put_program}, TreeRegion.{tree_map, IsTreeArea, IsTreeRegion}};
ghost use Rattle.tx_blocks.specs.{Tx.IsLater, Runs.{area_of, HasEnded, IsLocalCall, IsStoreCause, IsUnwritten}};
ghost use Rattle.iso_tree.specs.Walks.{Across, HasBuffer, IsPart};

use crate::descent::{descend, read_head};
use crate::enlarge::put_new;
use crate::entry::Entry;
use crate::leaf::{put_cell, put_value};
use crate::path::Path;
use crate::root::Root;
use iso_alloc::{buffer, cell_count, is_key, is_value};
use std::alloc::Global;
use store_model::{Area, Region, StoreError};
use tx_blocks::{TxBlocks, area_of};

// Puts a value at a key below a root.
fn put_below<T: TxBlocks>(
    alloc: Global,
    tx: &mut T,
    root: Root,
    entry: &Entry,
    block: &mut [u8],
) -> Result<(), StoreError>
    requires { HasBuffer (T.state tx.old) root.area block.old }
    ensures { Across T.state T.device tx.old tx.new (IsPart 66 (put_below_root root.area entry.now.key.now entry.now.value.now root.block root.level)) result }
{
    let area = root.area;
    if root.block == 0 {
        return put_new(alloc, tx, area, entry, &[], block);
    }
    let mut path = Path::empty();
    let leaf = match descend(tx, root, entry.key, false, &mut path, block) {
        Ok(leaf) => leaf,
        Err(e) => return Err(e),
    };
    if let Some(cell) = leaf.cell {
        return put_value(tx, area, leaf.block, cell, entry.value, block);
    }
    if (leaf.count as usize) < cell_count(area.size as usize) {
        return put_cell(alloc, tx, area, entry, leaf, block);
    }
    path.push(leaf.block, leaf.count);
    put_new(alloc, tx, area, entry, path.nodes(), block)
}

// Puts a value at a key, with a buffer for a block.
fn put_with<T: TxBlocks>(
    alloc: Global,
    tx: &mut T,
    area: Area,
    key: &[u8],
    value: &[u8],
    block: &mut [u8],
) -> Result<(), StoreError>
    requires block { HasBuffer (T.state tx.old) area block.old }
    requires key { is_key key.now ≡ true }
    requires value { is_value value.now ≡ true }
    ensures { Across T.state T.device tx.old tx.new (IsPart 66 (put_program area key.now value.now)) result }
{
    match read_head(tx, area, block) {
        Ok((number, level)) => {
            let root = Root {
                area,
                block: number,
                level,
            };
            put_below(alloc, tx, root, &Entry { key, value }, block)
        }
        Err(e) => Err(e),
    }
}

/// Puts a value at a key: the region's map has it then.
///
/// # Errors
///
/// Nothing was written, but where the transaction wants memory between two writes.
/// - `BadKey` exactly where the key does not have 1 to 28 bytes.
/// - `BadValue` exactly where the key is good, and the value has more than 32 bytes.
/// - `NoBlocks`: fewer blocks are free than are needed.
/// - `Broken`: the head or a node of the descent fails a test.
/// - `Memory`: want of memory for a buffer. The transaction is as before.
/// - `Tx`: the transaction refuses an access, or wants memory.
pub fn put<T: TxBlocks>(
    alloc: Global,
    tx: &mut T,
    region: Region,
    key: &[u8],
    value: &[u8],
) -> Result<(), StoreError>
    requires area { IsTreeArea (area_of (T.state tx.old) region) }
    requires fits { region.start + region.size ≤ (T.state tx.old).blocks }
    ensures ended { HasEnded (put_program (area_of (T.state tx.old) region) key.now value.now) (T.state tx.old) (T.state tx.new) result }
    ensures local { IfOk result (IsLocalCall (IsTreeRegion (area_of (T.state tx.old) region)) (tree_map (area_of (T.state tx.old) region)) (put_op key.now value.now) (T.state tx.old) (T.state tx.new)) }
    ensures bad_key { result ≡ Err StoreError.BadKey ↔ IsFalse (is_key key.now) }
    ensures bad_value { result ≡ Err StoreError.BadValue ↔ (IsTrue (is_key key.now) × IsFalse (is_value value.now)) }
    ensures cause { IfErr result (IsStoreCause (T.state tx.new) 66 (T.device tx.old) (T.device tx.new)) }
    ensures unwritten { IfErr result (IsUnwritten (T.state tx.old) (T.state tx.new) 66) }
    ensures later { IsLater (T.device tx.old) (T.device tx.new) }
    ensures passed { OnOk result ((T.device tx.new).faults ≡ (T.device tx.old).faults) }
{
    if !is_key(key) {
        return Err(StoreError::BadKey);
    }
    if !is_value(value) {
        return Err(StoreError::BadValue);
    }
    let mut block = buffer(alloc, tx.block_size() as usize)?;
    let area = area_of(tx, region);
    put_with(alloc, tx, area, key, value, &mut block)
}
