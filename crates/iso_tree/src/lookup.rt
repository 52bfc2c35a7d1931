// The look-up of a key.
ghost use Rattle.std.specs.Prelude.{◌≡◌, ◌↔◌, ◌+◌, ◌≤◌, Err, IsFalse, true, IfOk, IfErr, OnOk, length};
ghost use Rattle.store_model.specs.{HashCalls.is_key, HashRegion.get_op, TreeCalls.{get_below, get_program}, TreeRegion.{tree_map, IsTreeArea, IsTreeRegion}};
ghost use Rattle.tx_blocks.specs.{Tx.IsLater, Runs.{area_of, HasEnded, HasRead, IsLocalCall, IsStoreCause}};
ghost use Rattle.iso_tree.specs.Walks.{Across, HasBuffer, HasOpenBuffer, IsReading};

use crate::descent::{descend, read_head, value_part};
use crate::path::Path;
use crate::root::Root;
use iso_alloc::{buffer, is_key, is_part, spelled};
use iso_model::{Bytes, Items};
use std::alloc::Global;
use store_model::{Area, Region, StoreError};
use tx_blocks::{TxBlocks, area_of};

// The value of a key below a root.
fn get_below<T: TxBlocks>(
    tx: &mut T,
    root: Root,
    key: &[u8],
    block: &mut [u8],
    room: Vec<u8>,
) -> Result<Option<Bytes>, StoreError>
    requires block { HasOpenBuffer (T.state tx.old) root.area block.old }
    requires room { length room.items ≡ 32 }
    ensures { Across T.state T.device tx.old tx.new (IsReading (get_below root.area key.now root.block root.level)) result }
{
    if root.block == 0 {
        return Ok(None);
    }
    let mut path = Path::empty();
    let leaf = match descend(tx, root, key, true, &mut path, block) {
        Ok(leaf) => leaf,
        Err(e) => return Err(e),
    };
    let Some(cell) = leaf.cell else {
        return Ok(None);
    };
    let part = value_part(root.area.size, block, cell);
    if !is_part(part, 32) {
        return Err(StoreError::Broken {
            block: root.area.start + leaf.block,
        });
    }
    Ok(Some(Items::of(spelled(part, room))))
}

// The value of a key, with buffers for a block and for the value.
fn get_with<T: TxBlocks>(
    tx: &mut T,
    area: Area,
    key: &[u8],
    block: &mut [u8],
    room: Vec<u8>,
) -> Result<Option<Bytes>, StoreError>
    requires block { HasBuffer (T.state tx.old) area block.old }
    requires key { is_key key.now ≡ true }
    requires room { length room.items ≡ 32 }
    ensures { Across T.state T.device tx.old tx.new (IsReading (get_program area key.now)) result }
{
    match read_head(tx, area, block) {
        Ok((number, level)) => {
            let root = Root {
                area,
                block: number,
                level,
            };
            get_below(tx, root, key, block, room)
        }
        Err(e) => Err(e),
    }
}

/// The value of a key, and none where the region's map has none. It writes nothing.
///
/// # Errors
///
/// - `BadKey` exactly where the key does not have 1 to 28 bytes.
/// - `Broken`: the head, a node of the descent or the value part fails a test.
/// - `Memory`: want of memory for a buffer. The transaction is as before.
/// - `Tx`: the transaction refuses an access, or wants memory.
pub fn get<T: TxBlocks>(
    alloc: Global,
    tx: &mut T,
    region: Region,
    key: &[u8],
) -> Result<Option<Bytes>, StoreError>
    requires area { IsTreeArea (area_of (T.state tx.old) region) }
    requires fits { region.start + region.size ≤ (T.state tx.old).blocks }
    ensures ended { HasEnded (get_program (area_of (T.state tx.old) region) key.now) (T.state tx.old) (T.state tx.new) result }
    ensures local { IfOk result (IsLocalCall (IsTreeRegion (area_of (T.state tx.old) region)) (tree_map (area_of (T.state tx.old) region)) (get_op key.now) (T.state tx.old) (T.state tx.new)) }
    ensures reads { HasRead (T.state tx.old) (T.state tx.new) }
    ensures bad_key { result ≡ Err StoreError.BadKey ↔ IsFalse (is_key key.now) }
    ensures cause { IfErr result (IsStoreCause (T.state tx.new) 1 (T.device tx.old) (T.device tx.new)) }
    ensures later { IsLater (T.device tx.old) (T.device tx.new) }
    ensures passed { OnOk result ((T.device tx.new).faults ≡ (T.device tx.old).faults) }
{
    if !is_key(key) {
        return Err(StoreError::BadKey);
    }
    let mut block = buffer(alloc, tx.block_size() as usize)?;
    let room = buffer(alloc, 32)?;
    let area = area_of(tx, region);
    get_with(tx, area, key, &mut block, room)
}
