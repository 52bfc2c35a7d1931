// Writes into one leaf, for puts and removals: a value, a new cell, or the whole leaf.
ghost use Rattle.std.specs.Prelude.{◌≡◌, ◌+◌, ◌*◌, ◌<◌, ◌≤◌, ℕ, List, length, Ok, IfErr, IfOk, [], ◌∷◌};
ghost use Rattle.store_model.specs.{Cells.{block_with, cell_count, keys_end, value_mark, value_part}, Stores.{Done, Store}, TreeNodes.{node_bytes, used_cells, Cell}, Trees.put_after, TreeCalls.edit_leaf, TreeRegion.IsTreeArea};
ghost use Rattle.tx_blocks.specs.Runs.{HasBlock, AreBytesOf, Behaves, HasRun};
ghost use Rattle.iso_tree.specs.{Entries.spelled, Sizes.AreBytes, Walks.{Across, HasBuffer, HasLeaf, IsLeaf, IsPart, IsWalkError}};

use crate::descent::{Leaf, value_mark};
use crate::entry::Entry;
use crate::fill::upto;
use crate::grown::grown_node;
use crate::growth::Growth;
use crate::keys::Keys;
use iso_alloc::{lay_alone, value_part};
use iso_model::Memory;
use std::alloc::Global;
use store_model::{Area, StoreError, TxError};
use tx_blocks::{TxBlocks, last_store, look_whole, store};

/// Writes the value of this cell; `into` is scratch space of one block.
///
/// # Errors
///
/// `Tx`: the transaction refuses the write.
pub fn put_value<T: TxBlocks>(
    tx: &mut T,
    area: Area,
    block: u32,
    cell: u32,
    value: &[u8],
    into: &mut [u8],
) -> Result<(), StoreError>
    requires block { HasBlock IsTreeArea (T.state tx.old) area block into.old }
    requires cell { cell < cell_count area.size }
    requires value { length value.now ≤ 32 }
    ensures { Across T.state T.device tx.old tx.new (IsPart 1 (Store (area.start + block) (value_mark area.size cell ∷ []) (block_with area.size (keys_end area.size + 33 * cell) (value_part value.now)) (Done (Ok tt)))) result }
{
    let span = value_mark(area.size, cell);
    let part = value_part(value);
    lay_alone(into, span.off as usize, &part);
    last_store(tx, area.start + block, &[span], into, ())
}

/// Writes the bytes of a leaf with other cells. The leaf is read again, unmarked, so that the call depends on all
/// of it: its bytes are those that the descent has read.
///
/// # Errors
///
/// `Tx`: the transaction refuses the read or the write. Nothing was written.
pub fn store_leaf<T: TxBlocks, R: Copy>(
    tx: &mut T,
    area: Area,
    leaf: u32,
    bytes: &[u8],
    answer: R,
    again: &mut [u8],
) -> Result<R, StoreError>
    requires leaf { HasBlock IsTreeArea (T.state tx.old) area leaf again.old }
    requires bytes { length bytes.now ≡ area.size }
    ensures run { (old : List ℕ) (change : List Cell → List Cell) → AreBytesOf (T.state tx.old) (area.start + leaf) old → bytes.now ≡ node_bytes area.size 0 (change (used_cells area.size old))
        → HasRun (edit_leaf area leaf change (Ok answer)) (T.state tx.old) (T.state tx.new) result }
    ensures behaves { Behaves (T.state tx.old) (T.state tx.new) 1 (T.device tx.old) (T.device tx.new) result }
    ensures known { IfErr result IsWalkError }
{
    let image_block = area.start + leaf;
    if let Err(e) = look_whole(tx, image_block, again) {
        return Err(StoreError::Tx(e));
    }
    match store(tx, image_block, &[], bytes) {
        Ok(()) => Ok(answer),
        Err(e) => Err(StoreError::Tx(e)),
    }
}

/// Writes the leaf with a new cell, from a buffer of its own; the one that has the leaf's bytes is read into again.
///
/// # Errors
///
/// As those of `store_leaf`, and want of memory for the buffer.
pub fn put_cell<T: TxBlocks>(
    alloc: Global,
    tx: &mut T,
    area: Area,
    entry: &Entry,
    leaf: Leaf,
    old: &mut [u8],
) -> Result<(), StoreError>
    requires old { HasBuffer (T.state tx.old) area old.old }
    requires leaf { HasLeaf (T.state tx.old) area entry.now.key.now old.old leaf }
    requires room { leaf.count < cell_count area.size }
    ensures { Across T.state T.device tx.old tx.new (IsPart 1 (edit_leaf area leaf.block (put_after entry.now.key.now (spelled entry.now)) (Ok tt))) result }
{
    let Ok(bytes) = leaf_with(alloc, area, old, entry, leaf) else {
        return Err(StoreError::Tx(TxError::Memory));
    };
    store_leaf(tx, area, leaf.block, &bytes, (), old)
}

// The bytes of a leaf with a new cell.
fn leaf_with(
    alloc: Global,
    area: Area,
    old: &[u8],
    entry: &Entry,
    leaf: Leaf,
) -> Result<Vec<u8>, Memory>
    requires area { IsTreeArea area }
    requires old { length old.now ≡ area.size }
    requires leaf { IsLeaf area entry.now.key.now old.now leaf }
    requires room { leaf.count < cell_count area.size }
    ensures { IfOk result (λ v. AreBytes area.size v.items (node_bytes area.size 0 (put_after entry.now.key.now (spelled entry.now) (used_cells area.size old.now)))) }
{
    let keys = Keys::of(area.size as usize, old);
    let place = upto(entry.key, &keys, 0);
    let growth = Growth {
        area,
        node: &*old,
        place,
        entry: &*entry,
    };
    grown_node(alloc, 0, &growth, leaf.count as usize)
}
