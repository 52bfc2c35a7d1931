// The way up of a put: the writes of nodes, from the leaf to the first one that is not full, or to a new root.
ghost use Rattle.std.specs.Prelude.{◌≡◌, ◌+◌, ◌<◌, ◌≤◌, IfSome, IfNone, Ok, length, take, [], ◌∷◌};
ghost use Rattle.store_model.specs.{Cells.{cell_count, keys_end}, Stores.{Done, Store}, TreeNodes.{count_of, used_cells, Cell}, TreeCalls.{placed, store_nodes}};
ghost use Rattle.iso_tree.specs.{Entries.row, Rows.row_from, Sizes.HasKeyParts, Walks.Across, Ways.{climbed, halves_of, HasRoom, MayStore, WritesFirst, WritesLast}};

use crate::entry::Entry;
use crate::fill::{empty_first, fill_root, fill_row, row_key, upto};
use crate::growth::Growth;
use crate::keys::Keys;
use crate::way::Way;
use iso_alloc::cell_count;
use store_model::StoreError;
use tx_blocks::{TxBlocks, store};

// Where a new cell comes in a node: after the last one whose key is not above the searched one. An inner node's first cell stays.
fn place_in(size: usize, level: u8, key: &[u8], node: &[u8]) -> usize
    requires node { HasKeyParts size node.now }
    requires some { 1 ≤ count_of (take (keys_end size) node.now) }
    ensures row { (new : Cell) → row_from size node.now result new 0 (count_of (take (keys_end size) node.now) + 1) ≡ placed level key.now new (used_cells size node.now) }
    ensures most { result ≤ cell_count size }
{
    let keys = Keys::of(size, node);
    if level == 0 {
        return upto(key, &keys, 0);
    }
    1 + upto(key, &keys, 1)
}

/// The first node of a path, and the others.
pub fn first_node(path: &[(u32, u32)]) -> Option<((u32, u32), &[(u32, u32)])>
    ensures some { IfSome result (λ x. path.now ≡ x.0 ∷ x.1.now) }
    ensures none { IfNone result (path.now ≡ []) }
{
    match path.split_first() {
        Some((node, rest)) => Some((*node, rest)),
        None => None,
    }
}

// The first of new blocks, and the others.
fn first_new(news: &[u32]) -> Option<(u32, &[u32])>
    ensures some { IfSome result (λ x. news.now ≡ x.0 ∷ x.1.now) }
    ensures none { IfNone result (news.now ≡ []) }
{
    match news.split_first() {
        Some((new, more)) => Some((*new, more)),
        None => None,
    }
}

// Writes a node of a way up.
fn store_next<T: TxBlocks>(tx: &mut T, block: u32, bytes: &[u8]) -> Result<(), StoreError>
    requires { MayStore (T.state tx.old) block bytes.now }
    ensures { Across T.state T.device tx.old tx.new (WritesFirst (Store block [] bytes.now) 1) result }
{
    match store(tx, block, &[], bytes) {
        Ok(()) => Ok(()),
        Err(e) => Err(StoreError::Tx(e)),
    }
}

// Writes a full node with its new cell as two: the first cells in its place, the others in a new block.
fn store_halves<T: TxBlocks>(
    tx: &mut T,
    level: u8,
    block: u32,
    new: u32,
    growth: &Growth,
    into: &mut [u8],
) -> Result<(), StoreError>
    requires writes { HasRoom (T.state tx.old) growth.now.area 2 into.old }
    requires block { block < growth.now.area.blocks }
    requires new { new < growth.now.area.blocks }
    ensures { Across T.state T.device tx.old tx.new (WritesFirst (store_nodes growth.now.area (halves_of level block new growth.now)) 2) result }
{
    let cells = cell_count(growth.area.size as usize);
    let half = (cells + 1) / 2;
    fill_row(into, level, growth, 0, half);
    if let Err(e) = store_next(tx, growth.area.start + block, into) {
        return Err(e);
    }
    fill_row(into, level, growth, half, cells + 1 - half);
    empty_first(into, level);
    store_next(tx, growth.area.start + new, into)
}

// Writes a node with its new cell, the last one of a way up.
fn store_grown<T: TxBlocks>(
    tx: &mut T,
    level: u8,
    block: u32,
    growth: &Growth,
    count: usize,
    into: &mut [u8],
) -> Result<(), StoreError>
    requires writes { HasRoom (T.state tx.old) growth.now.area 1 into.old }
    requires block { block < growth.now.area.blocks }
    requires count { count ≤ cell_count growth.now.area.size }
    ensures { Across T.state T.device tx.old tx.new (WritesLast (store_nodes growth.now.area ((block, level, row growth.now 0 count) ∷ []) (Done (Ok tt)))) result }
{
    fill_row(into, level, growth, 0, count);
    store_next(tx, growth.area.start + block, into)
}

/// The writes of a way up, from a node of a level on, which gets an entry.
///
/// # Errors
///
/// `Tx`: want of memory. The writes before it stay.
pub fn climb<T: TxBlocks>(
    tx: &mut T,
    level: u8,
    entry: &Entry,
    below: u32,
    way: &Way,
    into: &mut [u8],
) -> Result<(), StoreError>
    requires writes { HasRoom (T.state tx.old) way.now.area (length (climbed way.now level entry.now below).writes) into.old }
    requires level { level + length way.now.path.now ≤ 255 }
    ensures { Across T.state T.device tx.old tx.new (WritesLast (store_nodes way.now.area (climbed way.now level entry.now below).writes (Done (Ok tt)))) result }
{
    let area = way.area;
    let size = area.size as usize;
    let Some(((block, count), path)) = first_node(way.path) else {
        let Some((root, _)) = first_new(way.news) else {
            return Ok(());
        };
        fill_root(into, level, below, entry);
        return store_next(tx, area.start + root, into);
    };
    let (node, nodes) = way.nodes.split_at(size);
    let place = place_in(size, level, way.key, node);
    let growth = Growth {
        area,
        node,
        place,
        entry: &*entry,
    };
    if (count as usize) < cell_count(size) {
        return store_grown(tx, level, block, &growth, count as usize + 1, into);
    }
    let Some((new, news)) = first_new(way.news) else {
        return Ok(());
    };
    if let Err(e) = store_halves(tx, level, block, new, &growth, into) {
        return Err(e);
    }
    let number = new.to_be_bytes();
    let separator = Entry {
        key: row_key(&growth, (cell_count(size) + 1) / 2),
        value: &number,
    };
    let above = Way {
        area,
        key: way.key,
        path,
        nodes,
        news,
    };
    climb(tx, level + 1, &separator, block, &above, into)
}
