// A put that takes new blocks, from the read of the map on.
ghost use Rattle.std.specs.Prelude.{◌≡◌, ◌+◌, ◌*◌, ◌<◌, ◌≤◌, ◌==◌, ℕ, List, cond, get_or, length, take, suc, true, Some, None};
ghost use Rattle.store_model.specs.{Cells.cell_count, FreeMap.{map_bytes, map_mark}, Stores.bytes_in, TreeCalls.{full_row, need_of, put_new, put_writes, with_map, with_used}, TreeRegion.IsTreeArea};
ghost use Rattle.tx_blocks.specs.Runs.{Behaves, HasRun};
ghost use Rattle.iso_tree.specs.{FirstBlock.AreNew, Rows.NeedsBlocks, Sizes.IsWithin, Walks.{Across, HasBuffer, HasOpenBuffers, IsPart}, Ways.climbed};

use crate::climb::{climb, first_node};
use crate::entry::Entry;
use crate::first::store_first;
use crate::grow::{look_nodes, take_blocks};
use crate::way::Way;
use iso_alloc::{buffer, cell_count, free_blocks, map_span, region_of};
use iso_model::Span;
use std::alloc::Global;
use store_model::{Area, StoreError, TxError};
use tx_blocks::{TxBlocks, look, reserve};

// How many nodes in a row from the leaf up are full.
fn full_row(size: usize, path: &[(u32, u32)]) -> usize
    requires { 64 ≤ size }
    ensures { IsWithin result (full_row (cell_count size) path.now) (length path.now) }
{
    let Some(((_, count), rest)) = first_node(path) else {
        return 0;
    };
    if count as usize != cell_count(size) {
        return 0;
    }
    1 + full_row(size, rest)
}

// How many new blocks a put needs: one for each full node, and one for a new root.
fn need_of(full: usize, height: usize) -> usize
    requires full { full ≤ height }
    requires height { height ≤ 32 }
    ensures { result ≡ full + cond (full == height) 1 0 }
{
    if full == height {
        return full + 1;
    }
    full
}

// The new root, where all nodes of the path are full, with its level.
fn new_root(news: &[u32], height: usize, full: usize) -> Option<(u32, u8)>
    requires few { height ≤ 32 }
    requires enough { full ≡ height → height < length news.now }
    ensures { result ≡ cond (full == height) (Some (get_or news.now height 0, height)) None }
{
    if full != height {
        return None;
    }
    Some((news[height], height as u8))
}

// The full nodes of a path, and one more where there is one.
fn written(path: &[(u32, u32)], full: usize) -> &[(u32, u32)]
    requires { full ≤ length path.now }
    ensures { result.now ≡ take (suc full) path.now }
{
    if full == path.len() {
        return path;
    }
    &path[..full + 1]
}

// The writes: the first block, and then the nodes on the way up. None is made where not all of them fit. A path has at most 32
// nodes, so there are at most 66 writes: the first block, two for each full node, and one more.
fn put_writes<T: TxBlocks>(
    tx: &mut T,
    entry: &Entry,
    way: &Way,
    map: &[u8],
    into: &mut [u8],
) -> Result<(), StoreError>
    requires long { length way.now.path.now ≤ 32 }
    requires buffers { HasOpenBuffers (T.state tx.old) way.now.area map.now into.old }
    requires news { AreNew way.now.area way.now.news.now }
    ensures run { (first : List ℕ) → take (64 + map_bytes way.now.area.blocks) map.now ≡ with_used first way.now.news.now → HasRun (put_writes way.now.area first way.now.news.now (climbed way.now 0 entry.now 0)) (T.state tx.old) (T.state tx.new) result }
    ensures behaves { Behaves (T.state tx.old) (T.state tx.new) 66 (T.device tx.old) (T.device tx.new) result }
{
    let full = full_row(way.area.size as usize, way.path);
    if let Err(e) = reserve(tx, 2 + 2 * full as u32) {
        return Err(StoreError::Tx(e));
    }
    let root = new_root(way.news, way.path.len(), full);
    if let Err(e) = store_first(tx, way.area, map, way.news, root, into) {
        return Err(StoreError::Tx(e));
    }
    climb(tx, 0, entry, 0, way, into)
}

// The put, once the first block with the map is read.
fn put_taken<T: TxBlocks>(
    tx: &mut T,
    area: Area,
    entry: &Entry,
    path: &[(u32, u32)],
    map: &mut [u8],
    nodes: &mut [u8],
    into: &mut [u8],
) -> Result<(), StoreError>
    requires path { NeedsBlocks area (T.state tx.old) path.now }
    requires buffers { HasOpenBuffers (T.state tx.old) area map.old into.old }
    requires nodes { length path.now * area.size ≤ length nodes.old }
    ensures { Across T.state T.device tx.old tx.new (IsPart 66 (put_new area entry.now.key.now entry.now.value.now path.now (bytes_in (map_mark area.blocks) map.old) (need_of (cell_count area.size) path.now))) result }
{
    let full = full_row(area.size as usize, path);
    let need = need_of(full, path.len());
    let region = region_of(area);
    let free = free_blocks(map, region, 1);
    if (free as usize) < need {
        return Err(StoreError::NoBlocks {
            need: need as u32,
            free,
        });
    }
    let mut news = [0; 33];
    take_blocks(map, region, need, &mut news);
    let rows = written(path, full);
    if let Err(e) = look_nodes(tx, area, rows, nodes) {
        return Err(e);
    }
    let way = Way {
        area,
        key: entry.key,
        path: rows,
        nodes,
        news: &news[..need],
    };
    put_writes(tx, entry, &way, map, into)
}

/// The mark over head and map.
pub fn map_mark(area: Area) -> Span
    requires { IsTreeArea area }
    ensures { result ≡ map_mark area.blocks }
{
    map_span(area.blocks)
}

/// Puts a key that is in no leaf, once its leaf is full, or where the tree is empty; the path has the leaf first. It
/// takes buffers for the nodes of the path and for a block.
///
/// # Errors
///
/// - `NoBlocks`: fewer blocks are free than are needed.
/// - `Tx`: the transaction refuses an access, or wants memory. Nothing was written, but where it wants memory between
///   two writes.
pub fn put_new<T: TxBlocks>(
    alloc: Global,
    tx: &mut T,
    area: Area,
    entry: &Entry,
    path: &[(u32, u32)],
    map: &mut [u8],
) -> Result<(), StoreError>
    requires path { NeedsBlocks area (T.state tx.old) path.now }
    requires map { HasBuffer (T.state tx.old) area map.old }
    ensures { Across T.state T.device tx.old tx.new (IsPart 66 (with_map area entry.now.key.now entry.now.value.now path.now)) result }
{
    let Ok(mut nodes) = buffer(alloc, path.len() * area.size as usize) else {
        return Err(StoreError::Tx(TxError::Memory));
    };
    let Ok(mut into) = buffer(alloc, area.size as usize) else {
        return Err(StoreError::Tx(TxError::Memory));
    };
    if let Err(e) = look(tx, area.start, map_mark(area), map) {
        return Err(StoreError::Tx(e));
    }
    put_taken(tx, area, entry, path, map, &mut nodes, &mut into)
}
