// A put that takes new blocks.
ghost use Rattle.std.specs.{Prelude.{◌≡◌, ◌+◌, ◌-◌, ◌<◌, ◌≤◌, ◌↔◌, IsTrue, not, OnOk, IfErr, length, take}, List.{filter, range_with_len}};
ghost use Rattle.store_model.specs.{FreeMap.{free_count, map_bit, map_bytes}, TreeCalls.with_used};
ghost use Rattle.iso_tree.specs.{Rows.{AreUsable, HasNodes, IsUsable}, Sizes.IsNodeSize, Walks.{Across, OnlyReads}, Ways.HasLookedAgain};

use crate::climb::first_node;
use crate::keys::count_of;
use iso_alloc::{are_key_parts, cell_count, piece, take_lowest};
use store_model::{Area, Region, StoreError, TxError};
use tx_blocks::{TxBlocks, look_whole};

/// Takes `need` free blocks, lowest first.
pub fn take_blocks(map: &mut [u8], region: Region, need: usize, news: &mut [u32])
    requires map { 64 + map_bytes region.size ≤ length map.old }
    requires some { 1 ≤ region.size }
    requires low { region.size < 4294967295 }
    requires need { need ≤ free_count map.old 1 (region.size - 1) }
    requires news { need ≤ length news.old }
    ensures taken { take need news.new ≡ take need (filter (λ k. not (map_bit map.old k)) (range_with_len 1 (region.size - 1))) }
    ensures used { map.new ≡ with_used map.old (take need news.new) }
{
    let mut first = 1;
    for i in 0..need {
        let Some(block) = take_lowest(map, region, first) else {
            return;
        };
        news[i] = block;
        first = block + 1;
    }
}

// Whether key parts and count are those of a node with `count` cells.
fn is_usable(size: usize, block: &[u8], count: u32) -> bool
    requires size { IsNodeSize size }
    requires block { length block.now ≡ size }
    ensures { IsTrue result ↔ IsUsable size block.now count }
{
    let keys = piece(block, 0, 64 + 31 * cell_count(size));
    if !are_key_parts(size, keys) {
        return false;
    }
    count_of(keys) == count as usize && 1 <= count && count as usize <= cell_count(size)
}

/// Reads the nodes of a path again, unmarked, one after the other. The descent has tested them, and no test is asked
/// here: a disk whose bytes are known shows the same ones.
///
/// # Errors
///
/// `Tx`, never `Broken`: the transaction refuses a read, or the disk shows another node, which cannot be split. The put
/// would then need the bytes that the descent has read, and wants memory for them.
pub fn look_nodes<T: TxBlocks>(
    tx: &mut T,
    area: Area,
    path: &[(u32, u32)],
    nodes: &mut [u8],
) -> Result<(), StoreError>
    requires { HasNodes (T.state tx.old) area path.now nodes.old }
    ensures run { HasLookedAgain area path.now nodes.new (T.state tx.old) (T.state tx.new) result }
    ensures unbroken { IfErr result (λ e. (refusal : TxError) × (e ≡ StoreError.Tx refusal)) }
    ensures usable { OnOk result (AreUsable area.size nodes.new path.now) }
    ensures reads { Across T.state T.device tx.old tx.new OnlyReads result }
{
    let size = area.size as usize;
    let Some(((block, count), rest)) = first_node(path) else {
        return Ok(());
    };
    let (node, others) = nodes.split_at_mut(size);
    if let Err(e) = look_whole(tx, area.start + block, node) {
        return Err(StoreError::Tx(e));
    }
    if !is_usable(size, node, count) {
        return Err(StoreError::Tx(TxError::Memory));
    }
    look_nodes(tx, area, rest, others)
}
