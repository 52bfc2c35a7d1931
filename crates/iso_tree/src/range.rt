// The pairs of a range of keys.
ghost use Rattle.std.specs.{Prelude.{◌≡◌, ◌⊎◌, ◌↔◌, ◌&&◌, ◌+◌, ◌-◌, ◌*◌, ◌<◌, ◌≤◌, ◌++◌, [], ◌∷◌, Err, IsFalse, true, IfOk, IfErr, OnOk, length, map, take}, List.list_all};
ghost use Rattle.store_model.specs.{Cells.{cell_count, is_part}, HashCalls.is_key, TreeCalls.{pairs_with, parts_of, scan_below, scan_program}, TreeNodes.child_of, TreeRegion.{scan_op, tree_map, IsTreeArea, IsTreeRegion}};
ghost use Rattle.tx_blocks.specs.{Tx.IsLater, Runs.{HasBlock, area_of, HasEnded, HasRead, IsLocalCall, IsStoreCause, WantsMemory}};
ghost use Rattle.iso_tree.specs.{Visits.{left_of, AreIn, HasMadeOne, HasStepped, IsScan}, Walks.{Across, HasBuffer, HasOpenBuffer, OnlyReads, OrMemory}};

use crate::descent::read_head;
use crate::key_range::KeyRange;
use crate::keys::{Keys, key_of};
use crate::unread::Unread;
use crate::visit::{Visit, read_node, values};
use iso_alloc::{buffer, is_key, piece, text_of, word_at};
use iso_model::{Bytes, Items};
use std::alloc::Global;
use store_model::{PairList, Region, StoreError, TxError};
use tx_blocks::{TxBlocks, area_of};

// Whether both are keys.
fn are_keys(from: &[u8], to: &[u8]) -> bool
    ensures { result ≡ (is_key from.now && is_key to.now) }
{
    is_key(from) && is_key(to)
}

// A copy of a text.
fn copied(alloc: Global, text: &[u8]) -> Result<Bytes, StoreError>
    ensures text { IfOk result (λ copy. copy ≡ text.now) }
    ensures memory { IfErr result (λ e. e ≡ StoreError.Tx TxError.Memory) }
{
    match text.to_vec(alloc) {
        Ok(items) => Ok(Items::of(items)),
        Err(_) => Err(StoreError::Tx(TxError::Memory)),
    }
}

// Adds a pair at the end.
fn add_pair(alloc: Global, key: &[u8], value: &[u8], found: &mut PairList) -> Result<(), StoreError>
    ensures { OrMemory (found.new ≡ found.old ++ (key.now, value.now) ∷ []) result }
{
    let pair = (copied(alloc, key)?, copied(alloc, value)?);
    match found.push(pair) {
        Ok(()) => Ok(()),
        Err(_) => Err(StoreError::Tx(TxError::Memory)),
    }
}

// Adds the pairs of cells from one on at the end, until there are `max`.
fn add_pairs(
    alloc: Global,
    keys: &Keys,
    values: &[u8],
    visit: Visit,
    max: usize,
    found: &mut PairList,
) -> Result<(), StoreError>
    requires inside { visit.first + visit.many ≤ cell_count keys.now.size }
    requires values { length values.now ≡ 33 * visit.many }
    requires texts { list_all (is_part 32) (parts_of values.now visit.many) ≡ true }
    ensures { OrMemory (found.new ≡ found.old ++ take (max - length found.old) (pairs_with keys.now.bytes.now visit.first (parts_of values.now visit.many))) result }
{
    for i in 0..visit.many {
        if max <= found.len() {
            return Ok(());
        }
        let key = key_of(keys, visit.first + i);
        let value = text_of(piece(values, 33 * i, 33));
        add_pair(alloc, key, value, found)?;
    }
    Ok(())
}

// Puts the children that value parts name before all unread nodes, in their order.
fn add_children(
    unread: &mut Unread,
    level: u8,
    values: &[u8],
    many: usize,
) -> Result<(), StoreError>
    requires { length values.now ≡ 33 * many }
    ensures { OrMemory (unread.new ≡ map (λ part. (level, child_of part)) (parts_of values.now many) ++ unread.old) result }
{
    let mut i = many;
    while 0 < i {
        i -= 1;
        unread.push(level, word_at(piece(values, 33 * i, 33), 1))?;
    }
    Ok(())
}

// Reads the next node. Its pairs are found then, or its children come before all that are unread.
fn step<T: TxBlocks>(
    alloc: Global,
    tx: &mut T,
    range: &KeyRange,
    node: (u8, u32),
    buffer: &mut [u8],
    unread: &mut Unread,
    found: &mut PairList,
) -> Result<(), StoreError>
    requires block { HasBlock IsTreeArea (T.state tx.old) range.now.area node.1 buffer.old }
    requires nodes { AreIn range.now.area unread.old }
    requires few { length found.old < range.now.max }
    ensures run { HasStepped range.now (node ∷ unread.old) unread.new found.old found.new (T.state tx.old) (T.state tx.new) result }
    ensures nodes { OnOk result (AreIn range.now.area unread.new) }
    ensures more { OnOk result (HasMadeOne (T.state tx.old) (T.state tx.new)) }
    ensures reads { Across T.state T.device tx.old tx.new OnlyReads result }
{
    let size = range.area.size as usize;
    let max = range.max as usize;
    let (level, block) = node;
    let visit = match read_node(tx, range, level, block, buffer) {
        Ok(visit) => visit,
        Err(e) => return Err(e),
    };
    let values = values(buffer, visit);
    if level == 0 {
        let keys = Keys::of(size, buffer);
        return add_pairs(alloc, &keys, values, visit, max, found);
    }
    add_children(unread, level - 1, values, visit.many)
}

// The first pairs of the range below the unread nodes, at most `max`.
fn walk<T: TxBlocks>(
    alloc: Global,
    tx: &mut T,
    range: &KeyRange,
    buffer: &mut [u8],
    unread: &mut Unread,
) -> Result<PairList, StoreError>
    requires buffer { HasOpenBuffer (T.state tx.old) range.now.area buffer.old }
    requires nodes { AreIn range.now.area unread.old }
    ensures { Across T.state T.device tx.old tx.new (IsScan (left_of range.now unread.old [])) result }
{
    let mut found = Items::empty(alloc);
    while found.len() < range.max as usize {
        let Some(node) = unread.pop() else {
            return Ok(found);
        };
        if let Err(e) = step(alloc, tx, range, node, buffer, unread, &mut found) {
            return Err(e);
        }
    }
    Ok(found)
}

// The first pairs of the range below a root.
fn scan_below<T: TxBlocks>(
    alloc: Global,
    tx: &mut T,
    range: &KeyRange,
    root: u32,
    level: u8,
    buffer: &mut [u8],
) -> Result<PairList, StoreError>
    requires buffer { HasOpenBuffer (T.state tx.old) range.now.area buffer.old }
    requires root { root < range.now.area.blocks }
    ensures { Across T.state T.device tx.old tx.new (IsScan (scan_below range.now.area range.now.from.now range.now.to.now range.now.max root level)) result }
{
    let mut unread = Unread::empty(alloc);
    if root == 0 {
        return Ok(Items::empty(alloc));
    }
    match unread.push(level, root) {
        Ok(()) => walk(alloc, tx, range, buffer, &mut unread),
        Err(e) => Err(e),
    }
}

// The first pairs of the range, with a buffer for a block.
fn scan_with<T: TxBlocks>(
    alloc: Global,
    tx: &mut T,
    range: &KeyRange,
    buffer: &mut [u8],
) -> Result<PairList, StoreError>
    requires { HasBuffer (T.state tx.old) range.now.area buffer.old }
    ensures { Across T.state T.device tx.old tx.new (IsScan (scan_program range.now.area range.now.from.now range.now.to.now range.now.max)) result }
{
    match read_head(tx, range.area, buffer) {
        Ok((root, level)) => scan_below(alloc, tx, range, root, level, buffer),
        Err(e) => Err(e),
    }
}

/// The first pairs of the region's map whose key is at least `from` and below `to`, in order, at most `max`. It writes
/// nothing.
///
/// # Errors
///
/// - `BadKey` exactly where one of the keys does not have 1 to 28 bytes.
/// - `Broken`: the head, a node or a value part that is read fails a test.
/// - `Memory`: want of memory for a buffer. The transaction is as before.
/// - `Tx`: the transaction refuses an access, or wants memory, also for the pairs. The reads that came before stay, the
///   last one too where the pairs are its own.
pub fn scan<T: TxBlocks>(
    alloc: Global,
    tx: &mut T,
    region: Region,
    from: &[u8],
    to: &[u8],
    max: u32,
) -> Result<PairList, StoreError>
    requires area { IsTreeArea (area_of (T.state tx.old) region) }
    requires fits { region.start + region.size ≤ (T.state tx.old).blocks }
    requires max { 0 < max }
    ensures ended { HasEnded (scan_program (area_of (T.state tx.old) region) from.now to.now max) (T.state tx.old) (T.state tx.new) result
        ⊎ WantsMemory (scan_program (area_of (T.state tx.old) region) from.now to.now max) (T.state tx.old) (T.state tx.new) result }
    ensures local { IfOk result (IsLocalCall (IsTreeRegion (area_of (T.state tx.old) region)) (tree_map (area_of (T.state tx.old) region)) (scan_op from.now to.now max) (T.state tx.old) (T.state tx.new)) }
    ensures reads { HasRead (T.state tx.old) (T.state tx.new) }
    ensures bad_key { result ≡ Err StoreError.BadKey ↔ IsFalse (is_key from.now && is_key to.now) }
    ensures cause { IfErr result (IsStoreCause (T.state tx.new) 1 (T.device tx.old) (T.device tx.new)) }
    ensures later { IsLater (T.device tx.old) (T.device tx.new) }
    ensures passed { OnOk result ((T.device tx.new).faults ≡ (T.device tx.old).faults) }
{
    if !are_keys(from, to) {
        return Err(StoreError::BadKey);
    }
    let mut block = buffer(alloc, tx.block_size() as usize)?;
    let range = KeyRange {
        area: area_of(tx, region),
        from,
        to,
        max,
    };
    scan_with(alloc, tx, &range, &mut block)
}
