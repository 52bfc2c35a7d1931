// The read of a node that a scan visits.
ghost use Rattle.std.specs.{Prelude.{◌≡◌, ◌+◌, ◌*◌, ◌<◌, IfOk, OnOk, None, length}, List.list_all};
ghost use Rattle.store_model.specs.{Cells.keys_end, Stores.bytes_in, TreeCalls.parts_of, TreeNodes.count_of, TreeRegion.{is_part_at, IsTreeArea}};
ghost use Rattle.tx_blocks.specs.{Runs.HasBlock, Tx.mark_refusal};
ghost use Rattle.iso_tree.specs.{Sizes.AreBytes, Visits.{values_mark, AreBetween, HasMadeOne, HasMarked, HasVisited, IsVisitIn, IsVisited}, Walks.{Across, OnlyReads}};

use crate::descent::keys_mark;
use crate::key_range::KeyRange;
use crate::keys::{Keys, below, count_of, is_node, place_of};
use crate::node::is_child;
use iso_alloc::{cell_count, is_part, piece};
use iso_model::Span;
use store_model::{Area, StoreError};
use tx_blocks::{TxBlocks, look, mark};

/// The cells of a node that a scan visits: the first, and how many.
#[derive(Clone, Copy)]
pub struct Visit {
    pub first: usize,
    pub many: usize,
}

// The cells of a node that a scan visits.
fn cells_between(level: u8, from: &[u8], to: &[u8], keys: &Keys) -> Visit
    requires { 0 < level → 0 < count_of keys.now.bytes.now }
    ensures { AreBetween level from.now to.now keys.now.bytes.now result }
{
    if level == 0 {
        let first = below(from, keys, 0);
        let many = below(to, keys, 0).saturating_sub(first);
        return Visit { first, many };
    }
    let first = place_of(from, keys);
    let many = (1 + below(to, keys, 1)).saturating_sub(first);
    Visit { first, many }
}

// The mark over the value parts of cells.
fn values_mark(size: u32, visit: Visit) -> Span
    requires { IsVisitIn size visit }
    ensures { result ≡ values_mark size visit.first visit.many }
{
    Span {
        off: (64 + 31 * cell_count(size as usize) + 33 * visit.first) as u16,
        len: (33 * visit.many) as u16,
    }
}

// Marks the value parts of cells, where there are any.
fn mark_values<T: TxBlocks>(tx: &mut T, size: u32, visit: Visit)
    requires visit { IsVisitIn size visit }
    requires open { 0 < visit.many → mark_refusal (T.state tx.old) (keys_end size + 33 * visit.first) (33 * visit.many) ≡ None }
    ensures { Across T.state T.device tx.old tx.new (HasMarked size visit) }
{
    if visit.many == 0 {
        return;
    }
    mark(tx, values_mark(size, visit));
}

// Whether a value part is that of a cell of this level.
fn is_part_at(area: Area, level: u8, part: &[u8]) -> bool
    requires { length part.now ≡ 33 }
    ensures { result ≡ is_part_at area level part.now }
{
    if level == 0 {
        return is_part(part, 32);
    }
    is_child(area.blocks, part)
}

// Whether value parts are those of cells of this level.
fn are_parts(area: Area, level: u8, values: &[u8], many: usize) -> bool
    requires { length values.now ≡ 33 * many }
    ensures { result ≡ list_all (is_part_at area level) (parts_of values.now many) }
{
    for i in 0..many {
        if !is_part_at(area, level, piece(values, 33 * i, 33)) {
            return false;
        }
    }
    true
}

/// The value parts of cells of a block.
pub fn values(block: &[u8], visit: Visit) -> &[u8]
    requires { IsVisitIn (length block.now) visit }
    ensures { AreBytes (33 * visit.many) result.now (bytes_in (values_mark (length block.now) visit.first visit.many) block.now) }
{
    let at = 64 + 31 * cell_count(block.len()) + 33 * visit.first;
    piece(block, at, 33 * visit.many)
}

/// Reads a node of a level, and marks the value parts of the cells that a scan visits. The buffer has the node's block
/// then.
///
/// # Errors
///
/// - `Broken`: the node fails a test.
/// - `Tx`: the transaction refuses the read.
pub fn read_node<T: TxBlocks>(
    tx: &mut T,
    range: &KeyRange,
    level: u8,
    block: u32,
    buffer: &mut [u8],
) -> Result<Visit, StoreError>
    requires block { HasBlock IsTreeArea (T.state tx.old) range.now.area block buffer.old }
    ensures run { HasVisited range.now level block (T.state tx.old) (T.state tx.new) buffer.new result }
    ensures visited { IfOk result (IsVisited range.now.area range.now.from.now range.now.to.now level buffer.new) }
    ensures more { OnOk result (HasMadeOne (T.state tx.old) (T.state tx.new)) }
    ensures reads { Across T.state T.device tx.old tx.new OnlyReads result }
{
    let area = range.area;
    let size = area.size as usize;
    let image_block = area.start + block;
    if let Err(e) = look(tx, image_block, keys_mark(area.size), buffer) {
        return Err(StoreError::Tx(e));
    }
    let bytes = piece(buffer, 0, 64 + 31 * cell_count(size));
    if !is_node(size, level, bytes) {
        return Err(StoreError::Broken { block: image_block });
    }
    let keys = Keys::of(size, buffer);
    let visit = cells_between(level, range.from, range.to, &keys);
    mark_values(tx, area.size, visit);
    if !are_parts(area, level, values(buffer, visit), visit.many) {
        return Err(StoreError::Broken { block: image_block });
    }
    Ok(visit)
}
