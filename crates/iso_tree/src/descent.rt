// The way from the root to the leaf of a key.
ghost use Rattle.std.specs.Prelude.{◌≡◌, ◌+◌, ◌<◌, [], IfOk, OnOk, length};
ghost use Rattle.store_model.specs.{Cells.{keys_mark, value_mark}, Stores.bytes_in, TreeNodes.is_head, TreeRegion.IsTreeArea};
ghost use Rattle.tx_blocks.specs.Runs.{HasBlock, AreBytesOf};
ghost use Rattle.iso_tree.specs.{Sizes.{HasCell, AreBytes, IsSize}, Walks.{child_program, head_program, Across, ArePassed, HasBuffer, HasDescended, HasReadLeaf, IsChild, IsHead, IsLeaf, IsStep, OnlyReads}};

use crate::node::NodeView;
use crate::path::Path;
use crate::root::Root;
use iso_alloc::{cell_count, piece, region_of, word_at};
use iso_model::Span;
use store_model::{Area, StoreError};
use tx_blocks::{TxBlocks, look, mark};

/// The mark over head and key parts.
pub fn keys_mark(size: u32) -> Span
    requires { IsSize size }
    ensures { result ≡ keys_mark size }
{
    Span {
        off: 0,
        len: (64 + 31 * cell_count(size as usize)) as u16,
    }
}

/// The mark over the value part of a cell.
pub fn value_mark(size: u32, cell: u32) -> Span
    requires { HasCell size cell }
    ensures { result ≡ value_mark size cell }
{
    Span {
        off: (64 + 31 * cell_count(size as usize) + 33 * cell as usize) as u16,
        len: 33,
    }
}

// Whether root and level are well formed.
fn is_head(area: Area, head: &[u8]) -> bool
    requires { length head.now ≡ 8 }
    ensures { result ≡ is_head area head.now }
{
    let root = word_at(head, 0);
    let level = word_at(head, 4);
    root < area.blocks && level <= 31 && (root != 0 || level == 0)
}

/// The value part of a cell.
pub fn value_part(size: u32, block: &[u8], cell: u32) -> &[u8]
    requires long { length block.now ≡ size }
    requires cell { HasCell size cell }
    ensures { AreBytes 33 result.now (bytes_in (value_mark size cell) block.now) }
{
    let span = value_mark(size, cell);
    piece(block, span.off as usize, 33)
}

/// Root and level of the region's tree; the root is 0 where there is none.
///
/// # Errors
///
/// - `Broken`: the head fails a test.
/// - `Tx`: the transaction refuses the read.
pub fn read_head<T: TxBlocks>(
    tx: &mut T,
    area: Area,
    buffer: &mut [u8],
) -> Result<(u32, u8), StoreError>
    requires { HasBuffer (T.state tx.old) area buffer.old }
    ensures { Across T.state T.device tx.old tx.new (IsStep (IsHead area) (head_program area)) result }
{
    let head_mark = Span { off: 0, len: 8 };
    if let Err(e) = look(tx, area.start, head_mark, buffer) {
        return Err(StoreError::Tx(e));
    }
    let head = piece(buffer, 0, 8);
    if !is_head(area, head) {
        return Err(StoreError::Broken { block: area.start });
    }
    Ok((word_at(head, 0), word_at(head, 4) as u8))
}

// The child of an inner node that a key is below, and how many cells the node has.
fn enter<T: TxBlocks>(
    tx: &mut T,
    area: Area,
    key: &[u8],
    level: u8,
    block: u32,
    buffer: &mut [u8],
) -> Result<(u32, u32), StoreError>
    requires block { HasBlock IsTreeArea (T.state tx.old) area block buffer.old }
    requires level { 0 < level }
    ensures { Across T.state T.device tx.old tx.new (IsStep (IsChild area) (child_program area key.now level block)) result }
{
    let image_block = area.start + block;
    if let Err(e) = look(tx, image_block, keys_mark(area.size), buffer) {
        return Err(StoreError::Tx(e));
    }
    let Some(node) = NodeView::of(buffer, level, region_of(area)) else {
        return Err(StoreError::Broken { block: image_block });
    };
    let place = node.place(key);
    mark(tx, value_mark(area.size, place));
    if !node.has_child(place) {
        return Err(StoreError::Broken { block: image_block });
    }
    Ok((node.child(place), node.count()))
}

/// The leaf of a key: its block in the region, the cell that has the key, and how many cells it has.
#[derive(Clone, Copy)]
pub struct Leaf {
    pub block: u32,
    pub cell: Option<u32>,
    pub count: u32,
}

// Reads the leaf of a key, and its value part where that is wanted.
fn read_leaf<T: TxBlocks>(
    tx: &mut T,
    area: Area,
    key: &[u8],
    with_value: bool,
    block: u32,
    buffer: &mut [u8],
) -> Result<Leaf, StoreError>
    requires block { HasBlock IsTreeArea (T.state tx.old) area block buffer.old }
    ensures run { HasReadLeaf area key.now with_value block (T.state tx.old) (T.state tx.new) buffer.new result }
    ensures leaf { IfOk result (IsLeaf area key.now buffer.new) }
    ensures bytes { OnOk result (AreBytesOf (T.state tx.new) (area.start + block) buffer.new) }
    ensures block { IfOk result (λ leaf. leaf.block ≡ block) }
    ensures reads { Across T.state T.device tx.old tx.new OnlyReads result }
{
    let image_block = area.start + block;
    if let Err(e) = look(tx, image_block, keys_mark(area.size), buffer) {
        return Err(StoreError::Tx(e));
    }
    let Some(node) = NodeView::of(buffer, 0, region_of(area)) else {
        return Err(StoreError::Broken { block: image_block });
    };
    let leaf = Leaf {
        block,
        cell: node.cell(key),
        count: node.count(),
    };
    if !with_value {
        return Ok(leaf);
    }
    let Some(cell) = leaf.cell else {
        return Ok(leaf);
    };
    mark(tx, value_mark(area.size, cell));
    Ok(leaf)
}

/// The leaf of a key below a root, with the inner nodes on the way. The buffer has the leaf's block then.
///
/// # Errors
///
/// - `Broken`: a node on the way fails a test.
/// - `Tx`: the transaction refuses a read.
pub fn descend<T: TxBlocks>(
    tx: &mut T,
    root: Root,
    key: &[u8],
    with_value: bool,
    path: &mut Path,
    buffer: &mut [u8],
) -> Result<Leaf, StoreError>
    requires buffer { HasBuffer (T.state tx.old) root.area buffer.old }
    requires path { path.old ≡ [] }
    ensures run { HasDescended root.area key.now with_value root.block root.level (T.state tx.old) (T.state tx.new) path.new buffer.new result }
    ensures leaf { IfOk result (IsLeaf root.area key.now buffer.new) }
    ensures path { OnOk result (ArePassed root.area root.level path.new) }
    ensures bytes { IfOk result (λ leaf. AreBytesOf (T.state tx.new) (root.area.start + leaf.block) buffer.new) }
    ensures reads { Across T.state T.device tx.old tx.new OnlyReads result }
{
    let area = root.area;
    let mut block = root.block;
    for passed in 0..root.level {
        let (child, count) = match enter(tx, area, key, root.level - passed, block, buffer) {
            Ok(next) => next,
            Err(e) => return Err(e),
        };
        path.push(block, count);
        block = child;
    }
    read_leaf(tx, area, key, with_value, block, buffer)
}
