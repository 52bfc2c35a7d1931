// A node of the tree, as the bytes of its block.
ghost use Rattle.std.specs.Prelude.{◌≡◌, ◌↔◌, ◌<◌, ◌≤◌, IfSome, IsSome, IsTrue, length, true};
ghost use Rattle.store_model.specs.{Cells.{are_key_parts, cell_count, keys_end, keys_mark}, Stores.bytes_in, TreeNodes.{cell_of, child_of, count_of, find_in, is_child, is_node, keys_in, place_of, value_in}};
ghost use Rattle.iso_tree.specs.Sizes.{IsBelow, AreBytes, IsSize, IsWithin};

use crate::keys::{Keys, below, cell_of, count_of, is_node, place_of};
use iso_alloc::{Cells, Region, are_zero, cell_count, piece, word_at};
use std::marker::Model;

/// A node whose head and key parts are well formed. Its keys and values are the block's own bytes.
#[derive(Drop)]
pub struct NodeView<'a> {
    block: &'a [u8],
    blocks: u32,
    ghost least: { 256 ≤ length block.now },
    ghost most: { length block.now ≤ 4096 },
    ghost parts: { are_key_parts (length block.now) (bytes_in (keys_mark (length block.now)) block.now) ≡ true },
    ghost few: { count_of (bytes_in (keys_mark (length block.now)) block.now) ≤ cell_count (length block.now) },
}

impl<'a> Model for NodeView<'a> {
    ghost use Rattle.store_model.specs.TreeNodes.{Node};

    ghost Value = { Node };

    ghost view = { λ a. record { block = a.block.now; blocks = a.blocks } };
}

// Head and key parts of a block.
fn keys_of(block: &[u8]) -> &[u8]
    requires { IsSize (length block.now) }
    ensures { AreBytes (keys_end (length block.now)) result.now (bytes_in (keys_mark (length block.now)) block.now) }
{
    piece(block, 0, 64 + 31 * cell_count(block.len()))
}

/// Whether a value part names a block of a region of `blocks` blocks, but the first.
pub fn is_child(blocks: u32, part: &[u8]) -> bool
    requires { length part.now ≡ 33 }
    ensures { result ≡ is_child blocks part.now }
{
    let child = word_at(part, 1);
    part[0] == 4 && 1 <= child && child < blocks && are_zero(&part[5..])
}

impl<'a> NodeView<'a> {
    /// The node of a region at a level; none exactly where head and key parts are not well formed for that level.
    pub fn of(block: &'a [u8], level: u8, region: Region) -> Option<NodeView<'a>>
        requires { IsSize (length block.now) }
        ensures some { IsSome result ↔ IsTrue (is_node (length block.now) level (bytes_in (keys_mark (length block.now)) block.now)) }
        ensures value { IfSome result (λ v. v ≡ record { block = block.now; blocks = region.size }) }
    {
        if !is_node(block.len(), level, keys_of(block)) {
            return None;
        }
        Some(NodeView {
            block,
            blocks: region.size,
        })
    }

    // Head and key parts.
    fn keys(&self) -> Keys<'a>
        ensures value { result.bytes.now ≡ keys_in self.now }
        ensures most { result.size ≤ 4096 }
    {
        Keys::of(self.block.len(), self.block)
    }

    /// How many cells are used.
    pub fn count(&self) -> u32
        ensures { IsWithin result (count_of (keys_in self.now)) (cell_count (length self.now.block)) }
    {
        count_of(keys_of(self.block)) as u32
    }

    /// The cells.
    pub fn cells(&self) -> Cells<'a>
        ensures { result ≡ self.now.block }
    {
        Cells::of(self.block)
    }

    /// The cell that has the key.
    pub fn cell(&self, key: &[u8]) -> Option<u32>
        ensures value { result ≡ cell_of key.now (keys_in self.now) }
        ensures below { IfSome result (λ cell. cell < count_of (keys_in self.now)) }
    {
        let cell = cell_of(key, &self.keys())?;
        Some(cell as u32)
    }

    /// The cell that has the key.
    ///
    /// # Errors
    ///
    /// No cell has it: the place where its cell would be.
    pub fn find(&self, key: &[u8]) -> Result<u32, u32>
        ensures { result ≡ find_in key.now self.now }
    {
        match self.cell(key) {
            Some(cell) => Ok(cell),
            None => Err(below(key, &self.keys(), 0) as u32),
        }
    }

    /// The last cell whose key is at most this one, the first where there is none.
    pub fn place(&self, key: &[u8]) -> u32
        requires { 0 < count_of (keys_in self.now) }
        ensures { IsBelow result (place_of key.now (keys_in self.now)) (count_of (keys_in self.now)) }
    {
        place_of(key, &self.keys()) as u32
    }

    // The value part of a cell.
    fn value_part(&self, i: u32) -> &'a [u8]
        requires { i < cell_count (length self.now.block) }
        ensures { AreBytes 33 result.now (value_in self.now i) }
    {
        let at = 64 + 31 * cell_count(self.block.len()) + 33 * i as usize;
        piece(self.block, at, 33)
    }

    /// The block that the value part of a cell names.
    pub fn child(&self, i: u32) -> u32
        requires { i < cell_count (length self.now.block) }
        ensures { result ≡ child_of (value_in self.now i) }
    {
        word_at(self.value_part(i), 1)
    }

    /// Whether the value part of a cell names a block of the region.
    pub fn has_child(&self, i: u32) -> bool
        requires { i < cell_count (length self.now.block) }
        ensures { result ≡ is_child self.now.blocks (value_in self.now i) }
    {
        is_child(self.blocks, self.value_part(i))
    }
}
