// The cells of a block.
ghost use Rattle.std.specs.Prelude.{◌≡◌, ◌+◌, ◌*◌, ◌<◌, ◌≤◌, length, slice_index};
ghost use Rattle.store_model.specs.{Cells.{cell_count, key_at, key_mark, text_of, value_mark}, Stores.bytes_in};

use crate::parts::{cell_count, key_part, piece, text_of};
use std::marker::Model;

/// The keys and values of a block of cells, which are the block's own bytes.
#[derive(Drop)]
pub struct Cells<'a> {
    block: &'a [u8],
    ghost least: { 64 ≤ length block.now },
    ghost most: { length block.now ≤ 4096 },
}

impl<'a> Model for Cells<'a> {
    ghost use Rattle.std.specs.Prelude.{ℕ, List};

    ghost Value = { List ℕ };

    ghost view = { λ a. a.block.now };
}

impl<'a> Cells<'a> {
    /// The cells of a block.
    pub fn of(block: &'a [u8]) -> Cells<'a>
        requires least { 256 ≤ length block.now }
        requires most { length block.now ≤ 4096 }
        ensures { result ≡ block.now }
    {
        Cells { block }
    }

    /// How many cells there are.
    pub fn count(&self) -> u32
        ensures { result ≡ cell_count (length self.now) }
    {
        cell_count(self.block.len()) as u32
    }

    /// The key of a cell.
    pub fn key(&self, i: u32) -> &'a [u8]
        requires cell { i < cell_count (length self.now) }
        requires short { slice_index (bytes_in (key_mark i) self.now) 0 ≤ 28 }
        ensures { result.now ≡ key_at self.now i }
    {
        text_of(key_part(self.block, i as usize))
    }

    /// The value of a cell.
    pub fn value(&self, i: u32) -> &'a [u8]
        requires cell { i < cell_count (length self.now) }
        requires short { slice_index (bytes_in (value_mark (length self.now) i) self.now) 0 ≤ 32 }
        ensures { result.now ≡ text_of (bytes_in (value_mark (length self.now) i) self.now) }
    {
        let at = 64 + 31 * cell_count(self.block.len()) + 33 * i as usize;
        text_of(piece(self.block, at, 33))
    }
}
