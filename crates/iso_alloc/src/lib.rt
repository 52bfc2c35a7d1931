//! What the stores share: blocks of cells, the free map of a region, and the buffers and arguments of a call. Each call is a function
//! of the definitions on the bytes that it is given. No access is made here.
#![tactic(auto)]

mod buffers;
mod cells;
mod free_map;
mod parts;
mod search;

pub use buffers::{buffer, is_key, is_value, spelled};
pub use cells::Cells;
pub use free_map::{free_blocks, give_back, map_span, region_of, take_lowest};
pub use parts::{
    are_zero, cell_count, clear, is_key_part, is_part, key_part, lay, lay_alone, piece, spell,
    text_of, value_part, word_at,
};
pub use search::{are_key_parts, cell_with, is_alone, unused_cell};
pub use store_model::{Region, StoreError};
