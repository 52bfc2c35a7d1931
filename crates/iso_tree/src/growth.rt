// A node that gets a cell.
ghost use Rattle.std.specs.Prelude.{◌≡◌, ◌≤◌, length, take, true};
ghost use Rattle.store_model.specs.{Cells.{are_key_parts, cell_count, keys_end}, TreeNodes.count_of, TreeRegion.IsTreeArea};

use crate::entry::Entry;
use store_model::Area;

/// A node that gets a cell: the node's bytes, the place of the cell, and what the cell has.
#[derive(Drop)]
pub struct Growth<'a> {
    pub area: Area,
    pub node: &'a [u8],
    pub place: usize,
    pub entry: &'a Entry<'a>,
    ghost kind: { IsTreeArea area },
    ghost long: { length node.now ≡ area.size },
    ghost parts: { are_key_parts area.size (take (keys_end area.size) node.now) ≡ true },
    ghost few: { count_of (take (keys_end area.size) node.now) ≤ cell_count area.size },
    ghost inside: { place ≤ cell_count area.size },
}
