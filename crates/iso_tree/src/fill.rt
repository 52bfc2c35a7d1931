// The bytes of nodes that get a new cell.
ghost use Rattle.std.specs.Prelude.{◌≡◌, ◌+◌, ◌-◌, ◌≤◌, ℕ, List, length};
ghost use Rattle.store_model.specs.{Cells.cell_count, TreeNodes.{child_part, count_of, node_bytes, Cell, FitCells}, TreeCalls.root_cells, Trees.emptied};
ghost use Rattle.iso_tree.specs.{Entries.{key_at_row, row, spelled}, Rows.upto_from, Sizes.{IsNodeSize, IsWithin}};

use crate::build::{add_cell, add_cells, empty_node};
use crate::entry::Entry;
use crate::growth::Growth;
use crate::keys::{Keys, count_of, is_before, key_of};
use iso_alloc::{lay, spell, value_part};

/// How many cells in a row from one on have a key that is not above this one.
pub fn upto(key: &[u8], keys: &Keys, first: usize) -> usize
    requires { first ≤ count_of keys.now.bytes.now }
    ensures { IsWithin result (upto_from key.now keys.now.bytes.now first (count_of keys.now.bytes.now - first)) (count_of keys.now.bytes.now - first) }
{
    let count = count_of(keys.bytes);
    for cell in first..count {
        if is_before(key, key_of(keys, cell)) {
            return cell - first;
        }
    }
    count - first
}

/// The key of a cell, once the node has the new one.
pub fn row_key<'a>(growth: &Growth<'a>, cell: usize) -> &'a [u8]
    requires { cell ≤ cell_count growth.now.area.size }
    ensures { result.now ≡ key_at_row growth.now cell }
{
    let keys = Keys::of(growth.area.size as usize, growth.node);
    if cell < growth.place {
        return key_of(&keys, cell);
    }
    if cell == growth.place {
        return growth.entry.key;
    }
    key_of(&keys, cell - 1)
}

/// A node of `count` cells from one on, once the node has the new one: the cells before its place, the new one, and those after it.
pub fn fill_row(into: &mut [u8], level: u8, growth: &Growth, from: usize, count: usize)
    requires into { length into.old ≡ growth.now.area.size }
    requires inside { from + count ≤ cell_count growth.now.area.size + 1 }
    requires count { count ≤ cell_count growth.now.area.size }
    ensures { into.new ≡ node_bytes growth.now.area.size level (row growth.now from count) }
{
    empty_node(into, level);
    if growth.place < from {
        add_cells(into, 0, growth.node, from - 1, count);
        return;
    }
    if from + count <= growth.place {
        add_cells(into, 0, growth.node, from, count);
        return;
    }
    let before = growth.place - from;
    let part = value_part(growth.entry.value);
    add_cells(into, 0, growth.node, from, before);
    add_cell(into, before, growth.entry.key, &part);
    add_cells(
        into,
        before + 1,
        growth.node,
        growth.place,
        count - (before + 1),
    );
}

/// Makes the first key of an inner node empty.
pub fn empty_first(into: &mut [u8], level: u8)
    requires least { 256 ≤ length into.old }
    ensures { (size : ℕ) → (cs : List Cell) → into.old ≡ node_bytes size level cs → 1 ≤ length cs → FitCells cs → into.new ≡ node_bytes size level (emptied level cs) }
{
    if level == 0 {
        return;
    }
    lay(into, 64, &[0u8; 31]);
}

// The value part that names a block.
fn child_part(block: u32) -> [u8; 33]
    ensures { result ≡ child_part block }
{
    let mut part = [0u8; 33];
    spell(&mut part, &block.to_be_bytes());
    part
}

/// A new root: of the first leaf, or over the old root and the new block.
pub fn fill_root(into: &mut [u8], level: u8, below: u32, entry: &Entry)
    requires { IsNodeSize (length into.old) }
    ensures { into.new ≡ node_bytes (length into.old) level (root_cells level below (spelled entry.now)) }
{
    let part = value_part(entry.value);
    empty_node(into, level);
    if level == 0 {
        add_cell(into, 0, entry.key, &part);
        return;
    }
    add_cell(into, 0, &[], &child_part(below));
    add_cell(into, 1, entry.key, &part);
}
