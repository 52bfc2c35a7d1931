// The bytes of a node, made of its cells.
ghost use Rattle.std.specs.{Prelude.{◌≡◌, ◌+◌, ◌≤◌, List, length, [], ◌∷◌, take, true, not, cond}, Str.bytes_eq};
ghost use Rattle.store_model.specs.{Cells.{cell_count, keys_end}, TreeNodes.{is_node, node_bytes, used_cells, Cell}, TreeCalls.without_key};
ghost use Rattle.iso_tree.specs.{Rows.cells_from, Sizes.{AddsCells, ArePartsOf, FitCell, HasNodeParts, HavePartsOf, HasSpace, IsNodeSize, IsWithin}};

use crate::keys::{Keys, count_of, key_of};
use iso_alloc::{cell_count, clear, lay, piece, spell};

/// A node of a level without cells.
pub fn empty_node(into: &mut [u8], level: u8)
    requires { IsNodeSize (length into.old) }
    ensures { into.new ≡ node_bytes (length into.old) level [] }
{
    clear(into);
    into[0] = 1;
    into[1] = level;
}

// Adds `many` cells after `count` others, by their key parts and their value parts.
fn add_parts(into: &mut [u8], count: usize, many: usize, keys: &[u8], values: &[u8])
    requires space { HasSpace (length into.old) count many }
    requires parts { ArePartsOf many keys.now values.now }
    ensures added { (ds : List Cell) → HavePartsOf many keys.now values.now ds → AddsCells count into.old into.new ds }
{
    let end = 64 + 31 * cell_count(into.len());
    lay(into, 64 + 31 * count, keys);
    lay(into, end + 33 * count, values);
    into[2] = ((count + many) / 256) as u8;
    into[3] = ((count + many) % 256) as u8;
}

/// Adds a cell after `count` others.
pub fn add_cell(into: &mut [u8], count: usize, key: &[u8], part: &[u8])
    requires space { HasSpace (length into.old) count 1 }
    requires cell { FitCell key.now part.now }
    ensures added { AddsCells count into.old into.new ((key.now, part.now) ∷ []) }
{
    let mut key_part = [0u8; 31];
    spell(&mut key_part, key);
    add_parts(into, count, 1, &key_part, part);
}

/// Adds `many` cells of a node, from cell `first` on, to the `count` that are there.
pub fn add_cells(into: &mut [u8], count: usize, node: &[u8], first: usize, many: usize)
    requires node { HasNodeParts node.now }
    requires into { length into.old ≡ length node.now }
    requires inside { first + many ≤ cell_count (length node.now) }
    requires room { count + many ≤ cell_count (length node.now) }
    ensures added { AddsCells count into.old into.new (cells_from (length node.now) node.now first many) }
{
    let end = 64 + 31 * cell_count(node.len());
    let keys = piece(node, 64 + 31 * first, 31 * many);
    let values = piece(node, end + 33 * first, 33 * many);
    add_parts(into, count, many, keys, values);
}

// Adds a cell, unless it is that of a key; says how many cells there are then.
fn add_other(into: &mut [u8], count: usize, key: &[u8], other: &[u8], part: &[u8]) -> usize
    requires space { HasSpace (length into.old) count 1 }
    requires cell { FitCell other.now part.now }
    ensures count { IsWithin result (count + cond (not (bytes_eq other.now key.now)) 1 0) (count + 1) }
    ensures added { AddsCells count into.old into.new (cond (not (bytes_eq other.now key.now)) ((other.now, part.now) ∷ []) []) }
{
    if other == key {
        return count;
    }
    add_cell(into, count, other, part);
    count + 1
}

/// The node of a leaf without the cells of a key.
pub fn copy_without(key: &[u8], old: &[u8], into: &mut [u8])
    requires size { IsNodeSize (length old.now) }
    requires into { length into.old ≡ length old.now }
    requires node { is_node (length old.now) 0 (take (keys_end (length old.now)) old.now) ≡ true }
    ensures { into.new ≡ node_bytes (length old.now) 0 (without_key key.now (used_cells (length old.now) old.now)) }
{
    let size = old.len();
    let end = 64 + 31 * cell_count(size);
    let keys = Keys::of(size, old);
    empty_node(into, 0);
    let mut kept = 0;
    for cell in 0..count_of(keys.bytes) {
        let part = piece(old, end + 33 * cell, 33);
        kept = add_other(into, kept, key, key_of(&keys, cell), part);
    }
}
