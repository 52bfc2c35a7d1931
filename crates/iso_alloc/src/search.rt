// Tests and look-ups in the head and the key parts of a block.
ghost use Rattle.std.specs.{Prelude.{◌≡◌, ◌+◌, ◌*◌, ◌<◌, ◌≤◌, ◌==◌, ◌||◌, true, length, drop, IfSome}, List.list_all};
ghost use Rattle.store_model.specs.{Cells.{cell_count, keys_end, are_key_parts, cell_with, is_unused, is_zero, unused_cell}, HashCalls.is_alone};

use crate::parts::{are_zero, cell_count, is_key_part, key_part, text_of};

// Whether a cell and all cells after it are zero throughout.
fn is_blank_from(keys: &[u8], cell: usize) -> bool
    requires { 64 + 31 * cell + 31 ≤ length keys.now }
    ensures { result ≡ list_all is_zero (drop (64 + 31 * cell) keys.now) }
{
    are_zero(&keys[64 + 31 * cell..])
}

/// Whether the key parts of a block of `size` bytes are well formed. At the first cell that is not used, all that are left are
/// compared with zero as a whole.
pub fn are_key_parts(size: usize, keys: &[u8]) -> bool
    requires size { 64 ≤ size }
    requires keys { length keys.now ≡ keys_end size }
    ensures { result ≡ are_key_parts size keys.now }
{
    let mut full = true;
    for cell in 0..cell_count(size) {
        if !is_key_part(keys, cell) {
            return false;
        }
        if full && key_part(keys, cell)[0] == 0 {
            if is_blank_from(keys, cell) {
                return true;
            }
            full = false;
        }
    }
    true
}

/// The first cell that has the key.
pub fn cell_with(size: usize, key: &[u8], keys: &[u8]) -> Option<usize>
    requires size { 64 ≤ size }
    requires keys { length keys.now ≡ keys_end size }
    requires parts { are_key_parts size keys.now ≡ true }
    ensures value { result ≡ cell_with size key.now keys.now }
    ensures below { IfSome result (λ cell. cell < cell_count size) }
{
    for cell in 0..cell_count(size) {
        if text_of(key_part(keys, cell)) == key {
            return Some(cell);
        }
    }
    None
}

/// The first cell that is not used.
pub fn unused_cell(size: usize, keys: &[u8]) -> Option<usize>
    requires size { 64 ≤ size }
    requires keys { length keys.now ≡ keys_end size }
    ensures value { result ≡ unused_cell size keys.now }
    ensures below { IfSome result (λ cell. cell < cell_count size) }
{
    for cell in 0..cell_count(size) {
        if key_part(keys, cell)[0] == 0 {
            return Some(cell);
        }
    }
    None
}

// Whether the cell is this one or not used.
fn is_idle(keys: &[u8], other: usize, cell: usize) -> bool
    requires { 64 + 31 * other + 31 ≤ length keys.now }
    ensures { result ≡ ((other == cell) || is_unused keys.now other) }
{
    other == cell || key_part(keys, other)[0] == 0
}

/// Whether no cell but this one is used.
pub fn is_alone(size: usize, keys: &[u8], cell: usize) -> bool
    requires size { 64 ≤ size }
    requires keys { length keys.now ≡ keys_end size }
    ensures { result ≡ is_alone size keys.now cell }
{
    for other in 0..cell_count(size) {
        if !is_idle(keys, other, cell) {
            return false;
        }
    }
    true
}
