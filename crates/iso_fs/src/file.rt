// The block of a file: its bytes, and the test of them.
ghost use Rattle.std.specs.Prelude.{◌≡◌, ◌+◌, ◌*◌, ◌<◌, ◌≤◌, ◌==◌, IfNone, IfSome, false, length, true, nat_le, slice_index};
ghost use Rattle.store_model.specs.{FileNodes.{are_entries, bytes_of, data_count, entry_at, has_zeros, is_file, is_handed, is_number, most_bytes, number_of}, TreeRegion.IsTreeArea};
ghost use Rattle.iso_fs.specs.Ends.{IsBlockOf, IsSize};

use iso_alloc::{are_zero, piece, word_at};
use store_model::Area;

/// The block of a file that was read, and is well formed: the area of the files, its number there, its bytes, and how many data
/// blocks they name.
#[derive(Drop)]
pub struct FileBlock<'a> {
    pub area: Area,
    pub number: u32,
    pub bytes: &'a [u8],
    pub count: usize,
    ghost kind: { IsTreeArea area },
    ghost inside: { number < area.blocks },
    ghost good: { is_file area bytes.now ≡ true },
    ghost long: { length bytes.now ≡ area.size },
    ghost counted: { count ≡ data_count area.size bytes.now },
    ghost fits: { 64 + 4 * count ≤ area.size },
}

/// How many bytes the file has.
pub fn bytes_of(file: &[u8]) -> u32
    requires { 8 ≤ length file.now }
    ensures { result ≡ bytes_of file.now }
{
    word_at(file, 4)
}

/// The number of a data block.
pub fn entry_at(file: &[u8], i: usize) -> u32
    requires { 64 + 4 * i + 4 ≤ length file.now }
    ensures { result ≡ entry_at file.now i }
{
    word_at(file, 64 + 4 * i)
}

// Whether a number is that of a block that a region of `blocks` blocks hands out.
fn is_handed(blocks: u32, number: u32) -> bool
    ensures { result ≡ is_handed blocks number }
{
    1 <= number && number < blocks
}

// Whether the numbers are those of blocks of the region.
fn are_entries(blocks: u32, file: &[u8], count: usize) -> bool
    requires { 64 + 4 * count ≤ length file.now }
    ensures { result ≡ are_entries blocks file.now count }
{
    for i in 0..count {
        if !is_handed(blocks, entry_at(file, i)) {
            return false;
        }
    }
    true
}

// Whether the zeros are zero.
fn has_zeros(file: &[u8], count: usize) -> bool
    requires { 64 + 4 * count ≤ length file.now }
    ensures { result ≡ has_zeros file.now count }
{
    are_zero(piece(file, 1, 3)) && are_zero(piece(file, 8, 56)) && are_zero(&file[64 + 4 * count..])
}

/// Whether a file may have `bytes` bytes.
pub fn is_fit(size: u32, bytes: u32) -> bool
    requires { IsSize size }
    ensures { result ≡ nat_le bytes (most_bytes size) }
{
    bytes <= (size - 64) / 4 * size
}

/// How many data blocks the file has.
pub fn data_count(area: Area, file: &[u8]) -> usize
    requires block { IsBlockOf area file.now }
    requires small { bytes_of file.now ≤ most_bytes area.size }
    ensures count { result ≡ data_count area.size file.now }
    ensures fits { 64 + 4 * result ≤ area.size }
{
    let size = area.size as usize;
    (bytes_of(file) as usize + (size - 1)) / size
}

/// Whether a block is a file block that is well formed.
pub fn is_file(area: Area, file: &[u8]) -> bool
    requires { IsBlockOf area file.now }
    ensures { result ≡ is_file area file.now }
{
    if file[0] != 3 {
        return false;
    }
    if !is_fit(area.size, bytes_of(file)) {
        return false;
    }
    let count = data_count(area, file);
    if !are_entries(area.blocks, file, count) {
        return false;
    }
    has_zeros(file, count)
}

/// The number that a value of the tree spells; none where it is not that of a block of the region.
pub fn number_of(area: Area, value: &[u8]) -> Option<u32>
    ensures some { IfSome result (λ number. (number ≡ number_of value.now) × (is_number area value.now ≡ true)) }
    ensures none { IfNone result (is_number area value.now ≡ false) }
    ensures below { IfSome result (λ number. number < area.blocks) }
{
    if value.len() != 4 {
        return None;
    }
    let number = word_at(value, 0);
    if !is_handed(area.blocks, number) {
        return None;
    }
    Some(number)
}
