// The file block of a file that has grown.
ghost use Rattle.std.specs.{Prelude.{◌≡◌, ◌+◌, ◌*◌, ◌≤◌, ◌++◌, ℕ, List, length, map, [], ◌∷◌}, List.range_with_len};
ghost use Rattle.store_model.specs.FileNodes.{entry_at, file_block};
ghost use Rattle.iso_fs.specs.Grows.{entries, AddsEntries};

use crate::file::{FileBlock, entry_at};
use iso_alloc::{clear, lay};

/// The file block of a file with `bytes` bytes, with no data blocks yet.
pub fn start_file(into: &mut [u8], bytes: u32)
    requires { 64 ≤ length into.old }
    ensures { into.new ≡ file_block (length into.old) bytes [] }
{
    clear(into);
    into[0] = 3;
    lay(into, 4, &bytes.to_be_bytes());
}

// Adds the number of a data block after `i` others.
fn add_entry(into: &mut [u8], i: usize, number: u32)
    requires { 64 + 4 * i + 4 ≤ length into.old }
    ensures { AddsEntries i into.old into.new (number ∷ []) }
{
    lay(into, 64 + 4 * i, &number.to_be_bytes());
}

// Adds the numbers that another file block has.
fn add_old(into: &mut [u8], file: &[u8], count: usize)
    requires into { 64 + 4 * count ≤ length into.old }
    requires file { 64 + 4 * count ≤ length file.now }
    ensures { AddsEntries 0 into.old into.new (map (entry_at file.now) (range_with_len 0 count)) }
{
    for i in 0..count {
        add_entry(into, i, entry_at(file, i));
    }
}

// Adds numbers after `count` others.
fn add_news(into: &mut [u8], count: usize, news: &[u32])
    requires { 64 + 4 * (count + length news.now) ≤ length into.old }
    ensures { AddsEntries count into.old into.new news.now }
{
    for i in 0..news.len() {
        add_entry(into, count + i, news[i]);
    }
}

/// The file block of a file with `bytes` bytes, which has the data blocks of another one and new ones.
pub fn lay_sized(file: &FileBlock, news: &[u32], bytes: u32, into: &mut [u8])
    requires room { 64 + 4 * (file.now.count + length news.now) ≤ file.now.area.size }
    requires into { length into.old ≡ file.now.area.size }
    ensures { into.new ≡ file_block file.now.area.size bytes (entries file.now ++ news.now) }
{
    start_file(into, bytes);
    add_old(into, file.bytes, file.count);
    add_news(into, file.count, news);
}
