// The write of a region's first block, where a put takes blocks.
ghost use Rattle.std.specs.{Prelude.{◌≡◌, ◌<◌, ◌≤◌, ◌++◌, length}, Int.{w32, to_be_bytes}};
ghost use Rattle.store_model.specs.{Cells.{block_with, laid_at}, Stores.bytes_in};
ghost use Rattle.iso_tree.specs.{FirstBlock.{bits_between, ends, AreBits, AreNew, HasStoredFirst}, Walks.HasBuffers};

use iso_alloc::{lay, piece};
use iso_model::Span;
use store_model::{Area, TxError};
use tx_blocks::{TxBlocks, store};

// Zeros, but for the bytes of the map from the one with a bit to that with another.
fn fill_map(into: &mut [u8], map: &[u8], low: u32, high: u32)
    requires map { length map.now ≡ length into.old }
    requires bits { AreBits (length map.now) low high }
    ensures { let s = bits_between low high in into.new ≡ block_with (length map.now) s.off (bytes_in s map.now) }
{
    let at = 64 + (low / 8) as usize;
    let len = (high / 8 + 1 - low / 8) as usize;
    into.fill(0);
    lay(into, at, piece(map, at, len));
}

// Puts root and level in place.
fn lay_head(into: &mut [u8], root: u32, level: u8)
    requires { 64 ≤ length into.old }
    ensures { into.new ≡ laid_at 0 (to_be_bytes w32 root ++ to_be_bytes w32 level) into.old }
{
    lay(into, 0, &root.to_be_bytes());
    lay(into, 4, &(level as u32).to_be_bytes());
}

// The first and the last of some blocks.
fn ends(news: &[u32]) -> (u32, u32)
    requires { 0 < length news.now }
    ensures { result ≡ ends news.now }
{
    (news[0], news[news.len() - 1])
}

// The mark over the bytes of the map from the one with a bit to that with another.
fn changed_mark(low: u32, high: u32) -> Span
    requires { AreBits 4096 low high }
    ensures { result ≡ bits_between low high }
{
    Span {
        off: (64 + low / 8) as u16,
        len: (high / 8 + 1 - low / 8) as u16,
    }
}

/// Writes the first block, once the blocks of `news` are taken in `map`: the bytes of the map from the first to the
/// last of them, and root and level where there is a new root.
///
/// # Errors
///
/// The transaction refuses the write, where an access fits for want of memory alone, and is as before.
pub fn store_first<T: TxBlocks>(
    tx: &mut T,
    area: Area,
    map: &[u8],
    news: &[u32],
    root: Option<(u32, u8)>,
    into: &mut [u8],
) -> Result<(), TxError>
    requires buffers { HasBuffers (T.state tx.old) area map.now into.old }
    requires news { AreNew area news.now }
    ensures { HasStoredFirst area map.now news.now root (T.state tx.old) (T.state tx.new) (T.device tx.old) (T.device tx.new) result }
{
    let (low, high) = ends(news);
    fill_map(into, map, low, high);
    let changed = changed_mark(low, high);
    let Some((block, level)) = root else {
        return store(tx, area.start, &[changed], into);
    };
    lay_head(into, block, level);
    store(tx, area.start, &[changed, Span { off: 0, len: 8 }], into)
}
