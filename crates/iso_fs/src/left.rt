// The map without the blocks of a file, and the write of the bytes that change.
ghost use Rattle.std.specs.{Prelude.{◌≡◌, ◌+◌, ◌-◌, ◌*◌, ◌≤◌, length, map}, List.range_with_len};
ghost use Rattle.store_model.specs.{FreeMap.map_mark, Stores.bytes_in, FileCalls.{high_place, low_place, without_bits}, FileNodes.entry_at};
ghost use Rattle.tx_blocks.specs.Runs.{HasStored};
ghost use Rattle.iso_fs.specs.{Ends.{Across, HasBuffers}, Finds.{ArePlaces, given_back}, Grows.entries};

use crate::file::{FileBlock, entry_at};
use iso_alloc::{give_back, lay_alone, piece, region_of};
use iso_model::Span;
use store_model::TxError;
use tx_blocks::{TxBlocks, store};

// Where the map has the first and the last bit of some blocks: of one, and of the data blocks from one on.
fn places(file: &[u8], block: u32, i: usize, count: usize) -> (usize, usize)
    requires i { i ≤ count }
    requires fits { 64 + 4 * count ≤ length file.now }
    ensures { result ≡ (low_place block (map (entry_at file.now) (range_with_len i (count - i))), high_place block (map (entry_at file.now) (range_with_len i (count - i)))) }
{
    let place = 64 + (block / 8) as usize;
    if i == count {
        return (place, place);
    }
    let (low, high) = places(file, entry_at(file, i), i + 1, count);
    (
        if place < low { place } else { low },
        if high < place { place } else { high },
    )
}

// The same for all blocks of a file.
fn ends(file: &FileBlock) -> (usize, usize)
    ensures places { result ≡ (low_place file.now.number (entries file.now), high_place file.now.number (entries file.now)) }
    ensures within { ArePlaces file.now.area result.0 result.1 }
{
    places(file.bytes, file.number, 0, file.count)
}

// Gives the data blocks of a file back.
fn give_data(file: &FileBlock, map: &mut [u8])
    requires { length map.old ≡ file.now.area.size }
    ensures { map.new ≡ without_bits map.old (entries file.now) }
{
    for i in 0..file.count {
        give_back(map, region_of(file.area), entry_at(file.bytes, i));
    }
}

/// Gives the blocks of a file back, and writes the bytes of the map that change.
///
/// # Errors
///
/// The transaction refuses the write, and is as before.
pub fn store_left<T: TxBlocks>(
    tx: &mut T,
    file: &FileBlock,
    map: &mut [u8],
    into: &mut [u8],
) -> Result<(), TxError>
    requires { HasBuffers (T.state tx.old) file.now.area map.old into.old }
    ensures { Across T.state T.device tx.old tx.new (HasStored (given_back file.now.area file.now.number (entries file.now) (bytes_in (map_mark file.now.area.blocks) map.old))) result }
{
    let (low, high) = ends(file);
    give_back(map, region_of(file.area), file.number);
    give_data(file, map);
    let len = high + 1 - low;
    lay_alone(into, low, piece(map, low, len));
    let span = Span {
        off: low as u16,
        len: len as u16,
    };
    store(tx, file.area.start, &[span], into)
}
