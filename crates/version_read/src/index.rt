// The parts of a record, put into an index.
ghost use Rattle.std.specs.{Prelude.{◌≡◌, ◌^◌, ◌≤◌, ◌<◌, ℕ, IsOk, OnOk, length, map, slice_index_or}, List.AllByRecursion};
ghost use Rattle.mv_index.specs.Versions.{count_of, room_of, versions_in};
ghost use Rattle.version_read.specs.Parts.{BlocksRise, HasRoom, HasTaken, MayTake, no_part, part_of};

use crate::PartSpan;
use iso_format::RecordView;
use iso_model::Memory;
use mv_index::{MvIndex, Version};

/// Takes the parts of a record into an index, and memory for each: the record has this number, and its gate lies at
/// this place of the image.
///
/// # Errors
///
/// Want of memory. The index has the versions of the first parts.
#[inline(always)]
pub fn take_parts(
    index: &mut MvIndex,
    number: u64,
    gate: u64,
    view: &RecordView<'_>,
) -> Result<(), Memory>
    requires { MayTake number gate (map part_of view.now.parts) index.old }
    ensures { OnOk result (HasTaken number gate (map part_of view.now.parts) index.old index.new) }
{
    let mut at = gate + 20;
    for part in view.parts() {
        let place = at + 8;
        let len = part.bytes.len() as u16;
        index.reserve(part.block, 1)?;
        index.add(
            part.block,
            Version {
                number,
                place,
                off: part.off,
                len,
            },
        );
        at = place + u64::from(len);
    }
    Ok(())
}

/// Makes room in an index for the versions of a record's parts, so that `add_parts` takes no memory. Where the room is
/// there it takes none either.
///
/// # Errors
///
/// Want of memory. The index has its versions, and no less room than before.
pub fn reserve_parts(index: &mut MvIndex, parts: &[PartSpan]) -> Result<(), Memory>
    requires blocks { AllByRecursion (λ part. part.block < length index.old) parts.now }
    requires order { BlocksRise parts.now }
    requires few { length parts.now < 2 ^ 32 }
    ensures blocks { length index.new ≡ length index.old }
    ensures same { (b : ℕ) → versions_in index.new b ≡ versions_in index.old b }
    ensures count { count_of index.new ≡ count_of index.old }
    ensures room { OnOk result (HasRoom parts.now index.new) }
    ensures no_less { (b : ℕ) → room_of index.old b ≤ room_of index.new b }
    ensures succeeds { HasRoom parts.now index.old → IsOk result }
{
    let mut first = 0;
    while first < parts.len() {
        let block = parts[first].block;
        let stop = block_end(parts, first);
        index.reserve(block, (stop - first) as u32)?;
        first = stop;
    }
    Ok(())
}

/// Adds the versions of a record's parts: the record has this number, and its gate lies at this place of the image. There
/// is room for them. It takes no memory.
pub fn add_parts(index: &mut MvIndex, number: u64, gate: u64, parts: &[PartSpan])
    requires may { MayTake number gate parts.now index.old }
    requires room { HasRoom parts.now index.old }
    ensures { HasTaken number gate parts.now index.old index.new }
{
    let mut at = gate + 20;
    for part in parts {
        index.add(
            part.block,
            Version {
                number,
                place: at + 8,
                off: part.off,
                len: part.len,
            },
        );
        at += 8 + u64::from(part.len);
    }
}

// Where the parts end that are of the block of the one at this place.
fn block_end(parts: &[PartSpan], first: usize) -> usize
    requires inside { first < length parts.now }
    requires order { BlocksRise parts.now }
    ensures more { first < result }
    ensures within { result ≤ length parts.now }
    ensures same { (i : ℕ) → first ≤ i → i < result → (slice_index_or parts.now i no_part).block ≡ (slice_index_or parts.now first no_part).block }
    ensures later { (i : ℕ) → result ≤ i → i < length parts.now → (slice_index_or parts.now first no_part).block < (slice_index_or parts.now i no_part).block }
{
    let block = parts[first].block;
    let mut stop = first + 1;
    while stop < parts.len() && parts[stop].block == block {
        stop += 1;
    }
    stop
}
