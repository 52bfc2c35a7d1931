// The free map of a region.
ghost use Rattle.std.specs.Prelude.{◌≡◌, ◌+◌, ◌-◌, ◌<◌, ◌≤◌, ◌==◌, ◌||◌, ◌&&◌, not, ℕ, length, IfNone, IfSome};
ghost use Rattle.store_model.specs.FreeMap.{bit_place, free_count, lowest_free, map_bit, map_bytes, map_mark, with_bit, without_bit};

use iso_model::Span;
use store_model::{Area, Region};

/// The region of an area.
pub fn region_of(area: Area) -> Region
    ensures { result ≡ record { start = area.start; size = area.blocks } }
{
    Region {
        start: area.start,
        size: area.blocks,
    }
}

/// The mark over head and map of a region of `blocks` blocks.
pub fn map_span(blocks: u32) -> Span
    requires { 64 + map_bytes blocks ≤ 4096 }
    ensures { result ≡ map_mark blocks }
{
    Span {
        off: 0,
        len: (64 + (blocks + 7) / 8) as u16,
    }
}

// Whether the bit of a block is set.
fn is_taken(map: &[u8], block: u32) -> bool
    requires { bit_place block < length map.now }
    ensures { result ≡ map_bit map.now block }
{
    (map[64 + (block / 8) as usize] >> (block % 8)) & 1 == 1
}

// The length of a run of blocks from this one on that are all taken or all free. It ends with the block's byte of the map, or sooner.
fn run_length(map: &[u8], block: u32, end: u32) -> u32
    requires map { bit_place block < length map.now }
    requires block { block < end }
    ensures some { 0 < result }
    ensures within { block + result ≤ end }
    ensures same { (k : ℕ) → block ≤ k → k < block + result → map_bit map.now k ≡ map_bit map.now block }
{
    let byte = map[64 + (block / 8) as usize];
    let rest = 8 - block % 8;
    if byte != 0 && byte != 0xff {
        return 1;
    }
    if end - block < rest {
        return 1;
    }
    rest
}

/// How many blocks from `first` on are free.
pub fn free_blocks(map: &[u8], region: Region, first: u32) -> u32
    requires map { 64 + map_bytes region.size ≤ length map.now }
    requires first { first ≤ region.size }
    ensures { result ≡ free_count map.now first (region.size - first) }
{
    let mut count: u32 = 0;
    let mut block = first;
    while block < region.size {
        let run = run_length(map, block, region.size);
        if !is_taken(map, block) {
            count += run;
        }
        block += run;
    }
    count
}

// The lowest free block from `first` on.
fn lowest_free(map: &[u8], region: Region, first: u32) -> Option<u32>
    requires map { 64 + map_bytes region.size ≤ length map.now }
    requires first { first ≤ region.size }
    ensures value { result ≡ lowest_free map.now first (region.size - first) }
    ensures inside { IfSome result (λ block. (first ≤ block) × (block < region.size)) }
{
    let mut block = first;
    while block < region.size {
        if !is_taken(map, block) {
            return Some(block);
        }
        block += run_length(map, block, region.size);
    }
    None
}

// Sets the bit of a block.
fn set(map: &mut [u8], block: u32)
    requires { bit_place block < length map.old }
    ensures { map.new ≡ with_bit map.old block }
{
    map[64 + (block / 8) as usize] |= 1 << (block % 8);
}

// Clears the bit of a block.
fn clear(map: &mut [u8], block: u32)
    requires { bit_place block < length map.old }
    ensures { map.new ≡ without_bit map.old block }
{
    let at = 64 + (block / 8) as usize;
    let bit = 1 << (block % 8);
    map[at] ^= map[at] & bit;
}

/// Takes the lowest free block from `first` on; none exactly where none is free.
pub fn take_lowest(map: &mut [u8], region: Region, first: u32) -> Option<u32>
    requires map { 64 + map_bytes region.size ≤ length map.old }
    requires first { first ≤ region.size }
    ensures lowest { result ≡ lowest_free map.old first (region.size - first) }
    ensures inside { IfSome result (λ block. (first ≤ block) × (block < region.size)) }
    ensures taken { IfSome result (λ block. map.new ≡ with_bit map.old block) }
    ensures bits { IfSome result (λ block. (k : ℕ) → map_bit map.new k ≡ ((k == block) || map_bit map.old k)) }
    ensures kept { IfNone result (map.new ≡ map.old) }
{
    let block = lowest_free(map, region, first)?;
    set(map, block);
    Some(block)
}

/// Gives a block back: it is free then.
pub fn give_back(map: &mut [u8], region: Region, block: u32)
    requires map { 64 + map_bytes region.size ≤ length map.old }
    requires block { block < region.size }
    ensures given { map.new ≡ without_bit map.old block }
    ensures bits { (k : ℕ) → map_bit map.new k ≡ (not (k == block) && map_bit map.old k) }
{
    clear(map, block);
}
