// The superblock, which spells the fixed numbers of an image.
ghost use Rattle.std.specs.Prelude.{◌≡◌, length, IsTrue, IfOk, Ok};
ghost use Rattle.iso_model.specs.{Geometry.{is_valid, is_block_size, is_region}, Image.{superblock, mode_byte}, declared.access.Geometry.Geometry};
ghost use Rattle.iso_format.specs.Reading.{super_of, geometry_of, has_regions, mode_of, wrong_field};

use crate::numbers::{are_zero, u32_at};
use byteorder::{BigEndian, ByteOrder};
use iso_model::{Geometry, Mode};

/// Why bytes are no superblock: the first test that they fail. The fields are 1 version, 2 block size, 3 blocks,
/// 4 log bytes, 5 mode, 6 zero bytes, 7 regions.
#[derive(Clone, Copy, Debug, PartialEq, Eq)]
pub enum SuperError {
    /// The name is another one, or the gate is closed.
    NotIsotope,
    /// The first field that is wrong.
    BadGeometry { field: u8 },
}

/// The version of the format.
const VERSION: u32 = 1;

/// How many blocks an image may have, and how many bytes its log.
const MOST_BLOCKS: u32 = 16_384;

const LEAST_LOG: u32 = 64;

const MOST_LOG: u32 = 67_108_864;

fn mode_byte(mode: Mode) -> u8
    ensures { result ≡ mode_byte mode }
{
    match mode {
        Mode::Serial => 0,
        Mode::Snapshot => 1,
    }
}

/// Writes the superblock of an image, with an open gate.
#[tactic(auto, unfolding(iso_model::specs::Image::superblock))]
pub fn write_super(geometry: &Geometry, into: &mut [u8])
    requires size { length into.old ≡ 64 }
    requires valid { IsTrue (is_valid geometry.now) }
    ensures { into.new ≡ superblock 1 geometry.now }
{
    let mut bytes = [0; 64];
    bytes[..8].copy_from_slice(b"ISOTOPE1");
    BigEndian::write_u32(&mut bytes[8..], VERSION);
    BigEndian::write_u32(&mut bytes[12..], geometry.block);
    BigEndian::write_u32(&mut bytes[16..], geometry.blocks);
    BigEndian::write_u32(&mut bytes[20..], geometry.log);
    bytes[24] = mode_byte(geometry.mode);
    BigEndian::write_u32(&mut bytes[28..], geometry.hash);
    BigEndian::write_u32(&mut bytes[32..], geometry.tree);
    bytes[63] = 1;
    into.copy_from_slice(&bytes);
}

fn mode_of(byte: u8) -> Mode
    ensures { result ≡ mode_of byte }
{
    match byte {
        0 => Mode::Serial,
        _ => Mode::Snapshot,
    }
}

fn geometry_of(input: &[u8]) -> Geometry
    requires { length input.now ≡ 64 }
    ensures { result ≡ geometry_of input.now }
{
    Geometry {
        block: u32_at(input, 12),
        blocks: u32_at(input, 16),
        log: u32_at(input, 20),
        mode: mode_of(input[24]),
        hash: u32_at(input, 28),
        tree: u32_at(input, 32),
        form: 1,
    }
}

fn is_block_size(size: u32) -> bool
    ensures { result ≡ is_block_size size }
{
    [64, 128, 256, 512, 1024, 2048, 4096]
        .iter()
        .any(|n| size == *n)
}

fn is_region(geometry: &Geometry, least: u32, blocks: u32) -> bool
    ensures { result ≡ is_region geometry.now least blocks }
{
    let most = 8 * u64::from(geometry.block).saturating_sub(64);
    blocks == 0
        || (least <= blocks
            && u64::from(blocks) <= most
            && geometry.block >= 256
            && matches!(geometry.mode, Mode::Serial))
}

fn has_regions(geometry: &Geometry) -> bool
    ensures { result ≡ has_regions geometry.now }
{
    is_region(geometry, 3, geometry.hash)
        && is_region(geometry, 2, geometry.tree)
        && u64::from(geometry.hash) + u64::from(geometry.tree) <= u64::from(geometry.blocks)
}

/// Whether the numbers of an image keep their limits.
#[tactic(auto, unfolding(iso_model::specs::Geometry::is_valid))]
pub fn is_valid(geometry: &Geometry) -> bool
    ensures { result ≡ is_valid geometry.now }
{
    is_block_size(geometry.block)
        && 1 <= geometry.blocks
        && geometry.blocks <= MOST_BLOCKS
        && LEAST_LOG <= geometry.log
        && geometry.log <= MOST_LOG
        && is_region(geometry, 3, geometry.hash)
        && is_region(geometry, 2, geometry.tree)
        && u64::from(geometry.hash) + u64::from(geometry.tree) <= u64::from(geometry.blocks)
        && 1 <= geometry.form
        && geometry.form <= 2
}

fn wrong_field(input: &[u8], geometry: &Geometry) -> Option<u8>
    requires { length input.now ≡ 64 }
    ensures { result ≡ wrong_field input.now geometry.now }
{
    if u32_at(input, 8) != VERSION {
        Some(1)
    } else if !is_block_size(geometry.block) {
        Some(2)
    } else if !(1..=MOST_BLOCKS).contains(&geometry.blocks) {
        Some(3)
    } else if !(LEAST_LOG..=MOST_LOG).contains(&geometry.log) {
        Some(4)
    } else if input[24] > 1 {
        Some(5)
    } else if !(are_zero(input, 25, 3) && are_zero(input, 36, 27)) {
        Some(6)
    } else if !has_regions(geometry) {
        Some(7)
    } else {
        None
    }
}

/// The body of `read_super`, apart so that the clauses on what is spelled follow from the exact one, at one exit.
#[tactic(auto, unfolding(crate::specs::Reading::super_of))]
fn super_of(input: &[u8]) -> Result<Geometry, SuperError>
    requires { length input.now ≡ 64 }
    ensures { result ≡ super_of input.now }
{
    if !(input.starts_with(b"ISOTOPE1") && input[63] == 1) {
        return Err(SuperError::NotIsotope);
    }
    let geometry = geometry_of(input);
    match wrong_field(input, &geometry) {
        Some(field) => Err(SuperError::BadGeometry { field }),
        None => Ok(geometry),
    }
}

/// The geometry that a superblock spells. No superblock gives the form, which is 1 in the geometry.
///
/// # Errors
///
/// The first test that the bytes fail, `NotIsotope` before `BadGeometry`.
pub fn read_super(input: &[u8]) -> Result<Geometry, SuperError>
    requires { length input.now ≡ 64 }
    ensures exact { result ≡ super_of input.now }
    // What is read is spelled so.
    ensures spelled { IfOk result (λ g. IsTrue (is_valid g) × (g.form ≡ 1) × (input.now ≡ superblock 1 g)) }
    // What is spelled is read.
    ensures only { (g : Geometry) → IsTrue (is_valid g) → input.now ≡ superblock 1 g → result ≡ Ok (record g { form = 1 }) }
{
    super_of(input)
}
