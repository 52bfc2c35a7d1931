// Where the store is that an operation calls.
ghost use Rattle.std.specs.Prelude.{◌≡◌, ◌+◌, ◌*◌, ◌≤◌, IsTrue};
ghost use Rattle.iso_model.specs.Geometry.{is_valid};
ghost use Rattle.store_model.specs.HashCalls.{is_key};
ghost use Rattle.script_model.specs.FilesArea.{file_blocks};
ghost use Rattle.store_calls.specs.Calls.{is_empty_scan, placed, store_areas};

use iso_model::Geometry;
use script_model::Op;
use store_model::{FsRegion, Region};

// How many blocks the files have: those after the stores, but no more than the map of one block has bits for, and none without a
// tree store for their names, or where there is no second one.
fn file_blocks(geometry: &Geometry) -> u32
    requires least { 64 ≤ geometry.now.block }
    requires most { geometry.now.block ≤ 4096 }
    requires regions { geometry.now.hash + geometry.now.tree ≤ geometry.now.blocks }
    ensures blocks { result ≡ file_blocks geometry.now }
{
    let rest = geometry.blocks - (geometry.hash + geometry.tree);
    let bits = 8 * (geometry.block - 64);
    let behind = if rest < bits { rest } else { bits };
    if geometry.tree == 0 || behind < 2 {
        0
    } else {
        behind
    }
}

/// The regions of the store that an operation calls, by the image's geometry; it has no blocks where there is no such store,
/// and where the operation calls none. A store without names has one region, which is both.
pub fn store_region(geometry: &Geometry, op: &Op) -> FsRegion
    requires valid { IsTrue (is_valid geometry.now) }
    ensures { placed geometry.now.block result ≡ store_areas geometry.now op.now }
{
    match op {
        Op::HashPut { .. } | Op::HashGet { .. } | Op::HashDelete { .. } => one(Region {
            start: 0,
            size: geometry.hash,
        }),
        Op::TreePut { .. } | Op::TreeGet { .. } | Op::TreeDelete { .. } | Op::TreeScan { .. } => {
            one(Region {
                start: geometry.hash,
                size: geometry.tree,
            })
        }
        Op::FileNew { .. }
        | Op::FileWrite { .. }
        | Op::FileRead { .. }
        | Op::FileMove { .. }
        | Op::FileDelete { .. } => FsRegion {
            tree: Region {
                start: geometry.hash,
                size: geometry.tree,
            },
            files: Region {
                start: geometry.hash + geometry.tree,
                size: file_blocks(geometry),
            },
        },
        _ => one(Region { start: 0, size: 0 }),
    }
}

// A store of one region.
fn one(region: Region) -> FsRegion
    ensures tree { result.tree ≡ region }
    ensures files { result.files ≡ region }
{
    FsRegion {
        tree: region,
        files: region,
    }
}

// Whether these bytes may be a key.
fn is_key(bytes: &[u8]) -> bool
    ensures { result ≡ is_key bytes.now }
{
    1 <= bytes.len() && bytes.len() <= 28
}

/// Whether an operation is a scan that is to find no pair, between two keys.
pub fn is_empty_scan(op: &Op) -> bool
    ensures { result ≡ is_empty_scan op.now }
{
    match op {
        Op::TreeScan { from, to, most } => {
            is_key(from.as_slice()) && is_key(to.as_slice()) && *most == 0
        }
        _ => false,
    }
}
