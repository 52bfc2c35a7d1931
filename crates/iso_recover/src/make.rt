// An image that is made, with what is known of it.
ghost use Rattle.std.specs.Prelude.{◌≡◌, ◌≤◌, ℕ, List, replicate, IfOk, IsErrOf, IsTrue, OnOk};
ghost use Rattle.iso_model.specs.{Geometry.{image_size, is_valid}, World.empty_history};
ghost use Rattle.iso_disk.specs.Disk.{LeavesOnly, StaysTold};
ghost use Rattle.counts.specs.Count.{Rose};
ghost use Rattle.iso_recover.specs.{Made.IsUnmadeOrEmpty, Opened.{IsNew, IsOpened}};

use crate::format::put_front;
use iso_core::Opened;
use iso_disk::Disk;
use iso_format::RecordBuffer;
use iso_image::half_place;
use iso_log::Log;
use iso_model::{Geometry, Memory};
use mv_index::MvIndex;
use std::alloc::Global;

/// Why no image was made.
#[derive(Clone, Copy)]
pub enum MakeError {
    /// A call of the disk failed.
    Disk,
    /// Memory ran out.
    Memory,
}

// What is known of an image on which nothing was committed.
fn new_image(alloc: Global, geometry: &Geometry) -> Result<Opened, Memory>
    requires { IsTrue (is_valid geometry.now) }
    ensures { IfOk result (λ o. IsNew geometry.now o) }
{
    let index = MvIndex::empty(alloc, geometry.blocks)?;
    let buffer = RecordBuffer::new(alloc)?;
    let place = half_place(geometry, 0);
    Ok(Opened {
        geometry: *geometry,
        half: 0,
        generation: 1,
        base: 0,
        log: Log::start(place.log, geometry.log, 0),
        index,
        buffer,
    })
}

/// Makes an image of the geometry's form on which nothing was committed of a blank disk, as `put_front` does.
///
/// # Errors
///
/// - `Memory`: want of memory. No call of the disk was made.
/// - `Disk`: a call of the disk failed. Each image that a crash leaves is refused as none of this project, or holds no
///   commit.
pub fn make_image<D: Disk>(
    alloc: Global,
    disk: &mut D,
    geometry: &Geometry,
) -> Result<Opened, MakeError>
    requires valid { IsTrue (is_valid geometry.now) }
    requires size { (D.state disk.old).size ≡ image_size geometry.now }
    requires blank { (c : List ℕ) → (D.state disk.old).now c → c ≡ replicate (D.state disk.old).size 0 }
    ensures made { IfOk result (λ o. (o.geometry ≡ geometry.now) × (o.generation ≡ 1) × IsOpened o (empty_history geometry.now) (D.state disk.new)) }

    // At each moment an image is refused as none of this project, or holds the empty history.
    ensures moments { LeavesOnly (D.state disk.old) (D.state disk.new) (IsUnmadeOrEmpty geometry.now) }

    ensures told { OnOk result (StaysTold (D.state disk.old) (D.state disk.new)) }
    ensures memory { IsErrOf result MakeError.Memory → disk.new ≡ disk.old }
    ensures fault { IsErrOf result MakeError.Disk → Rose (D.state disk.old).faults (D.state disk.new).faults }
    ensures no_fault { OnOk result ((D.state disk.new).faults ≡ (D.state disk.old).faults) }
    ensures later { (D.state disk.old).faults ≤ (D.state disk.new).faults }
{
    let Ok(opened) = new_image(alloc, geometry) else {
        return Err(MakeError::Memory);
    };
    if let Err(_) = put_front(disk, geometry) {
        return Err(MakeError::Disk);
    }
    Ok(opened)
}
