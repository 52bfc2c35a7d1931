// Cores over images in memory.
ghost use Rattle.std.specs.Prelude.{replicate, IfOk, IsTrue};
ghost use Rattle.iso_core.specs.{Core.StandsFor, Standing.up};
ghost use Rattle.iso_memdisk.specs.MemDisk.{state_of, Starts};
ghost use Rattle.iso_model.specs.{Geometry.{image_size, is_valid}, World.{empty_history, fresh}};
ghost use Rattle.test_cores.specs.Cores.{IsIdle};

use crate::images::blank;
use iso_core::Core;
use iso_memdisk::MemDisk;
use iso_model::{Geometry, Memory};
use iso_recover::{format_image, open_image};
use std::alloc::Global;

/// A core over a new image of a blank disk, of which calls may have been set to fail.
///
/// # Errors
///
/// Want of memory, or a call of the disk failed.
pub fn core_on(alloc: Global, disk: MemDisk, geometry: &Geometry) -> Result<Core<MemDisk>, Memory>
    requires valid { IsTrue (is_valid geometry.now) }
    requires blank { Starts disk (replicate (image_size geometry.now) 0) }
    ensures stands { IfOk result (λ core. StandsFor state_of core (fresh geometry.now 1 (empty_history geometry.now)) up) }
    ensures idle { IfOk result (λ core. IsIdle state_of core) }
{
    match format_image(alloc, disk, geometry) {
        Ok(core) => Ok(core),
        Err((_error, _disk)) => Err(Memory),
    }
}

/// A core over a new image, on a disk that does not fail.
///
/// # Errors
///
/// Want of memory.
pub fn new_core(alloc: Global, geometry: &Geometry) -> Result<Core<MemDisk>, Memory>
    requires { IsTrue (is_valid geometry.now) }
    ensures stands { IfOk result (λ core. StandsFor state_of core (fresh geometry.now 1 (empty_history geometry.now)) up) }
    ensures idle { IfOk result (λ core. IsIdle state_of core) }
{
    let disk = blank(alloc, geometry)?;
    core_on(alloc, disk, geometry)
}

/// A disk with a new image.
///
/// # Errors
///
/// Want of memory.
pub fn formatted(alloc: Global, geometry: &Geometry) -> Result<MemDisk, Memory>
    requires { IsTrue (is_valid geometry.now) }
{
    Ok(new_core(alloc, geometry)?.into_disk())
}

/// A core over the image of a disk.
///
/// # Errors
///
/// The image is refused, a call of the disk failed, or want of memory. The disk is handed back.
pub fn opened(alloc: Global, disk: MemDisk) -> Result<Core<MemDisk>, MemDisk>
    ensures { IfOk result (λ core. IsIdle state_of core) }
{
    match open_image(alloc, disk) {
        Ok(core) => Ok(core),
        Err((_error, disk)) => Err(disk),
    }
}
