// New images of the tests, in memory: four blocks of 64 bytes and logs of 4,096 bytes.
ghost use Rattle.std.specs.Prelude.{IfOk};
ghost use Rattle.iso_core.specs.{Core.StandsFor, Standing.up};
ghost use Rattle.iso_memdisk.specs.MemDisk.{state_of};
ghost use Rattle.iso_model.specs.World.{empty_history, fresh};
ghost use Rattle.iso_shared.specs.TestImage.{small};

use iso_core::Core;
use iso_memdisk::MemDisk;
use iso_model::Memory;
use std::alloc::Global;
use test_cores::{blank, core_on, with_long_logs};

/// A core over a new image, whose disk fails after `calls` calls.
pub(crate) fn core_failing(alloc: Global, calls: u64) -> Result<Core<MemDisk>, Memory>
    ensures { IfOk result (λ core. StandsFor state_of core (fresh small 1 (empty_history small)) up) }
{
    let geometry = with_long_logs();
    let mut disk = blank(alloc, &geometry)?;
    disk.fuse(calls);
    core_on(alloc, disk, &geometry)
}

/// A core over a new image, on a disk that does not fail.
pub(crate) fn new_core(alloc: Global) -> Result<Core<MemDisk>, Memory>
    ensures { IfOk result (λ core. StandsFor state_of core (fresh small 1 (empty_history small)) up) }
{
    core_failing(alloc, u64::MAX)
}
