// Transactions that fill a block.
ghost use Rattle.std.specs.Prelude.{◌≡◌, ◌<◌, IfOk};
ghost use Rattle.iso_memdisk.specs.MemDisk.{state_of};
ghost use Rattle.test_cores.specs.Cores.{HasDone, IsIdle};

use crate::making::opened;
use conflict_rule::Checked;
use counts::Steps;
use iso_core::Core;
use iso_memdisk::MemDisk;
use iso_model::{CoreError, EndReply, Geometry, Memory};
use std::alloc::Global;
use std::marker::Brand;
use std::sync::ledger::{Blank, Ledger};
use tx_table::Work;

/// The work of a transaction that fills a block with one byte.
///
/// # Errors
///
/// Want of memory.
pub fn filling(
    alloc: Global,
    at: u64,
    geometry: &Geometry,
    block: u32,
    byte: u8,
) -> Result<Work, Memory>
    requires size { geometry.now.block ≡ 64 }
    requires inside { block < geometry.now.blocks }
    ensures { IfOk result (HasDone geometry.now at) }
{
    let mut work = Work::begin(alloc, at, geometry);
    work.reserve(block)?;
    work.write(block, &[byte; 64]);
    Ok(work)
}

// What such a transaction is answered.
fn end_of<L: Ledger>(
    blank: Blank,
    alloc: Global,
    core: &mut Core<MemDisk>,
    block: u32,
    byte: u8,
) -> Result<Result<EndReply, CoreError>, Memory>
    requires name { blank.name ≡ L.name }
    requires parts { blank.parts ≡ L.parts }
    requires some { 0 < L.parts }
    requires idle { IsIdle state_of core.old }
{
    let geometry = core.geometry();
    if geometry.block != 64 || block >= geometry.blocks {
        return Err(Memory);
    }
    let begun = match core.begin(None) {
        Ok(begun) => begun,
        Err(error) => return Ok(Err(error)),
    };
    let mut work = filling(alloc, begun.at, &geometry, block, byte)?;
    let checked = Checked {
        upto: begun.at,
        clash: None,
    };
    let mut steps = Steps::<L>::start(blank);
    Ok(core.end(begun.tx, &mut work, &checked, &mut steps))
}

/// The reply to a transaction that fills a block with one byte, on a disk that is opened, and the disk.
///
/// # Errors
///
/// Want of memory, or there is no such block of 64 bytes.
pub fn ended_on(
    alloc: Global,
    disk: MemDisk,
    block: u32,
    byte: u8,
) -> Result<(Result<EndReply, CoreError>, MemDisk), Memory> {
    match opened(alloc, disk) {
        Ok(mut core) => {
            let reply = end_of::<Brand>(Blank::new(1), alloc, &mut core, block, byte)?;
            Ok((reply, core.into_disk()))
        }
        Err(disk) => Ok((Err(CoreError::Down), disk)),
    }
}
