// Reads of one transaction.
ghost use Rattle.std.specs.Prelude.{◌≡◌, ◌+◌, ◌<◌, ◌≤◌, IfOk, IsErrOf, OnErr, drop, length, take};
ghost use Rattle.iso_disk.specs.Disk.{WritesNothing};
ghost use Rattle.script_model.specs.Step.{get_step, read_step};
ghost use Rattle.iso_model.specs.{Marks.is_outside, Step.{get_access, read_access}, World.{World, Live}};
ghost use Rattle.iso_core.specs.{Calls.IsTx, Core.{StandsFor, disk_of}, Standing.up};
ghost use Rattle.script_runner.specs.Counts.{BlamesDisk};
ghost use Rattle.iso_machine.specs.Accessing.{Acts, IsActive, IsActiveIn, IsAllowed, IsFilled, IsShown, IsWorkIn, MayRead, Reads, as_shown, with_bytes};

use crate::accessing::refusal;
use iso_core::Core;
use iso_disk::{Disk, DiskFault};
use iso_model::Bytes;
use script_model::{Reply, Stop, fit, is_outside, zeros};
use std::alloc::Global;
use std::mem::replace;
use tx_table::Work;

/// Reads `len` bytes of a block from `off` on, as the transaction is shown them, into their place in a slice as long as the
/// block. On a fault any bytes may be in the slice, and all else stays.
fn read_into<D: Disk>(
    core: &mut Core<D>,
    tx: u64,
    work: &mut Work,
    block: u32,
    off: usize,
    len: usize,
    into: &mut [u8],
) -> Result<(), DiskFault>
    requires stands { IsWorkIn D.state core.old tx work.old }
    requires range { MayRead work.old block off len (length into.old) }
    ensures { Reads D.state core.old core.new tx work.old work.new block off len (read_access block) into.old into.new result }
{
    match core.fetch_range(tx, block, off, len, into) {
        Ok(()) => {
            work.read(block, into);
            Ok(())
        }
        Err(_) => Err(DiskFault),
    }
}

/// Reads `len` bytes of a block from `off` on, as the transaction is shown them, into their place in a slice as long as the
/// block, with one mark over them. On a fault any bytes may be in the slice, and all else stays.
fn read_range<D: Disk>(
    core: &mut Core<D>,
    tx: u64,
    work: &mut Work,
    block: u32,
    off: usize,
    len: usize,
    into: &mut [u8],
) -> Result<(), DiskFault>
    requires stands { IsWorkIn D.state core.old tx work.old }
    requires range { MayRead work.old block off len (length into.old) }
    requires some { 0 < len }
    requires small { off + len ≤ 4096 }
    ensures { Reads D.state core.old core.new tx work.old work.new block off len (get_access block off len) into.old into.new result }
{
    match core.fetch_range(tx, block, off, len, into) {
        Ok(()) => {
            work.get(block, off as u16, len as u16, into);
            Ok(())
        }
        Err(_) => Err(DiskFault),
    }
}

/// A read of a whole block.
pub(crate) fn read<D: Disk>(
    alloc: Global,
    core: &mut Core<D>,
    tx: u64,
    work: &mut Work,
    block: u32,
) -> Result<Reply, Stop>
    requires { IsActiveIn D.state core.old tx work.old }
    ensures { Acts D.state core.old core.new tx work.old work.new (λ W t. read_step W t block) result }
{
    if let Some(reply) = refusal(work, block, false) {
        return Ok(reply);
    }
    let Ok(mut bytes) = zeros(alloc, work.block_size()) else {
        return Err(Stop::Memory);
    };
    if let Err(_) = work.reserve(block) {
        return Err(Stop::Memory);
    }
    let size = bytes.len();
    match read_into(core, tx, work, block, 0, size, &mut bytes) {
        Ok(()) => Ok(Reply::Shown(Bytes::of(bytes))),
        Err(_) => Err(Stop::Disk),
    }
}

/// Bytes of a block: `len` of them, from `off` on.
#[derive(Clone, Copy)]
pub(crate) struct BlockRange {
    pub(crate) block: u32,
    pub(crate) off: u32,
    pub(crate) len: u32,
}

/// Copies the bytes from `off` on, as many as there are places for.
fn copy_out(block: &[u8], off: u32, into: &mut [u8])
    requires { off + length into.old ≤ length block.now }
    ensures { into.new ≡ take (length into.old) (drop off block.now) }
{
    let (off, len) = (off as usize, into.len());
    into.copy_from_slice(&block[off..off + len]);
}

/// A read of as many bytes as the slice has, which is not refused, with one mark over them. The buffer gets the block.
#[inline(always)]
fn get_within<D: Disk>(
    core: &mut Core<D>,
    tx: u64,
    work: &mut Work,
    buffer: &mut Vec<u8>,
    block: u32,
    off: u32,
    into: &mut [u8],
) -> Result<(), Stop>
    requires stands { IsActiveIn D.state core.old tx work.old }
    requires allowed { IsAllowed work.old block (is_outside work.old.size off (length into.old)) }
    ensures acts { Acts D.state core.old core.new tx work.old work.new (λ W t. get_step W t block off (length into.old)) (as_shown result into.new) }
    ensures length { length into.new ≡ length into.old }
    ensures stays { OnErr result (into.new ≡ into.old) }
{
    if let Err(_) = fit(buffer, work.block_size()) {
        return Err(Stop::Memory);
    }
    if let Err(_) = work.reserve(block) {
        return Err(Stop::Memory);
    }
    let len = into.len();
    if let Err(_) = read_range(core, tx, work, block, off as usize, len, buffer) {
        return Err(Stop::Disk);
    }
    copy_out(buffer, off, into);
    Ok(())
}

/// A read of as many bytes of a block as a slice has, from `off` on, with one mark over them. The reply is `Done` where the slice
/// has the bytes, and stays as it was else.
///
/// # Errors
///
/// There is no reply, and the accesses stay as they are.
/// - `Memory`: want of memory.
/// - `Disk`: the disk failed in this call.
/// - `Down` never comes.
#[inline(always)]
pub fn get_into<D: Disk>(
    core: &mut Core<D>,
    tx: u64,
    work: &mut Work,
    buffer: &mut Vec<u8>,
    block: u32,
    off: u32,
    into: &mut [u8],
) -> Result<Reply, Stop>
    requires { (W : World) × (t : Live) × StandsFor D.state core.old W up × IsTx W tx t × IsActive W t work.old }
    ensures given { (W : World) (t : Live) → StandsFor D.state core.old W up → IsTx W tx t → IsActive W t work.old
        → IfOk (with_bytes result into.new) (IsShown (D.state (disk_of core.old)) W t (get_step W t block off (length into.old)) work.new) }
    ensures filled { IsFilled result into.old into.new }
    ensures kept { OnErr (with_bytes result into.new) (work.new ≡ record work.old { ready = work.new.ready }) }
    ensures same { (W : World) → StandsFor D.state core.old W up → StandsFor D.state core.new W up }
    ensures unwritten { WritesNothing (D.state (disk_of core.old)) (D.state (disk_of core.new)) }
    ensures up { ¬ IsErrOf (with_bytes result into.new) Stop.Down }
    ensures cause { BlamesDisk (D.state (disk_of core.old)).faults (D.state (disk_of core.new)).faults (with_bytes result into.new) }
{
    let size = work.block_size();
    if let Some(reply) = refusal(work, block, is_outside(size, off, into.len())) {
        return Ok(reply);
    }
    match get_within(core, tx, work, buffer, block, off, into) {
        Ok(()) => Ok(Reply::Done),
        Err(why) => Err(why),
    }
}

/// A read of a range, with one mark over it. The bytes are read into their place in the buffer, and those that are shown take the
/// spare memory.
pub(crate) fn get<D: Disk>(
    alloc: Global,
    core: &mut Core<D>,
    tx: u64,
    work: &mut Work,
    buffer: &mut Vec<u8>,
    spare: &mut Vec<u8>,
    range: BlockRange,
) -> Result<Reply, Stop>
    requires { IsActiveIn D.state core.old tx work.old }
    ensures { Acts D.state core.old core.new tx work.old work.new (λ W t. get_step W t range.block range.off range.len) result }
{
    let BlockRange { block, off, len } = range;
    let size = work.block_size();
    if let Some(reply) = refusal(work, block, is_outside(size, off, len as usize)) {
        return Ok(reply);
    }
    let mut bytes = replace(spare, Vec::new(alloc));
    if let Err(_) = fit(&mut bytes, len) {
        return Err(Stop::Memory);
    }
    match get_within(core, tx, work, buffer, block, off, &mut bytes) {
        Ok(()) => Ok(Reply::Shown(Bytes::of(bytes))),
        Err(why) => Err(why),
    }
}
