// An access or a mark of one transaction.
ghost use Rattle.std.specs.Prelude.{◌≡◌, IfOk, IsErrOf, OnErr, Result};
ghost use Rattle.iso_disk.specs.Disk.{WritesNothing};
ghost use Rattle.iso_model.specs.World.{World, Live};
ghost use Rattle.iso_core.specs.{Calls.IsTx, Core.{StandsFor, disk_of}, Standing.up};
ghost use Rattle.script_runner.specs.Counts.{BlamesDisk};
ghost use Rattle.iso_machine.specs.Accessing.{Acts, IsActive, IsActiveIn, IsShown, act_step, or_stop};

use crate::accessing::{fill, mark, put, write};
use crate::reading::{BlockRange, get, read};
use iso_core::Core;
use iso_disk::Disk;
use iso_model::Memory;
use script_model::{Op, Reply, Stop};
use std::alloc::Global;
use tx_table::Work;

/// A reply, where there was memory for it.
fn or_stop(given: Result<Reply, Memory>) -> Result<Reply, Stop>
    ensures { result ≡ or_stop given }
{
    match given {
        Ok(reply) => Ok(reply),
        Err(_) => Err(Stop::Memory),
    }
}

/// An access or a mark of a transaction, as `act` has it. The bytes that a get shows take the spare memory; what is in it is free.
#[inline(always)]
pub(crate) fn act_reusing<D: Disk>(
    alloc: Global,
    core: &mut Core<D>,
    tx: u64,
    work: &mut Work,
    buffer: &mut Vec<u8>,
    spare: &mut Vec<u8>,
    op: &Op,
) -> Result<Reply, Stop>
    requires { IsActiveIn D.state core.old tx work.old }
    ensures { Acts D.state core.old core.new tx work.old work.new (λ W t. act_step W t op.now) result }
{
    match op {
        Op::Put { block, off, bytes } => { or_stop(put(work, *block, *off, bytes.as_slice())) }
        Op::Read { block } => read(alloc, core, tx, work, *block),
        Op::Get { block, off, len } => {
            let (block, off, len) = (*block, *off, *len);
            get(
                alloc,
                core,
                tx,
                work,
                buffer,
                spare,
                BlockRange { block, off, len },
            )
        }
        Op::Write { block, bytes } => or_stop(write(work, *block, bytes.as_slice())),
        Op::Fill { block, bytes } => or_stop(fill(work, buffer, *block, bytes.as_slice())),
        Op::Mark { off, len } => Ok(mark(work, *off, *len)),
        _ => Ok(Reply::NotInTx),
    }
}

/// An access or a mark of a transaction; any other operation is refused by its reply.
///
/// # Errors
///
/// There is no reply, and the accesses stay as they are.
/// - `Memory`: want of memory.
/// - `Disk`: the disk failed in this call.
/// - `Down` never comes.
pub fn act<D: Disk>(
    alloc: Global,
    core: &mut Core<D>,
    tx: u64,
    work: &mut Work,
    buffer: &mut Vec<u8>,
    op: &Op,
) -> Result<Reply, Stop>
    requires { (W : World) × (t : Live) × StandsFor D.state core.old W up × IsTx W tx t × IsActive W t work.old }
    ensures given { (W : World) (t : Live) → StandsFor D.state core.old W up → IsTx W tx t → IsActive W t work.old
        → IfOk result (IsShown (D.state (disk_of core.old)) W t (act_step W t op.now) work.new) }
    ensures kept { OnErr result (work.new ≡ record work.old { ready = work.new.ready }) }
    ensures same { (W : World) → StandsFor D.state core.old W up → StandsFor D.state core.new W up }
    ensures unwritten { WritesNothing (D.state (disk_of core.old)) (D.state (disk_of core.new)) }
    ensures up { ¬ IsErrOf result Stop.Down }
    ensures cause { BlamesDisk (D.state (disk_of core.old)).faults (D.state (disk_of core.new)).faults result }
{
    let mut spare = Vec::new(alloc);
    act_reusing(alloc, core, tx, work, buffer, &mut spare, op)
}
