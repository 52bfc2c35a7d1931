// Calls of the stores on a transaction of the core.
ghost use Rattle.std.specs.Prelude.{◌≡◌, ◌≤◌, ℕ, IfOk, IsErrOf, length};
ghost use Rattle.iso_disk.specs.Disk.{WritesNothing};
ghost use Rattle.iso_model.specs.World.{Live, World};
ghost use Rattle.iso_core.specs.{Calls.IsTx, Core.{StandsFor, disk_of}, Standing.up};
ghost use Rattle.iso_machine.specs.{Accessing.{IsActive, IsWorkIn}, Guests.{IsGuest, IsSameWork}, ShownArrays.array_told, Storing.{CallsStore, IsStored, MayCall, store_act}};
ghost use Rattle.tx_table.specs.Work.{AreWithin};
ghost use Rattle.script_runner.specs.Counts.{BlamesDisk};

use crate::core_blocks::{CoreBlocks, Lent};
use crate::origin::Origin;
use iso_core::Core;
use iso_disk::Disk;
use iso_model::Mode;
use script_model::{Op, Reply, Stop};
use std::alloc::Global;
use std::marker::Brand;
use store_calls::{call, is_empty_scan, store_region};
use store_model::FsRegion;
use tx_table::Work;

/// A core and the work of one of its transactions after a call.
#[derive(Drop)]
struct Called<'a, D: Disk> {
    core: &'a mut Core<D>,
    work: &'a mut Work,
}

/// A call of a store on a transaction that began so.
fn call_from<'a, D: Disk, K: Origin>(
    alloc: Global,
    core: &'a mut Core<D>,
    tx: u64,
    work: &'a mut Work,
    at: FsRegion,
    op: &Op,
    answer: &mut Result<Reply, Stop>,
) -> Called<'a, D>
    requires core { core.ghost_name ≡ K.core_name }
    requires work { work.ghost_name ≡ K.work_name }
    requires guest { IsGuest D.state K.stood K.disk K.doing K.array core.old tx work.old 0 }
    requires call { MayCall K.array at op.now work.old }
    ensures same_core { result.core.ghost_name ≡ core.entry.ghost_name }
    ensures same_work { result.work.ghost_name ≡ work.entry.ghost_name }
    ensures guest { (number : ℕ) × (failures : ℕ) × IsGuest D.state K.stood K.disk K.doing K.array result.core.now number result.work.now failures }
    ensures called { CallsStore K.array at op.now work.old result.work.now answer.new }
    ensures within { AreWithin result.work.now.size result.work.now.blocks result.work.now.accesses }
    ensures up { ¬ IsErrOf answer.new Stop.Down }
    ensures cause { BlamesDisk K.disk.faults (D.state (disk_of result.core.now)).faults answer.new }
{
    let mut blocks = CoreBlocks::<'a, D, K>::over(core, tx, work);
    let result = call(alloc, &mut blocks, at, op);
    let Lent {
        core,
        work,
        failures: _,
    } = blocks.leave();
    let _ = work.count();
    *answer = result;
    Called { core, work }
}

/// A call of a store on a transaction. The accesses that it made before a fault stay.
fn call_on<D: Disk>(
    alloc: Global,
    core: &mut Core<D>,
    tx: u64,
    work: &mut Work,
    at: FsRegion,
    op: &Op,
) -> Result<Reply, Stop>
    requires live { IsWorkIn D.state core.old tx work.old }
    requires few { length work.old.accesses ≤ 4096 }
    requires call { MayCall (array_told D.state core.old work.old.begin) at op.now work.old }
    ensures same { (W : World) → StandsFor D.state core.old W up → StandsFor D.state core.new W up }
    ensures unwritten { WritesNothing (D.state (disk_of core.old)) (D.state (disk_of core.new)) }
    ensures work { IsSameWork work.old work.new }
    ensures few { length work.new.accesses ≤ 4096 }
    ensures called { CallsStore (array_told D.state core.old work.old.begin) at op.now work.old work.new result }
    ensures up { ¬ IsErrOf result Stop.Down }
    ensures cause { BlamesDisk (D.state (disk_of core.old)).faults (D.state (disk_of core.new)).faults result }
{
    let mut answer = Err(Stop::Memory);
    let _called = call_from::<D, Brand>(alloc, core, tx, work, at, op, &mut answer);
    answer
}

/// An operation on a store by a transaction.
///
/// # Errors
///
/// There is no reply, and the accesses that the call has made stay.
/// - `Memory`: want of memory.
/// - `Disk`: the disk failed in this call.
/// - `Down` never comes.
pub fn store<D: Disk>(
    alloc: Global,
    core: &mut Core<D>,
    tx: u64,
    work: &mut Work,
    op: &Op,
) -> Result<Reply, Stop>
    requires { (W : World) × (t : Live) × StandsFor D.state core.old W up × IsTx W tx t × IsActive W t work.old × (length work.old.accesses ≤ 4096) }
    ensures given { (W : World) (t : Live) → StandsFor D.state core.old W up → IsTx W tx t → IsActive W t work.old
        → IfOk result (IsStored (D.state (disk_of core.old)) W t (store_act W t op.now) work.new) }
    ensures same { (W : World) → StandsFor D.state core.old W up → StandsFor D.state core.new W up }
    ensures unwritten { WritesNothing (D.state (disk_of core.old)) (D.state (disk_of core.new)) }
    ensures work { IsSameWork work.old work.new }
    ensures few { length work.new.accesses ≤ 4096 }
    ensures within { AreWithin work.new.size work.new.blocks work.new.accesses }
    ensures up { ¬ IsErrOf result Stop.Down }
    ensures cause { BlamesDisk (D.state (disk_of core.old)).faults (D.state (disk_of core.new)).faults result }
{
    let geometry = core.geometry();
    let at = store_region(&geometry, op);
    let _ = work.count();
    if at.files.size == 0 {
        return Ok(Reply::NoStore);
    }
    match work.mode() {
        Mode::Serial => {
            if is_empty_scan(op) {
                return Ok(Reply::BadRange);
            }
            let answer = call_on(alloc, core, tx, work, at, op);
            let _ = work.count();
            answer
        }
        Mode::Snapshot => Ok(Reply::StoreMode),
    }
}
