// The half that is not the current one, filled while its gate is closed.
ghost use Rattle.std.specs.Prelude.{◌≡◌, ◌+◌, ◌-◌, ◌<◌, ◌≤◌, ℕ, List, length, IsTrue, OnOk, OnErr, IfOk, IsErrOf};
ghost use Rattle.iso_model.specs.{declared.access.Geometry.Geometry, Geometry.{half_size, image_size, is_valid}};
ghost use Rattle.iso_disk.specs.Disk.{IsSettled, LeavesOnly, StaysTold, TellsTorn, TornFrom};
ghost use Rattle.counts.specs.Count.{Rose};
ghost use Rattle.commit_gate.specs.Gate.{IsClosed};
ghost use Rattle.iso_image.specs.Half.{Half, IsFilled, IsHeld};
ghost use Rattle.half_switch.specs.{Plan.{AreHalves, Copies, IsFrom, IsReady, refilled}, Put.{FitsPlan, HasRoom, IsLaidOut, WritesHalf}};

use crate::lay::lay_records;
use crate::plan::{FillPlan, SwitchError};
use crate::put::put_half;
use iso_disk::{Disk, DiskFault};
use iso_format::{HalfHeader, write_half};
use iso_image::{HalfPlace, base_size};
use iso_model::Memory;
use std::alloc::Global;

/// Fills the half `to` from the half `from`: the base at the plan's number, the header without its gate, and the
/// records above that number with a closed gate after them. It takes its memory before its first call of the disk.
///
/// # Errors
///
/// - `Memory`: want of memory. The disk is as before.
/// - `Disk`: a call of the disk failed. The new half may have any bytes after its gate, which is closed still.
pub fn fill_half<D: Disk>(
    alloc: Global,
    disk: &mut D,
    from: &HalfPlace,
    to: &HalfPlace,
    plan: &FillPlan,
) -> Result<(), SwitchError>
    requires valid { IsTrue (is_valid plan.now.geometry) }
    requires size { (D.state disk.old).size ≡ image_size plan.now.geometry }
    requires places { AreHalves plan.now.geometry from.now to.now }
    requires base { plan.now.old_base ≤ plan.now.base }
    requires used { plan.now.used < plan.now.geometry.log }
    requires closed { (c : List ℕ) → (D.state disk.old).now c → IsClosed to.now.header c }

    // At each moment an image is one from before the call but for the bytes after the new half's gate. So the gate is closed, and
    // the image holds the half that it held.
    ensures moments { LeavesOnly (D.state disk.old) (D.state disk.new) (TornFrom (to.now.header + 1) (half_size plan.now.geometry - 1) (D.state disk.old).now) }
    ensures closed { LeavesOnly (D.state disk.old) (D.state disk.new) (IsClosed to.now.header) }
    ensures held { (g : Geometry) (x : Half) → IsFrom g x from.now plan.now → ((c : List ℕ) → (D.state disk.old).now c → IsHeld g x c)
        → LeavesOnly (D.state disk.old) (D.state disk.new) (IsHeld g x) }

    ensures ready { (g : Geometry) (x : Half) → Copies g x from.now plan.now → ((c : List ℕ) → (D.state disk.old).now c → IsHeld g x c)
        → OnOk result ((c : List ℕ) → (D.state disk.new).now c → IsReady g plan.now.geometry.form x (refilled g plan.now.generation plan.now.base x) c) }
    ensures settled { OnOk result (IsSettled (D.state disk.new)) }
    ensures told { OnOk result (StaysTold (D.state disk.old) (D.state disk.new)) }

    ensures failed { OnErr result (TellsTorn (to.now.header + 1) (half_size plan.now.geometry - 1) (D.state disk.old) (D.state disk.new)) }
    ensures memory { IsErrOf result SwitchError.Memory → disk.new ≡ disk.old }
    ensures later { (D.state disk.old).faults ≤ (D.state disk.new).faults }
    ensures cause { IsErrOf result SwitchError.Disk → Rose (D.state disk.old).faults (D.state disk.new).faults }
    ensures passed { OnOk result ((D.state disk.new).faults ≡ (D.state disk.old).faults) }
{
    let (Ok(mut base), Ok(mut log)) = (
        zeros(alloc, base_size(&plan.geometry) as usize),
        zeros(alloc, plan.used as usize + 1),
    ) else {
        return Err(SwitchError::Memory);
    };
    match fill_from(disk, from, to, plan, &mut base, &mut log) {
        Ok(()) => Ok(()),
        Err(_) => Err(SwitchError::Disk),
    }
}

// `count` zero bytes.
fn zeros(alloc: Global, count: usize) -> Result<Vec<u8>, Memory>
    requires { count ≤ 67108864 }
    ensures { IfOk result (λ v. length v.items ≡ count) }
{
    Ok(vec![in alloc; 0u8; count]?)
}

// Reads the base and the log of the half `from` into these bytes, and writes what the other half is to have.
fn fill_from<D: Disk>(
    disk: &mut D,
    from: &HalfPlace,
    to: &HalfPlace,
    plan: &FillPlan,
    base: &mut [u8],
    log: &mut [u8],
) -> Result<(), DiskFault>
    requires bytes { FitsPlan plan.now base.old log.old }
    requires size { (D.state disk.old).size ≡ image_size plan.now.geometry }
    requires places { AreHalves plan.now.geometry from.now to.now }
    ensures writes { WritesHalf (D.state disk.old) (D.state disk.new) to.now.header (half_size plan.now.geometry - 1) result }
    ensures filled { (g : Geometry) (x : Half) → Copies g x from.now plan.now → ((c : List ℕ) → (D.state disk.old).now c → IsHeld g x c)
        → OnOk result ((c : List ℕ) → (D.state disk.new).now c → IsFilled plan.now.geometry (refilled g plan.now.generation plan.now.base x) c) }
{
    disk.read(from.base, base)?;
    disk.read(from.log, log)?;
    put_filled(disk, to, plan, base, log)
}

// Lays the commits up to the plan's number over the base that was read, and writes all.
fn put_filled<D: Disk>(
    disk: &mut D,
    to: &HalfPlace,
    plan: &FillPlan,
    base: &mut [u8],
    log: &mut [u8],
) -> Result<(), DiskFault>
    requires bytes { FitsPlan plan.now base.old log.old }
    requires room { HasRoom to.now (length base.old) plan.now.geometry.log (D.state disk.old).size }
    ensures writes { WritesHalf (D.state disk.old) (D.state disk.new) to.now.header (half_size plan.now.geometry - 1) result }
    ensures laid_out { OnOk result ((c : List ℕ) → (D.state disk.new).now c → IsLaidOut to.now plan.now base.old log.old (D.state disk.old).contents c) }
{
    let at = lay_records(
        &plan.geometry,
        plan.old_base,
        plan.base - plan.old_base,
        base,
        log,
    );
    log[plan.used as usize] = 0;
    let mut header = [0; 32];
    write_half(
        &HalfHeader {
            gate: 0,
            form: plan.geometry.form,
            generation: plan.generation,
            base: plan.base,
            clean: true,
        },
        &mut header,
    );
    let (_, records) = log.split_at(at);
    put_half(disk, to, &header, base, records)
}
