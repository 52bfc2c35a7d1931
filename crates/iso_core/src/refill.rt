// The other half of an image, closed, filled and opened.
ghost use Rattle.iso_core.specs.Switching.{MayRefill, Refills, RefillsOn};

use half_switch::{FillPlan, HalfPlace, SwitchError, close_half, fill_half, open_half};
use iso_disk::Disk;
use std::alloc::Global;

/// Fills the half at a place from the current one, and makes it the current one: at each moment an image holds the one or the
/// other. Want of memory may come after the other half was closed.
pub(crate) fn refill<D: Disk>(
    alloc: Global,
    disk: &mut D,
    from: &HalfPlace,
    to: &HalfPlace,
    plan: &FillPlan,
) -> Result<(), SwitchError>
    requires { MayRefill from.now to.now plan.now (D.state disk.old) }
    ensures refilled { (m : MayRefill from.now to.now plan.now (D.state disk.old)) → Refills m.g m.x plan.now (D.state disk.old) (D.state disk.new) result }
    ensures disk { RefillsOn (D.state disk.old) (D.state disk.new) result }
{
    if let Err(_) = close_half(disk, to) {
        return Err(SwitchError::Disk);
    }
    match fill_half(alloc, disk, from, to, plan) {
        Ok(()) => {}
        Err(SwitchError::Memory) => return Err(SwitchError::Memory),
        Err(SwitchError::Disk) => return Err(SwitchError::Disk),
    }
    if let Err(_) = open_half(disk, to) {
        return Err(SwitchError::Disk);
    }
    Ok(())
}
