// The base of a core, moved to the floor.
ghost use Rattle.iso_core.specs.Switching.{MaySwitchTo, Switches, SwitchesOn};

use crate::go_over::go_over;
use crate::kept::Kept;
use crate::refill::refill;
use half_switch::{FillPlan, SwitchError};
use iso_disk::Disk;
use iso_image::half_place;
use iso_model::{CoreError, LAST};

/// Moves the base to the floor, in the other half, which gets this form. Want of memory may come after the other half was
/// closed; all else is then as before.
pub(crate) fn switch_half<D: Disk>(
    kept: &mut Kept,
    disk: &mut D,
    form: u8,
) -> Result<u64, CoreError>
    requires { MaySwitchTo (D.state disk.old) kept.old form }
    ensures switched { (m : MaySwitchTo (D.state disk.old) kept.old form) → Switches m.world form (D.state disk.old) (D.state disk.new) kept.new result }
    ensures disk { SwitchesOn D.state disk.old disk.new result }
{
    if kept.generation >= LAST {
        return Err(CoreError::Worn { at: LAST });
    }
    let floor = kept.live.floor(kept.log.last());
    let mut geometry = kept.geometry;
    geometry.form = form;
    let from = half_place(&geometry, kept.half);
    let to = half_place(&geometry, 1 - kept.half);
    let plan = FillPlan {
        geometry,
        generation: kept.generation + 1,
        old_base: kept.base,
        base: floor,
        used: kept.log.used(),
    };
    match refill(kept.alloc, disk, &from, &to, &plan) {
        Ok(()) => {
            go_over(kept, form, from.log, to.log, floor);
            Ok(floor)
        }
        Err(SwitchError::Memory) => Err(CoreError::Memory),
        Err(SwitchError::Disk) => {
            kept.down = true;
            Err(CoreError::Disk)
        }
    }
}
