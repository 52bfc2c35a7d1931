// Making the other side as the one that was chosen.
ghost use Rattle.mirror_disk.specs.Adopting.{AreChosen, MakesAlike, TakesOver};

use crate::copy::copy_body;
use crate::raise::raise_epoch;
use crate::sides::raise_by_one;
use crate::slot::{Mark, Slot};
use iso_disk::{Disk, DiskFault};

/// Makes the mirrored bytes of the other side those of the chosen one, raises its epoch to that of the chosen one, and answers
/// the slot that holds it then. None where the other side failed alone and was left out.
pub(crate) fn take_over<C: Disk, O: Disk>(
    from: &mut C,
    to: &mut O,
    count: u64,
    chosen: Mark,
    behind: Mark,
) -> Result<Option<Slot>, DiskFault>
    requires { AreChosen (C.state from.old) (O.state to.old) count chosen behind }
    ensures { TakesOver (C.state from.old) (O.state to.old) (C.state from.new) (O.state to.new) chosen behind result }
{
    if let Some(slot) = make_alike(from, to, count, chosen, behind)? {
        return Ok(Some(slot));
    }
    if raise_by_one(from, chosen.slot, chosen.epoch) {
        return Ok(None);
    }
    Err(DiskFault)
}

/// Copies the mirrored bytes and raises the epoch, but leaves nothing out: none where the other side failed.
fn make_alike<C: Disk, O: Disk>(
    from: &mut C,
    to: &mut O,
    count: u64,
    chosen: Mark,
    behind: Mark,
) -> Result<Option<Slot>, DiskFault>
    requires { AreChosen (C.state from.old) (O.state to.old) count chosen behind }
    ensures { MakesAlike (C.state from.old) (O.state to.old) (C.state from.new) (O.state to.new) chosen behind result }
{
    if !copy_body(from, to, count)? {
        return Ok(None);
    }
    if behind.epoch == chosen.epoch {
        return Ok(Some(behind.slot));
    }
    match raise_epoch(to, behind.slot, chosen.epoch) {
        Ok(()) => Ok(Some(behind.slot.other())),
        Err(_) => Ok(None),
    }
}
