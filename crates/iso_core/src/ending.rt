// The end of a transaction.
ghost use Rattle.std.specs.Prelude.{◌+◌, ◌-◌, ◌≤◌};
ghost use Rattle.iso_model.specs.{History.last, Step.end_step};
ghost use Rattle.iso_core.specs.{Calls.{HasLive, IsCheckedOf}, Ends.{EndsAs, EndsWith, MayEnd}};

use crate::commit::commit;
use crate::decide::decide_end;
use crate::kept::Kept;
use crate::leave::leave;
use conflict_rule::Checked;
use counts::{Ledger, Steps};
use iso_disk::Disk;
use iso_model::{CoreError, EndReply};
use tx_table::Work;

/// Ends a transaction, while the core is up.
pub(crate) fn end_tx<D: Disk, L: Ledger>(
    kept: &mut Kept,
    disk: &mut D,
    tx: u64,
    work: &mut Work,
    checked: &Checked,
    steps: &mut Steps<L>,
) -> Result<EndReply, CoreError>
    requires { MayEnd (D.state disk.old) kept.old tx work.old checked.now }
    ensures ends { (m : MayEnd (D.state disk.old) kept.old tx work.old checked.now) → EndsAs m.world m.t (end_step m.world m.t) (D.state disk.old) (D.state disk.new) kept.new result }
    ensures steps { (l : HasLive kept.old tx) → IsCheckedOf l.world l.t checked.now → steps.new ≤ steps.old + (last l.world.history - checked.now.upto) }
    ensures rest { EndsWith D.state disk.old disk.new kept.old kept.new work.old work.new result }
{
    if !work.has_write() {
        leave(kept, tx);
        return Ok(EndReply::ReadOnly);
    }
    let clash = match decide_end(kept, tx, work, checked, steps) {
        Ok(clash) => clash,
        Err(_) => return Err(CoreError::Memory),
    };
    if let Some(clash) = clash {
        leave(kept, tx);
        return Ok(EndReply::Conflict(clash));
    }
    commit(kept, disk, tx, work)
}
