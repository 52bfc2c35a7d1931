// Whether a transaction with a write conflicts.
ghost use Rattle.std.specs.Prelude.{◌≡◌, ◌+◌, ◌-◌, ◌≤◌, IfOk, OnOk};
ghost use Rattle.iso_model.specs.{Conflict.clash, History.last, World.{World, Live}};
ghost use Rattle.iso_core.specs.{Calls.{HasLive, IsCheckedOf, IsWorkOf}, Kept.SettlesOnly, Ends.IsSettledOf};

use crate::kept::Kept;
use conflict_rule::{Checked, decide};
use counts::{Ledger, Steps};
use iso_model::{Clash, Memory};
use tx_table::Work;

/// Settles a transaction, and decides whether it conflicts with a commit after its begin. It looks at the commits after
/// those that were checked already.
pub(crate) fn decide_end<L: Ledger>(
    kept: &Kept,
    tx: u64,
    work: &mut Work,
    checked: &Checked,
    steps: &mut Steps<L>,
) -> Result<Option<Clash>, Memory>
    ensures clash { (l : HasLive kept.now tx) → IsWorkOf l.world l.t work.old → IsCheckedOf l.world l.t checked.now
        → IfOk result (λ found. found ≡ clash l.world.geometry l.world.history l.t.mode l.t.begin l.t.accesses) }
    ensures settled { (W : World) (t : Live) → IsWorkOf W t work.old → OnOk result (IsSettledOf W t work.new) }
    ensures same { SettlesOnly work.old work.new }
    ensures steps { (l : HasLive kept.now tx) → IsCheckedOf l.world l.t checked.now → steps.new ≤ steps.old + (last l.world.history - checked.now.upto) }
{
    let _ = tx;
    work.settle()?;
    // Its clause bounds the number of accesses.
    let _ = work.room();
    Ok(decide(
        work.mode(),
        checked,
        work.reads(),
        work.writes(),
        &kept.notes,
        steps,
    ))
}
