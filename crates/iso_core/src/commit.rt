// The commit of a transaction.
ghost use Rattle.std.specs.Prelude.{None};
ghost use Rattle.iso_model.specs.Step.{after_commit, commit_step};
ghost use Rattle.iso_core.specs.{Ends.{EndsAs, EndsWith, HasGrown, HasNextCommit}, Kept.BecomesTidy};

use crate::append::append;
use crate::kept::Kept;
use crate::leave::leave;
use crate::prepare::{prepare, spell_as};
use byte_marks::Touched;
use iso_disk::Disk;
use iso_model::{CoreError, EndReply, LAST};
use tx_table::Work;
use version_read::add_parts;

/// Takes in a commit whose record was appended at a gate: its versions, its note, and no transaction any more.
fn take_in(kept: &mut Kept, tx: u64, gate: u64, writes: Touched)
    requires { HasGrown tx kept.old gate writes }
    ensures { (h : HasGrown tx kept.old gate writes) → BecomesTidy kept.old kept.new (after_commit h.world h.t) }
{
    let number = kept.log.last();
    add_parts(&mut kept.index, number, gate, kept.parts.as_slice());
    kept.notes.add(number, writes);
    kept.live.leave(tx);
    let floor = kept.live.floor(number);
    kept.notes.drop_to(floor);
}

/// Commits a transaction that has a write and no clash.
pub(crate) fn commit<D: Disk>(
    kept: &mut Kept,
    disk: &mut D,
    tx: u64,
    work: &mut Work,
) -> Result<EndReply, CoreError>
    requires { HasNextCommit (D.state disk.old) kept.old tx work.old }
    ensures ends { (n : HasNextCommit (D.state disk.old) kept.old tx work.old) → EndsAs n.world n.t (commit_step n.world n.t None) (D.state disk.old) (D.state disk.new) kept.new result }
    ensures rest { EndsWith D.state disk.old disk.new kept.old kept.new work.old work.new result }
{
    let last = kept.log.last();
    if last >= LAST {
        return Err(CoreError::Worn { at: LAST });
    }
    if let Err(_) = spell_as(kept, work, last + 1) {
        return Err(CoreError::Memory);
    }
    let need = kept.buffer.with_closed_gate().len() as u64;
    let free = u64::from(kept.log.free());
    if free < need {
        return Err(CoreError::LogFull { need, free });
    }
    let Ok(writes) = prepare(kept, tx, work) else {
        return Err(CoreError::Memory);
    };
    let bytes = kept.buffer.with_closed_gate();
    match append(&mut kept.log, disk, bytes) {
        Ok(gate) => {
            take_in(kept, tx, gate, writes);
            Ok(EndReply::Committed(last + 1))
        }
        Err(_) => {
            kept.down = true;
            leave(kept, tx);
            Err(CoreError::Disk)
        }
    }
}
