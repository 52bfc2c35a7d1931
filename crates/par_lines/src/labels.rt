// The line that waits for a transaction under a label.
ghost use Rattle.std.specs.Prelude.{◌<◌};
ghost use Rattle.script_model.specs.declared.script.Op.TheVariants.{Await};
ghost use Rattle.par_lines.specs.Answers.{Answered};

use handle_pass::Session;
use iso_disk::Disk;
use iso_model::Label;
use iso_shared::Origin;
use par_script::MAX_LOOKS;
use script_model::{Reply, Stop};
use std::sync::Wait;
use std::thread;

/// Looks for the label until it is held, or so often as an await does, and takes the transaction over.
pub(crate) fn await_label<'a, D: Disk + Drop, O: Origin, R: Wait>(
    rt: &R,
    session: &mut Session<'a, D, O>,
    label: &Label,
) -> Result<Reply, Stop>
    requires units { 1 < session.old.units }
    ensures did { Answered O.start session.old (Await label.now) result session.new }
{
    if session.mode().is_some() {
        return Ok(Reply::InTx);
    }
    for round in 0..MAX_LOOKS {
        let _ = round;
        match session.look_tx(rt, label) {
            Ok(Some(at)) => return Ok(Reply::Began(at)),
            // It holds nothing between two looks, so that others go on first hurts nobody.
            Ok(None) => thread::yield_now(),
            Err(_) => return Ok(Reply::InTx),
        }
    }
    Ok(Reply::NoHandle)
}
