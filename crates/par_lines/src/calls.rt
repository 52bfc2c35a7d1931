// The line that ends a client's transaction.
ghost use Rattle.std.specs.Prelude.{◌≡◌, ◌<◌};
ghost use Rattle.script_model.specs.declared.script.Op.TheVariants.{End};
ghost use Rattle.par_lines.specs.Answers.{Answered};

use crate::replies::{ended, not_ended};
use counts::Steps;
use handle_pass::Session;
use iso_disk::Disk;
use iso_shared::Origin;
use script_model::{Reply, Stop};
use std::sync::Wait;
use std::sync::ledger::{Blank, Ledger};

/// Ends the transaction, with a count of its steps that nobody asks for. Before that it asks for the later commits and compares,
/// but where no commit can clash.
pub(crate) fn end<'a, L: Ledger, D: Disk + Drop, O: Origin, R: Wait>(
    blank: Blank,
    rt: &R,
    session: &mut Session<'a, D, O>,
) -> Result<Reply, Stop>
    requires name { blank.name ≡ L.name }
    requires parts { blank.parts ≡ L.parts }
    requires some { 0 < L.parts }
    ensures did { Answered O.start session.old End result session.new }
{
    let mut steps = Steps::<L>::start(blank);
    if session.cannot_clash() {
        return ended(session.end_tx(rt, &mut steps));
    }
    match session.check_tx(rt) {
        Ok(_) => ended(session.end_tx(rt, &mut steps)),
        Err(error) => not_ended(error),
    }
}
