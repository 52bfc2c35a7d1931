// The base of the image, moved to the floor.
ghost use Rattle.script_model.specs.{declared.script.Op.TheVariants.{Compact, Upgrade}, Step.step};

use crate::machine::Machine;
use iso_disk::Disk;
use script_model::{Reply, Stop, refused};

impl<D: Disk> Machine<D> {
    ghost use Rattle.iso_machine.specs.{Answering.{AnswersFrom, Wanting}, Standing.IsMachine};

    /// The base moves to the floor, in the other half.
    pub(crate) fn compact(&mut self) -> Result<Reply, Stop>
        requires { IsMachine D.state self.old }
        ensures { AnswersFrom Wanting D.state self.old self.new (λ W. step W 1 Compact) result }
    {
        match self.core.compact() {
            Ok(floor) => Ok(Reply::Compacted(floor)),
            Err(error) => refused(error),
        }
    }

    /// So too, and the image gets form 2.
    pub(crate) fn upgrade(&mut self) -> Result<Reply, Stop>
        requires { IsMachine D.state self.old }
        ensures { AnswersFrom Wanting D.state self.old self.new (λ W. step W 1 Upgrade) result }
    {
        match self.core.upgrade() {
            Ok(floor) => Ok(Reply::Upgraded(floor)),
            Err(error) => refused(error),
        }
    }
}
