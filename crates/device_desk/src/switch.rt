// The base of the image, moved to the floor.
ghost use Rattle.iso_model.specs.World.{World};
ghost use Rattle.script_model.specs.{declared.script.Op.TheVariants.{Compact, Upgrade}, Step.step};

use crate::table::Table;
use iso_disk::Disk;
use script_model::{Reply, Stop, refused};

impl<D: Disk> Table<D> {
    ghost use Rattle.iso_core.specs.Core.{disk_of};
    ghost use Rattle.iso_machine.specs.Answering.{Answers, Wanting};
    ghost use Rattle.device_desk.specs.Seats.{IsTableOf};

    /// The base moves to the floor, in the other half.
    pub(crate) fn compact(&mut self) -> Result<Reply, Stop>
        requires { (W : World) × IsTableOf D.state self.old W }
        ensures { (W : World) → IsTableOf D.state self.old W
            → Answers Wanting (IsTableOf D.state self.new) (D.state (disk_of self.old.core)) (D.state (disk_of self.new.core)) W (step W 0 Compact) result }
    {
        match self.core.compact() {
            Ok(floor) => Ok(Reply::Compacted(floor)),
            Err(error) => refused(error),
        }
    }

    /// So too, and the image gets form 2.
    pub(crate) fn upgrade(&mut self) -> Result<Reply, Stop>
        requires { (W : World) × IsTableOf D.state self.old W }
        ensures { (W : World) → IsTableOf D.state self.old W
            → Answers Wanting (IsTableOf D.state self.new) (D.state (disk_of self.old.core)) (D.state (disk_of self.new.core)) W (step W 0 Upgrade) result }
    {
        match self.core.upgrade() {
            Ok(floor) => Ok(Reply::Upgraded(floor)),
            Err(error) => refused(error),
        }
    }
}
