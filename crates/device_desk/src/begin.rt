// Transactions that begin.
ghost use Rattle.std.specs.Prelude.{◌≡◌, IfOk, ℕ};
ghost use Rattle.iso_model.specs.World.{World};
ghost use Rattle.script_model.specs.{declared.script.Op.TheVariants.Begin, Step.step};

use crate::seat::Seat;
use crate::table::Table;
use iso_disk::Disk;
use iso_machine::{keep_spare, take_work};
use iso_model::Mode;
use script_model::{Reply, Stop, refused};

impl<D: Disk> Table<D> {
    ghost use Rattle.iso_core.specs.Core.{disk_of};
    ghost use Rattle.iso_machine.specs.Answering.{Always, Answers};
    ghost use Rattle.device_desk.specs.Seats.{IsTableOf};

    /// A transaction begins, in the mode that is named, or else in the image's. Its number is told.
    pub(crate) fn begin(&mut self, mode: Option<Mode>, number: &mut u64) -> Result<Reply, Stop>
        requires { (W : World) × IsTableOf D.state self.old W }
        ensures answer { (W : World) → IsTableOf D.state self.old W
            → Answers Always (IsTableOf D.state self.new) (D.state (disk_of self.old.core)) (D.state (disk_of self.new.core)) W (step W W.next (Begin mode)) result }
        ensures number { (W : World) (at : ℕ) → IsTableOf D.state self.old W → result ≡ Ok (Reply.Began at) → number.new ≡ W.next }
    {
        if let Err(_) = self.live.reserve(1) {
            return Err(Stop::Memory);
        }
        let mut geometry = self.core.geometry();
        let mut work = match take_work(self.alloc, &mut self.spare, &geometry) {
            Ok(work) => work,
            Err(_) => return Err(Stop::Memory),
        };
        let begun = match self.core.begin(mode) {
            Ok(begun) => begun,
            Err(error) => {
                keep_spare(&mut self.spare, work);
                return refused(error);
            }
        };
        geometry.mode = begun.mode;
        work.restart(begun.at, &geometry);
        self.live.push_reserved(Seat { tx: begun.tx, work });
        *number = begun.tx;
        Ok(Reply::Began(begun.at))
    }
}
