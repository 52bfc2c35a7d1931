// What each operation of a transaction is answered.
ghost use Rattle.script_model.specs.{Operations.IsOp, Step.step};
ghost use Rattle.iso_model.specs.World.{World};
ghost use Rattle.device_desk.specs.Device.{IsAsked};

use crate::table::Table;
use iso_disk::Disk;
use script_model::{Op, Reply, Stop};

impl<D: Disk> Table<D> {
    ghost use Rattle.iso_core.specs.Core.{disk_of};
    ghost use Rattle.iso_machine.specs.Answering.{AnswersTold};
    ghost use Rattle.script_runner.specs.{Stopped.GoesOn, Told.IsPlain};
    ghost use Rattle.device_desk.specs.Seats.{IsTableOf};

    /// Does what is asked for of the transaction of this number, or of the image, and answers it.
    #[inline(always)]
    pub(crate) fn ask(&mut self, number: u64, op: &Op) -> Result<Reply, Stop>
        requires stands { (W : World) × IsTableOf D.state self.old W }
        requires op { IsOp op.now }
        requires asked { IsAsked op.now }
        ensures { (W : World) → IsTableOf D.state self.old W → IsOp op.now
            → AnswersTold (GoesOn op.now) (IsTableOf D.state self.new) (D.state (disk_of self.old.core)) (D.state (disk_of self.new.core)) W (step W number op.now) (IsPlain op.now) result }
    {
        match op {
            Op::Put { .. }
            | Op::Read { .. }
            | Op::Get { .. }
            | Op::Write { .. }
            | Op::Fill { .. }
            | Op::Mark { .. } => self.access(number, op),
            Op::End => self.end(number),
            Op::Abort => self.abort(number),
            Op::Trim => self.trim(),
            Op::Stat => Ok(self.stat()),
            Op::Compact => self.compact(),
            Op::Upgrade => self.upgrade(),
            Op::HashPut { .. }
            | Op::HashGet { .. }
            | Op::HashDelete { .. }
            | Op::TreePut { .. }
            | Op::TreeGet { .. }
            | Op::TreeDelete { .. }
            | Op::TreeScan { .. }
            | Op::FileNew { .. }
            | Op::FileWrite { .. }
            | Op::FileRead { .. }
            | Op::FileMove { .. }
            | Op::FileDelete { .. } => self.stored(number, op),
            Op::Begin { .. }
            | Op::Release { .. }
            | Op::Takeover { .. }
            | Op::Await { .. }
            | Op::Group { .. } => unreachable!(),
        }
    }
}
