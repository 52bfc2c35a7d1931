// Accesses of a transaction, and its calls of the stores.
ghost use Rattle.std.specs.Prelude.{OnOk, length};
ghost use Rattle.iso_model.specs.World.{World, attached};
ghost use Rattle.script_model.specs.{declared.script.Op.TheVariants.{Get, Put}, Operations.IsOp, Step.{in_transaction, step}};

use crate::table::Table;
use iso_disk::Disk;
use iso_machine::{act, get_into, put, store};
use script_model::{Op, Reply, Stop};

impl<D: Disk> Table<D> {
    ghost use Rattle.iso_core.specs.Core.{disk_of};
    ghost use Rattle.iso_machine.specs.{Accessing.{IsFilled, act_step, with_bytes}, Answering.{Always, Answers, AnswersTold}, Storing.store_act};
    ghost use Rattle.device_desk.specs.{Seats.IsTableOf, Sizes.StandsBeside};

    /// An access or a mark of the transaction of this number.
    #[inline(always)]
    pub(crate) fn access(&mut self, number: u64, op: &Op) -> Result<Reply, Stop>
        requires { (W : World) × IsTableOf D.state self.old W }
        ensures { (W : World) → IsTableOf D.state self.old W → IsOp op.now
            → Answers Always (IsTableOf D.state self.new) (D.state (disk_of self.old.core)) (D.state (disk_of self.new.core)) W (in_transaction W (attached W number) (λ t. act_step W t op.now)) result }
    {
        let Some(i) = self.place_at(number) else {
            return Ok(Reply::NotInTx);
        };
        let seat = &mut self.live[i];
        act(
            self.alloc,
            &mut self.core,
            seat.tx,
            &mut *seat.work,
            &mut self.buffer,
            op,
        )
    }

    /// A write of these bytes by the transaction of this number.
    pub(crate) fn put(
        &mut self,
        number: u64,
        block: u32,
        off: u32,
        bytes: &[u8],
    ) -> Result<Reply, Stop>
        requires stands { (W : World) × IsTableOf D.state self.old W }
        requires op { IsOp (Put block off bytes.now) }
        ensures { (W : World) → IsTableOf D.state self.old W
            → Answers Always (IsTableOf D.state self.new) (D.state (disk_of self.old.core)) (D.state (disk_of self.new.core)) W (step W number (Put block off bytes.now)) result }
    {
        let Some(i) = self.place_at(number) else {
            return Ok(Reply::NotInTx);
        };
        let seat = &mut self.live[i];
        match put(&mut *seat.work, block, off, bytes) {
            Ok(reply) => Ok(reply),
            Err(_) => Err(Stop::Memory),
        }
    }

    /// A read by the transaction of this number, of as many bytes as the slice has.
    pub(crate) fn get_into(
        &mut self,
        number: u64,
        block: u32,
        off: u32,
        into: &mut [u8],
    ) -> Result<Reply, Stop>
        requires { (W : World) × IsTableOf D.state self.old W }
        ensures answer { (W : World) → IsTableOf D.state self.old W
            → Answers Always (IsTableOf D.state self.new) (D.state (disk_of self.old.core)) (D.state (disk_of self.new.core)) W (step W number (Get block off (length into.old))) (with_bytes result into.new) }
        ensures filled { IsFilled result into.old into.new }
    {
        let Some(i) = self.place_at(number) else {
            return Ok(Reply::NotInTx);
        };
        let seat = &mut self.live[i];
        get_into(
            &mut self.core,
            seat.tx,
            &mut *seat.work,
            &mut self.buffer,
            block,
            off,
            into,
        )
    }

    /// An operation on a store by the transaction of this number.
    pub(crate) fn stored(&mut self, number: u64, op: &Op) -> Result<Reply, Stop>
        requires { (W : World) × IsTableOf D.state self.old W }
        ensures answer { (W : World) → IsTableOf D.state self.old W
            → AnswersTold Always (IsTableOf D.state self.new) (D.state (disk_of self.old.core)) (D.state (disk_of self.new.core)) W (in_transaction W (attached W number) (λ t. store_act W t op.now)) ⊥ result }
        ensures beside { (W : World) → IsTableOf D.state self.old W
            → OnOk result (StandsBeside (IsTableOf D.state self.new) (D.state (disk_of self.old.core)) W (in_transaction W (attached W number) (λ t. store_act W t op.now)).1) }
    {
        let Some(i) = self.place_at(number) else {
            return Ok(Reply::NotInTx);
        };
        let seat = &mut self.live[i];
        store(self.alloc, &mut self.core, seat.tx, &mut *seat.work, op)
    }
}
