// What each operation of a client is answered.
ghost use Rattle.std.specs.Prelude.{◌≡◌};
ghost use Rattle.script_model.specs.{declared.script.Op.TheVariants.Trim, Step.{in_transaction, numbers, step}, Operations.IsOp};
ghost use Rattle.iso_model.specs.World.{World, attached};

use crate::acting::act_reusing;
use crate::machine::Machine;
use crate::storing::store;
use iso_disk::Disk;
use script_model::{Op, Reply, Stop};

impl<D: Disk> Machine<D> {
    ghost use Rattle.iso_machine.specs.{Accessing.act_step, Answering.{Always, AnswersFrom, AnswersToldFrom}, Standing.{IsMachine, IsMachineOf}, Storing.store_act};
    ghost use Rattle.script_runner.specs.{Stopped.GoesOn, Told.IsPlain};

    /// An access or a mark of a client's transaction.
    fn access(&mut self, client: u8, op: &Op, spare: &mut Vec<u8>) -> Result<Reply, Stop>
        requires { IsMachine D.state self.old }
        ensures { IsOp op.now → AnswersFrom Always D.state self.old self.new (λ W. in_transaction W (attached W client) (λ t. act_step W t op.now)) result }
    {
        let Some(i) = self.place_at(client) else {
            return Ok(Reply::NotInTx);
        };
        let attached = &mut self.live[i];
        act_reusing(
            self.alloc,
            &mut self.core,
            attached.tx,
            &mut *attached.work,
            &mut self.buffer,
            spare,
            op,
        )
    }

    /// Lets the versions go that no transaction can be shown any more.
    fn trim(&mut self) -> Result<Reply, Stop>
        requires { IsMachine D.state self.old }
        ensures { AnswersFrom Always D.state self.old self.new (λ W. step W 1 Trim) result }
    {
        match self.core.trim() {
            Ok(at) => Ok(Reply::Trimmed(at)),
            Err(_) => unreachable!(),
        }
    }

    /// The numbers of the image.
    fn stat(&self) -> Reply
        ensures { (W : World) → IsMachineOf D.state self.now W → result ≡ numbers W }
    {
        let stat = self.core.stat();
        Reply::Numbers {
            last: stat.last,
            base: stat.base,
            trim: stat.trim,
            live: stat.live,
            used: stat.used,
            versions: stat.versions,
        }
    }

    /// An operation on a store by a client's transaction.
    fn stored(&mut self, client: u8, op: &Op) -> Result<Reply, Stop>
        requires { IsMachine D.state self.old }
        ensures { AnswersToldFrom Always D.state self.old self.new (λ W. in_transaction W (attached W client) (λ t. store_act W t op.now)) ⊥ result }
    {
        let Some(i) = self.place_at(client) else {
            return Ok(Reply::NotInTx);
        };
        let attached = &mut self.live[i];
        store(
            self.alloc,
            &mut self.core,
            attached.tx,
            &mut *attached.work,
            op,
        )
    }

    /// Does what a client asks for, and answers it. The bytes that a get shows take the spare memory.
    #[inline(always)]
    pub(crate) fn answer(&mut self, client: u8, op: &Op, spare: &mut Vec<u8>) -> Result<Reply, Stop>
        requires stands { IsMachine D.state self.old }
        requires op { IsOp op.now }
        ensures { AnswersToldFrom (GoesOn op.now) D.state self.old self.new (λ W. step W client op.now) (IsPlain op.now) result }
    {
        match op {
            Op::Put { .. }
            | Op::Read { .. }
            | Op::Get { .. }
            | Op::Write { .. }
            | Op::Fill { .. }
            | Op::Mark { .. } => self.access(client, op, spare),
            Op::Abort => self.abort(client),
            Op::Release { label } => self.release(client, label),
            Op::Takeover { label } | Op::Await { label } => self.takeover(client, label),
            Op::Group { labels } => self.group(client, labels.as_slice()),
            Op::Trim => self.trim(),
            Op::Stat => Ok(self.stat()),
            Op::Begin { mode } => self.begin(client, *mode),
            Op::End => self.end(client),
            Op::Compact => self.compact(),
            Op::Upgrade => self.upgrade(),
            Op::HashPut { .. }
            | Op::HashGet { .. }
            | Op::HashDelete { .. }
            | Op::TreePut { .. }
            | Op::TreeGet { .. }
            | Op::TreeDelete { .. }
            | Op::TreeScan { .. }
            | Op::FileNew { .. }
            | Op::FileWrite { .. }
            | Op::FileRead { .. }
            | Op::FileMove { .. }
            | Op::FileDelete { .. } => self.stored(client, op),
        }
    }
}
