// Transactions that end.
ghost use Rattle.std.specs.Prelude.{◌≡◌};
ghost use Rattle.iso_core.specs.Calls.{reply_of};
ghost use Rattle.iso_model.specs.World.{World};
ghost use Rattle.script_model.specs.{declared.script.Op.TheVariants.{Abort, End}, CoreReplies.as_reply, Step.step};

use crate::table::Table;
use iso_disk::Disk;
use iso_machine::{end_whole, keep_spare};
use iso_model::EndReply;
use script_model::{Reply, Stop, refused};
use std::marker::Brand;
use std::sync::ledger::Blank;

/// The reply that the end of a transaction stands for.
fn ended(reply: EndReply) -> Reply
    ensures { result ≡ as_reply (reply_of reply) }
{
    match reply {
        EndReply::Committed(number) => Reply::Committed(number),
        EndReply::ReadOnly => Reply::ReadOnly,
        EndReply::Conflict(clash) => Reply::Conflict(clash),
    }
}

impl<D: Disk> Table<D> {
    ghost use Rattle.iso_core.specs.Core.{disk_of};
    ghost use Rattle.iso_machine.specs.Answering.{Always, Answers, Wanting};
    ghost use Rattle.device_desk.specs.Seats.{IsTableOf};

    /// The transaction of this number ends: it is gone, and a commit where it has a write and no conflict. Where its commit
    /// has no room or no number it stays.
    #[inline(always)]
    pub(crate) fn end(&mut self, number: u64) -> Result<Reply, Stop>
        requires { (W : World) × IsTableOf D.state self.old W }
        ensures { (W : World) → IsTableOf D.state self.old W
            → Answers Wanting (IsTableOf D.state self.new) (D.state (disk_of self.old.core)) (D.state (disk_of self.new.core)) W (step W number End) result }
    {
        let Some(i) = self.place_at(number) else {
            return Ok(Reply::NotInTx);
        };
        let seat = &mut self.live[i];
        let reply = match end_whole::<Brand, D>(
            Blank::new(1),
            &mut self.core,
            seat.tx,
            &mut *seat.work,
        ) {
            Ok(reply) => reply,
            Err(error) => return refused(error),
        };
        let gone = self.live.remove(i);
        keep_spare(&mut self.spare, gone.work);
        Ok(ended(reply))
    }

    /// The transaction of this number is gone, with all that it did.
    pub(crate) fn abort(&mut self, number: u64) -> Result<Reply, Stop>
        requires { (W : World) × IsTableOf D.state self.old W }
        ensures { (W : World) → IsTableOf D.state self.old W
            → Answers Always (IsTableOf D.state self.new) (D.state (disk_of self.old.core)) (D.state (disk_of self.new.core)) W (step W number Abort) result }
    {
        let Some(i) = self.place_at(number) else {
            return Ok(Reply::NotInTx);
        };
        let gone = self.live.remove(i);
        self.core.abort(gone.tx);
        keep_spare(&mut self.spare, gone.work);
        Ok(Reply::Done)
    }
}
