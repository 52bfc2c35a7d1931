// Transactions that end.
ghost use Rattle.std.specs.Prelude.{◌≡◌, ◌≢◌, ◌⊎◌, ◌<◌, IfErr, IfOk, OnOk};
ghost use Rattle.iso_disk.specs.Disk.{LeavesOnly, StaysTold};
ghost use Rattle.script_model.specs.{declared.script.Op.TheVariants.{Abort, End}, CoreReplies.as_reply, Step.step};
ghost use Rattle.iso_model.specs.{Step.end_step, World.{World, Live}, Between.ShowsEither};
ghost use Rattle.iso_core.specs.{Calls.{BlamesDisk, IsTx, IsWorkOf, Refuses, Writes, reply_of}, Core.{StandsFor, disk_of}, Standing.up};

use crate::machine::Machine;
use conflict_rule::Checked;
use counts::Steps;
use iso_core::{Core, MAX_GROUP};
use iso_disk::Disk;
use iso_model::{CoreError, EndReply};
use script_model::{Reply, Stop, refused};
use std::marker::Brand;
use std::sync::ledger::{Blank, Ledger};
use tx_table::Work;

/// Ends a transaction of a core that is up, of which nothing was checked ahead.
///
/// # Errors
///
/// As those of `Core::end`.
pub fn end_whole<L: Ledger, D: Disk>(
    blank: Blank,
    core: &mut Core<D>,
    tx: u64,
    work: &mut Work,
) -> Result<EndReply, CoreError>
    requires name { blank.name ≡ L.name }
    requires parts { blank.parts ≡ L.parts }
    requires some { 0 < L.parts }
    requires stands { (W : World) × (t : Live) × StandsFor D.state core.old W up × IsTx W tx t × IsWorkOf W t work.old }
    ensures ended { (W : World) (t : Live) → StandsFor D.state core.old W up → IsTx W tx t → IsWorkOf W t work.old
        → IfOk result (λ r. ((end_step W t).0 ≡ reply_of r) × StandsFor D.state core.new (end_step W t).1 up) }
    ensures refused { (W : World) (t : Live) → StandsFor D.state core.old W up → IsTx W tx t → IsWorkOf W t work.old
        → IfErr result (λ e. (e ≡ CoreError.Disk) ⊎ Refuses (end_step W t).0 e) }
    ensures same { (W : World) → StandsFor D.state core.old W up → IfErr result (λ e. e ≢ CoreError.Disk → StandsFor D.state core.new W up) }
    ensures moments { (W : World) (t : Live) → StandsFor D.state core.old W up → IsTx W tx t → IsWorkOf W t work.old
        → LeavesOnly (D.state (disk_of core.old)) (D.state (disk_of core.new)) (ShowsEither W (end_step W t).1) }
    ensures unwritten { Writes result ⊎ (disk_of core.new ≡ disk_of core.old) }
    ensures work { work.new ≡ record work.old { settled = work.new.settled } }
    ensures told { OnOk result (StaysTold (D.state (disk_of core.old)) (D.state (disk_of core.new))) }
    ensures cause { BlamesDisk (D.state (disk_of core.old)).faults (D.state (disk_of core.new)).faults result }
{
    let checked = Checked {
        upto: work.begun_at(),
        clash: None,
    };
    let mut steps = Steps::<L>::start(blank);
    core.end(tx, work, &checked, &mut steps)
}

/// The reply for the end of a transaction.
fn ended(reply: EndReply) -> Reply
    ensures { result ≡ as_reply (reply_of reply) }
{
    match reply {
        EndReply::Committed(number) => Reply::Committed(number),
        EndReply::ReadOnly => Reply::ReadOnly,
        EndReply::Conflict(clash) => Reply::Conflict(clash),
    }
}

/// How many transactions may leave their memory to later ones: as many as end in one group.
const MOST_SPARE: usize = MAX_GROUP;

/// Keeps the memory of a transaction that has left for a later one, unless there is enough.
pub fn keep_spare(spare: &mut Vec<Box<Work>>, work: Box<Work>) {
    if spare.len() < MOST_SPARE {
        // Without memory for the list it is let go.
        let _ = spare.push(work);
    }
}

impl<D: Disk> Machine<D> {
    ghost use Rattle.iso_machine.specs.{Answering.{Always, AnswersFrom, Wanting}, Standing.IsMachine};

    /// A client's transaction ends: it is gone, and a commit where it has a write and no conflict. Where its commit has no
    /// room or no number it stays.
    pub(crate) fn end(&mut self, client: u8) -> Result<Reply, Stop>
        requires { IsMachine D.state self.old }
        ensures { AnswersFrom Wanting D.state self.old self.new (λ W. step W client End) result }
    {
        let Some(i) = self.place_at(client) else {
            return Ok(Reply::NotInTx);
        };
        let attached = &mut self.live[i];
        let reply = match end_whole::<Brand, D>(
            Blank::new(1),
            &mut self.core,
            attached.tx,
            &mut *attached.work,
        ) {
            Ok(reply) => reply,
            Err(error) => return refused(error),
        };
        let gone = self.live.remove(i);
        self.finder.set_client(client, None);
        keep_spare(&mut self.spare, gone.work);
        Ok(ended(reply))
    }

    /// A client's transaction is gone, with all that it did.
    pub(crate) fn abort(&mut self, client: u8) -> Result<Reply, Stop>
        requires { IsMachine D.state self.old }
        ensures { AnswersFrom Always D.state self.old self.new (λ W. step W client Abort) result }
    {
        let Some(i) = self.place_at(client) else {
            return Ok(Reply::NotInTx);
        };
        let gone = self.live.remove(i);
        self.finder.set_client(client, None);
        self.core.abort(gone.tx);
        keep_spare(&mut self.spare, gone.work);
        Ok(Reply::Done)
    }
}
