// The end of a transaction, in one turn.
ghost use Rattle.std.specs.Prelude.{◌≡◌, ◌≢◌, ◌+◌, ℕ, IfOk, IfErr, IfSome, IfNone, MatchOption, MatchResult};
ghost use mathlib.Core.List.{IsPrefix};
ghost use Rattle.iso_model.specs.declared.core_error.CoreError.TheVariants.{Disk as OfDisk};
ghost use Rattle.iso_shared.specs.declared.entry.Call.TheVariants as TheCall;
ghost use Rattle.iso_shared.specs.{declared.entry.Entry.TheVariants.{End, Refused}, Groups.IsWithin, Ports.{IsIdle, IsPort, IsSameTx, IsTx, Made, MadeBoth, TookFew, check_of, doing_of, number_of, port_moments, port_view, tx_view}, Told.{cause_of, end_entry}};

use crate::guarded::Origin;
use crate::shared::{Port, Shared};
use crate::told::Told;
use crate::tx::Tx;
use counts::{Ledger, Steps};
use iso_disk::Disk;
use iso_model::{CoreError, EndReply};
use std::snapshot::Snapshot;
use std::sync::Wait;
use tx_table::Work;

// Settles the work ahead of the turn. Where memory is wanting, the end says so.
fn settle(work: &mut Work)
    ensures work { work.new ≡ record work.old { settled = work.new.settled } }
    ensures within { IsWithin work.new }
{
    let _ = work.settle();
    let _ = work.room();
}

impl<D: Disk + Drop, O: Origin> Shared<D, O> {
    // The turn of an end. Where a fault of the disk did not end it, the transaction is as before.
    fn end_in_turn<L: Ledger, R: Wait>(
        &self,
        rt: &R,
        tx: &mut Tx<D, O>,
        steps: &mut Steps<L>,
    ) -> Result<EndReply, CoreError>
        requires tx { IsTx self.now O.start tx.old }
        ensures pass { IsIdle self.now.lock tx.new.pass }
        ensures units { (tx_view tx.new).units ≡ (tx_view tx.old).units }
        ensures tx { IfErr result (λ e. e ≢ OfDisk → IsTx self.now O.start tx.new) }
        ensures same { IsSameTx tx.old tx.new }
        ensures made { (before : ℕ) × (now : ℕ) × Made O.start (tx_view tx.old) (tx_view tx.old) (end_entry before now (number_of tx.old) (doing_of tx.old).accesses result) (tx_view tx.new) }
        ensures steps { TookFew O.start (tx_view tx.new).seen (check_of tx.old).upto steps.old steps.new }
    {
        settle(&mut tx.work);
        let mut turn = self.lock.take(rt, &mut tx.pass);
        let guarded = turn.value();
        let before = Snapshot::of(&guarded.core);
        let result = guarded
            .core
            .end(tx.number, &mut tx.work, &tx.checked, steps);
        self.give(
            &mut tx.pass,
            turn,
            before,
            Told::End(tx.number, &tx.work, result),
        );
        result
    }

    /// Ends a transaction, as the core does at this turn. Its units go to the port.
    ///
    /// # Errors
    ///
    /// As those of `Core::end`.
    /// - After `Disk` there is no transaction, and its units go to the port too.
    /// - After any other it is handed back as it was, and the port is as before.
    pub fn end<L: Ledger, R: Wait>(
        &self,
        rt: &R,
        port: &mut Port<D, O>,
        mut tx: Tx<D, O>,
        steps: &mut Steps<L>,
    ) -> Result<EndReply, (CoreError, Option<Tx<D, O>>)>
        requires port { IsPort self.now port.old }
        requires tx { IsTx self.now O.start tx }
        ensures port { IsPort self.now port.new }
        ensures ok { IfOk result (λ r. MadeBoth O.start (port_view port.old) (tx_view tx) (End (number_of tx) (doing_of tx).accesses r) (port_view port.new)
            × ((port_view port.new).units ≡ (port_view port.old).units + (tx_view tx).units)) }
        ensures gone { IfErr result (λ e. IfNone e.1 ((e.0 ≡ OfDisk) × ((port_view port.new).units ≡ (port_view port.old).units + (tx_view tx).units)
            × ((before : ℕ) × (now : ℕ) × MadeBoth O.start (port_view port.old) (tx_view tx) (Refused (TheCall.End (number_of tx) (doing_of tx).accesses) (cause_of before now e.0)) (port_view port.new)))) }
        ensures kept { IfErr result (λ e. IfSome e.1 (λ t. (e.0 ≢ OfDisk) × IsTx self.now O.start t × IsSameTx tx t × ((tx_view t).units ≡ (tx_view tx).units) × (port_view port.new ≡ port_view port.old)
            × ((before : ℕ) × (now : ℕ) × Made O.start (port_view port.old) (tx_view tx) (Refused (TheCall.End (number_of tx) (doing_of tx).accesses) (cause_of before now e.0)) (tx_view t)))) }

        // The moments at which the turns ended that the port has seen stay, and the moment of this turn comes behind them.
        ensures past { IsPrefix (port_moments port.old) (port_moments port.new) }

        // A step is a commit looked at: those that were checked ahead are not looked at again.
        ensures steps { MatchResult result (λ _. TookFew O.start (port_view port.new).seen (check_of tx).upto steps.old steps.new)
            (λ e. MatchOption e.1 (TookFew O.start (port_view port.new).seen (check_of tx).upto steps.old steps.new) (λ t. TookFew O.start (tx_view t).seen (check_of tx).upto steps.old steps.new)) }
    {
        self.tell_tx(port, &mut tx);
        match self.end_in_turn(rt, &mut tx, steps) {
            Ok(reply) => {
                self.spend(port, tx);
                Ok(reply)
            }
            Err(error) => match error {
                CoreError::Disk => {
                    self.spend(port, tx);
                    Err((CoreError::Disk, None))
                }
                other => Err((other, Some(tx))),
            },
        }
    }
}
