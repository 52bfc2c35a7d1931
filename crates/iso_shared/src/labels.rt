// The calls on labels.
ghost use Rattle.std.specs.Prelude.{◌≡◌, ◌+◌, ◌<◌, [], Some, None, length, IfErr, IfOk, IfNone, IfSome, MatchOption};
ghost use Rattle.iso_shared.specs.declared.entry.Call.TheVariants as TheCall;
ghost use Rattle.iso_shared.specs.{declared.entry.Entry.TheVariants.{Look, Post, Refused, Sweep}, Ports.{IsPort, IsSameTx, IsTx, Made, MadeBoth, check_of, doing_of, number_of, port_view, tx_view}, Told.{post_cause, posting_of_tx}};
ghost use Rattle.turn_lock.specs.Lists.{places};

use crate::guarded::{Origin, Posted};
use crate::shared::{Port, Shared};
use crate::told::Told;
use crate::tx::Tx;
use conflict_rule::Checked;
use iso_disk::Disk;
use iso_model::{LAST, Label};
use std::snapshot::Snapshot;
use std::sync::Wait;
use tx_table::PostError;

impl<D: Disk + Drop, O: Origin> Shared<D, O> {
    /// Puts a transaction under a label, and its units go to the port.
    ///
    /// # Errors
    ///
    /// The transaction is handed back as it was, and the port is as before.
    /// - `LabelTaken`: another transaction is under the label.
    /// - `Memory`: want of memory.
    pub fn post<R: Wait>(
        &self,
        rt: &R,
        port: &mut Port<D, O>,
        label: Label,
        mut tx: Tx<D, O>,
    ) -> Result<(), (PostError, Tx<D, O>)>
        requires port { IsPort self.now port.old }
        requires tx { IsTx self.now O.start tx }
        ensures port { IsPort self.now port.new }
        ensures ok { IfOk result (λ _. MadeBoth O.start (port_view port.old) (tx_view tx) (Post (number_of tx) label (doing_of tx).accesses) (port_view port.new)
            × ((port_view port.new).units ≡ (port_view port.old).units + (tx_view tx).units)) }
        ensures err { IfErr result (λ e. IsTx self.now O.start e.1 × IsSameTx tx e.1 × ((tx_view e.1).units ≡ (tx_view tx).units) × (port_view port.new ≡ port_view port.old)
            × Made O.start (port_view port.old) (tx_view tx) (Refused (TheCall.Post (number_of tx) label (doing_of tx).accesses) (post_cause e.0)) (tx_view e.1)) }
    {
        self.tell_tx(port, &mut tx);
        let mut turn = self.lock.take(rt, &mut tx.pass);
        let guarded = turn.value();
        let before = Snapshot::of(&guarded.core);
        let Tx {
            mut pass,
            number,
            work,
            checked,
        } = tx;
        let posted = Posted { number, work };
        let name = Snapshot::of(&label);
        let item = Snapshot::of(&posted);
        match guarded.rack.post(label, posted) {
            Ok(()) => {
                self.give(&mut pass, turn, before, Told::Post(name, item, Ok(())));
                self.take_back(port, pass);
                Ok(())
            }
            Err((error, Posted { number, work })) => {
                self.give(&mut pass, turn, before, Told::Post(name, item, Err(error)));
                Err((
                    error,
                    Tx {
                        pass,
                        number,
                        work,
                        checked,
                    },
                ))
            }
        }
    }

    /// Takes the transaction under a label, with one of the units of the port, which has two at least; none exactly
    /// where the label is not held. Nothing of it is checked ahead. It takes no memory.
    pub fn look<R: Wait>(&self, rt: &R, port: &mut Port<D, O>, label: &Label) -> Option<Tx<D, O>>
        requires port { IsPort self.now port.old × (1 < (port_view port.old).units) }
        ensures port { IsPort self.now port.new }
        ensures tx { IfSome result (λ t. IsTx self.now O.start t × ((tx_view t).seen ≡ (port_view port.new).seen) × ((tx_view t).mine ≡ []) × ((tx_view t).units ≡ 1)) }
        ensures found { IfSome result (λ t. Made O.start (port_view port.old) (port_view port.old) (Look label.now (Some (posting_of_tx (number_of t) (doing_of t)))) (port_view port.new)) }
        ensures checked { IfSome result (λ t. check_of t ≡ record { upto = (doing_of t).begin; clash = None }) }
        ensures none { IfNone result (Made O.start (port_view port.old) (port_view port.old) (Look label.now None) (port_view port.new)) }
        ensures units { MatchOption result ((port_view port.new).units ≡ (port_view port.old).units) (λ _. (port_view port.new).units + 1 ≡ (port_view port.old).units) }
    {
        let mut turn = self.lock.take(rt, &mut port.pass);
        let guarded = turn.value();
        let before = Snapshot::of(&guarded.core);
        let found = guarded.rack.look(label);
        self.give(&mut port.pass, turn, before, Told::Look(label, &found));
        match found {
            Some(Posted { number, work }) => {
                let pass = self.lock.split(&mut port.pass, Some(number), 1);
                let upto = work.begun_at();
                Some(Tx {
                    pass,
                    number,
                    work,
                    checked: Checked { upto, clash: None },
                })
            }
            None => None,
        }
    }

    /// Aborts the transaction that was put under its label first, and answers its number; none exactly where no label is held.
    /// It takes no memory.
    pub fn sweep<R: Wait>(&self, rt: &R, port: &mut Port<D, O>) -> Option<u64>
        requires port { IsPort self.now port.old }
        ensures port { IsPort self.now port.new }
        ensures made { Made O.start (port_view port.old) (port_view port.old) (Sweep result) (port_view port.new) }
        ensures units { (port_view port.new).units ≡ (port_view port.old).units }
        ensures all { (port_view port.new).units ≡ LAST → (port_view port.new).mine ≡ places (length (port_view port.new).seen) }
    {
        let mut turn = self.lock.take(rt, &mut port.pass);
        let guarded = turn.value();
        let before = Snapshot::of(&guarded.core);
        match guarded.rack.pop() {
            Some(item) => {
                let number = item.number;
                guarded.core.abort(number);
                self.give(&mut port.pass, turn, before, Told::Sweep(Some(number)));
                Some(number)
            }
            None => {
                self.give(&mut port.pass, turn, before, Told::Sweep(None));
                None
            }
        }
    }
}
