// The check ahead of the turn of an end.
ghost use Rattle.std.specs.{Prelude.{◌≡◌, ℕ, ◌<◌, ◌⊎◌, IfErr, IfOk, true}, Bool.OnTrue};
ghost use Rattle.iso_model.specs.declared.core_error.CoreError.TheVariants.{Memory as OfMemory};
ghost use Rattle.tx_table.specs.Work.{AreWithin};
ghost use Rattle.iso_shared.specs.declared.entry.Call.TheVariants as TheCall;
ghost use Rattle.iso_shared.specs.{declared.entry.Entry.TheVariants.{Recent as OfRecent, Refused}, Ports.{CannotClash, IsMeeting, IsRecent, IsSameTx, IsTx, Made, check_of, doing_of, number_of, state_of, tx_view}, Told.{cause_of, recent_entry}};

use crate::guarded::Origin;
use crate::shared::Shared;
use crate::told::Told;
use crate::tx::Tx;
use conflict_rule::{Checked, Notes, decide};
use counts::{Ledger, Steps};
use iso_core::Recent;
use iso_disk::Disk;
use iso_model::{Clash, CoreError, Mode};
use std::marker::Brand;
use std::snapshot::Snapshot;
use std::sync::Wait;
use std::sync::ledger::Blank;
use tx_table::Work;

impl<D: Disk + Drop, O: Origin> Shared<D, O> {
    /// The commits after those that the transaction was checked against, for a check ahead of the turn of its end.
    ///
    /// # Errors
    ///
    /// As those of `Core::recent`: `Down` and `Memory`. What the transaction has done and was checked against stays.
    pub fn recent<R: Wait>(&self, rt: &R, tx: &mut Tx<D, O>) -> Result<Recent, CoreError>
        requires tx { IsTx self.now O.start tx.old }
        ensures tx { IsTx self.now O.start tx.new }
        ensures same { IsSameTx tx.old tx.new × (doing_of tx.new ≡ doing_of tx.old) × ((tx_view tx.new).units ≡ (tx_view tx.old).units) }
        ensures made { (before : ℕ) × (now : ℕ) × Made O.start (tx_view tx.old) (tx_view tx.old) (recent_entry before now (number_of tx.old) result) (tx_view tx.new) }
        ensures recent { IfOk result (IsRecent (state_of O.start tx.new) (check_of tx.new)) }
    {
        let mut turn = self.lock.take(rt, &mut tx.pass);
        let guarded = turn.value();
        let before = Snapshot::of(&guarded.core);
        let result = guarded.core.recent(tx.number, tx.checked.upto);
        self.give(&mut tx.pass, turn, before, Told::Recent(tx.number, &result));
        result
    }

    /// Compares what the transaction did with the commits since, ahead of the turn of its end, and answers up to which one.
    /// It is `recent` and `Tx::check` in one.
    ///
    /// # Errors
    ///
    /// `Down`, and want of memory. It is checked as far as before.
    pub fn check<R: Wait>(&self, rt: &R, tx: &mut Tx<D, O>) -> Result<u64, CoreError>
        requires tx { IsTx self.now O.start tx.old }
        ensures tx { IsTx self.now O.start tx.new }
        ensures same { (number_of tx.new ≡ number_of tx.old) × (doing_of tx.new ≡ record (doing_of tx.old) { settled = (doing_of tx.new).settled }) × ((tx_view tx.new).units ≡ (tx_view tx.old).units) }
        ensures ok { IfOk result (λ upto. ((check_of tx.new).upto ≡ upto) × Made O.start (tx_view tx.old) (tx_view tx.old) (OfRecent (number_of tx.old) upto) (tx_view tx.new)) }
        ensures err { IfErr result (λ e. (check_of tx.new ≡ check_of tx.old)
            × (((before : ℕ) × (now : ℕ) × Made O.start (tx_view tx.old) (tx_view tx.old) (Refused (TheCall.Recent (number_of tx.old)) (cause_of before now e)) (tx_view tx.new))
            ⊎ ((e ≡ OfMemory) × (upto : ℕ) × Made O.start (tx_view tx.old) (tx_view tx.old) (OfRecent (number_of tx.old) upto) (tx_view tx.new)))) }
    {
        match self.recent(rt, tx) {
            Ok(recent) => match tx.check(recent) {
                Ok(upto) => Ok(upto),
                Err(_) => Err(CoreError::Memory),
            },
            Err(error) => Err(error),
        }
    }
}

// Whether a transaction can clash with no commit: it wrote nothing, or in serial mode it read nothing.
pub(crate) fn clashes_never(work: &Work) -> bool
    requires settled { work.now.settled ≡ true }
    requires within { AreWithin work.now.size work.now.blocks work.now.accesses }
    ensures { OnTrue result (CannotClash work.now) }
{
    let _ = work.block_size();
    if work.writes().is_empty() {
        return true;
    }
    match work.mode() {
        Mode::Serial => work.reads().is_empty(),
        Mode::Snapshot => false,
    }
}

// How a transaction meets the commits that these notes tell, if it does.
pub(crate) fn meeting(work: &Work, checked: &Checked, notes: &Notes) -> Option<Clash>
    requires { work.now.settled ≡ true }
    ensures { IsMeeting work.now checked.now notes.now.notes result }
{
    meeting_in::<Brand>(Blank::new(1), work, checked, notes)
}

// The same over a ledger of its own, in which the steps are counted.
fn meeting_in<L: Ledger>(
    blank: Blank,
    work: &Work,
    checked: &Checked,
    notes: &Notes,
) -> Option<Clash>
    requires name { blank.name ≡ L.name }
    requires parts { blank.parts ≡ L.parts }
    requires some { 0 < L.parts }
    requires settled { work.now.settled ≡ true }
    ensures { IsMeeting work.now checked.now notes.now.notes result }
{
    let mut steps = Steps::<L>::start(blank);
    decide(
        work.mode(),
        checked,
        work.reads(),
        work.writes(),
        notes,
        &mut steps,
    )
}
