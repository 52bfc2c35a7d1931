// The begin of a session's transaction, its end and its abort, and the check ahead of its end.
ghost use Rattle.std.specs.{Prelude.{◌≡◌, ◌<◌, IfOk}, Bool.OnTrue};
ghost use Rattle.handle_pass.specs.Calls.{CannotClash, HasAborted, HasBegun, HasChecked, HasEnded};

use crate::errors::{BeginError, EndError};
use crate::session::{Session, attach};
use counts::{Ledger, Steps};
use iso_disk::Disk;
use iso_model::{EndReply, Mode, NotInTx};
use iso_shared::Origin;
use std::sync::Wait;

impl<'a, D: Disk + Drop, O: Origin> Session<'a, D, O> {
    /// Begins a transaction in the mode that is named, or else in the image's, and answers its begin.
    ///
    /// # Errors
    ///
    /// - `InTx`: the session has a transaction.
    /// - `Core`: as `Core::begin` refuses, at this turn.
    pub fn begin_tx<R: Wait>(&mut self, rt: &R, mode: Option<Mode>) -> Result<u64, BeginError>
        requires units { 1 < self.old.units }
        ensures did { HasBegun O.start self.old mode result self.new }
        ensures checked { IfOk result (λ at. self.new.checked ≡ at) }
    {
        if self.tx.is_some() {
            return Err(BeginError::InTx);
        }
        match self.shared.begin(rt, &mut self.port, mode) {
            Ok(tx) => {
                let at = tx.at();
                attach(&mut self.tx, tx);
                Ok(at)
            }
            Err(error) => Err(BeginError::Core(error)),
        }
    }

    /// Compares what the transaction did with the commits since, ahead of the turn of its end, and answers up to which one.
    /// After a refusal it is attached as it was.
    ///
    /// # Errors
    ///
    /// The transaction is attached, and checked as far as before.
    /// - `NotInTx`: the session has no transaction.
    /// - `Core`: `Down`, or want of memory.
    pub fn check_tx<R: Wait>(&mut self, rt: &R) -> Result<u64, EndError>
        ensures did { HasChecked O.start self.old result self.new }
    {
        match &mut self.tx {
            None => Err(EndError::NotInTx),
            Some(tx) => {
                self.shared.tell_tx(&mut self.port, tx);
                let checked = self.shared.check(rt, tx);
                self.shared.tell_port(tx, &mut self.port);
                match checked {
                    Ok(upto) => Ok(upto),
                    Err(error) => Err(EndError::Core(error)),
                }
            }
        }
    }

    /// Whether no commit can clash with the transaction, whatever was committed since its begin: it wrote nothing, or in
    /// serial mode it read nothing. Then `check_tx` tells its end nothing. It waits for nobody and makes no entry. `false`
    /// also where there is no transaction, and where memory is wanting to see it.
    pub fn cannot_clash(&mut self) -> bool
        ensures same { self.new ≡ self.old }
        ensures never { OnTrue result (CannotClash O.start self.new) }
    {
        match &mut self.tx {
            None => false,
            Some(tx) => tx.cannot_clash(),
        }
    }

    /// Ends the transaction. After `Disk` it is gone, as after an answer; after any other refusal it is attached as it was.
    ///
    /// # Errors
    ///
    /// - `NotInTx`: the session has no transaction.
    /// - `Core`: as `Core::end` refuses, at this turn.
    pub fn end_tx<L: Ledger, R: Wait>(
        &mut self,
        rt: &R,
        steps: &mut Steps<L>,
    ) -> Result<EndReply, EndError>
        ensures did { HasEnded O.start self.old steps.old result self.new steps.new }
    {
        let Some(tx) = self.tx.take() else {
            return Err(EndError::NotInTx);
        };
        match self.shared.end(rt, &mut self.port, tx, steps) {
            Ok(reply) => Ok(reply),
            Err((error, back)) => match back {
                None => Err(EndError::Core(error)),
                Some(mut tx) => {
                    self.shared.tell_port(&mut tx, &mut self.port);
                    attach(&mut self.tx, tx);
                    Err(EndError::Core(error))
                }
            },
        }
    }

    /// Aborts the transaction.
    ///
    /// # Errors
    ///
    /// `NotInTx`: the session has no transaction.
    pub fn abort_tx<R: Wait>(&mut self, rt: &R) -> Result<(), NotInTx>
        ensures did { HasAborted O.start self.old result self.new }
    {
        let Some(tx) = self.tx.take() else {
            return Err(NotInTx);
        };
        self.shared.abort(rt, &mut self.port, tx);
        Ok(())
    }
}
