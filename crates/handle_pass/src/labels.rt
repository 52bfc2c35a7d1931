// Transactions under labels.
ghost use Rattle.std.specs.Prelude.{◌≡◌, ◌<◌, IfOk, IfSome};
ghost use Rattle.handle_pass.specs.Handles.{HasLooked, HasPosted};
ghost use Rattle.handle_pass.specs.declared.errors.PostTxError.TheVariants as TheError;
ghost use Rattle.tx_table.specs.declared.rack.PostError.TheVariants as TheCause;

use crate::errors::PostTxError;
use crate::session::{Session, attach};
use iso_disk::Disk;
use iso_model::{InTx, Label};
use iso_shared::Origin;
use std::sync::Wait;
use tx_table::PostError;

/// What is told of a post that the device refuses.
fn refused(error: PostError) -> PostTxError
    ensures taken { error ≡ TheCause.LabelTaken → result ≡ TheError.LabelTaken }
    ensures memory { error ≡ TheCause.Memory → result ≡ TheError.Memory }
{
    match error {
        PostError::LabelTaken => PostTxError::LabelTaken,
        PostError::Memory => PostTxError::Memory,
    }
}

impl<'a, D: Disk + Drop, O: Origin> Session<'a, D, O> {
    /// Puts the transaction under a label. After a refusal it is attached as it was.
    ///
    /// # Errors
    ///
    /// - `NotInTx`: the session has no transaction.
    /// - `LabelTaken`: another transaction is under the label.
    /// - `Memory`: want of memory.
    pub fn post_tx<R: Wait>(&mut self, rt: &R, label: Label) -> Result<(), PostTxError>
        ensures did { HasPosted O.start self.old label result self.new }
    {
        let Some(tx) = self.tx.take() else {
            return Err(PostTxError::NotInTx);
        };
        match self.shared.post(rt, &mut self.port, label, tx) {
            Ok(()) => Ok(()),
            Err((error, mut tx)) => {
                self.shared.tell_port(&mut tx, &mut self.port);
                attach(&mut self.tx, tx);
                Err(refused(error))
            }
        }
    }

    /// Attaches the transaction under a label and answers its begin, and none exactly where the label is not held. It takes no
    /// memory.
    ///
    /// # Errors
    ///
    /// `InTx`: the session has a transaction.
    pub fn look_tx<R: Wait>(&mut self, rt: &R, label: &Label) -> Result<Option<u64>, InTx>
        requires units { 1 < self.old.units }
        ensures did { HasLooked O.start self.old label.now result self.new }
        ensures checked { IfOk result (λ found. IfSome found (λ at. self.new.checked ≡ at)) }
    {
        if self.tx.is_some() {
            return Err(InTx);
        }
        match self.shared.look(rt, &mut self.port, label) {
            Some(tx) => {
                let at = tx.at();
                attach(&mut self.tx, tx);
                Ok(Some(at))
            }
            None => Ok(None),
        }
    }
}
