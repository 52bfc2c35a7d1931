// A transaction that goes from one session to another, without an entry of the list.
ghost use Rattle.std.specs.Prelude.{◌≡◌};
ghost use Rattle.handle_pass.specs.{Handles.{HasReleased, HasTakenOver}, Held.{IsReleased, held_state}};

use crate::session::{Session, attach};
use iso_disk::Disk;
use iso_model::{InTx, NotInTx};
use iso_shared::{Origin, Tx};
use std::marker::Model;

/// A transaction that no session has. It has one holder, and cannot be dropped: `takeover_tx` of a session spends it, which may then
/// end or abort it, or `into_tx`, as a member of a group.
pub struct Handle<D: Disk + Drop, O: Origin> {
    pub(crate) tx: Tx<D, O>,
}

impl<D: Disk + Drop, O: Origin> Model for Handle<D, O> {
    ghost use Rattle.handle_pass.specs.Held.{HandleState, IsReleased, held_state};

    ghost Value = { HandleState };

    ghost view = { λ h. held_state h.tx };

    ghost invariant = { λ h. IsReleased O.start h.tx };
}

impl<D: Disk + Drop, O: Origin> Handle<D, O> {
    /// A transaction that no session has, as `into_tx` gives it, or a call of the device that was refused.
    pub fn of(tx: Tx<D, O>) -> Handle<D, O>
        requires tx { IsReleased O.start tx }
        ensures is { result ≡ held_state tx }
    {
        Handle { tx }
    }

    /// The transaction itself, as calls of the device take it that end a group.
    pub fn into_tx(self) -> Tx<D, O>
        ensures tx { IsReleased O.start result }
        ensures is { held_state result ≡ self }
    {
        let Handle { tx } = self;
        tx
    }
}

impl<'a, D: Disk + Drop, O: Origin> Session<'a, D, O> {
    /// Detaches the transaction, which then knows all that the session does. It waits for nobody, and takes no memory.
    ///
    /// # Errors
    ///
    /// `NotInTx`: the session has no transaction.
    pub fn release_tx(&mut self) -> Result<Handle<D, O>, NotInTx>
        ensures did { HasReleased self.old result self.new }
    {
        let Some(mut tx) = self.tx.take() else {
            return Err(NotInTx);
        };
        self.shared.tell_tx(&mut self.port, &mut tx);
        Ok(Handle { tx })
    }

    /// Attaches a transaction, and answers its begin; the session then knows all that it does. A session in a transaction hands
    /// it back. It waits for nobody, and takes no memory.
    ///
    /// # Errors
    ///
    /// `InTx`: the session has a transaction.
    pub fn takeover_tx(&mut self, handle: Handle<D, O>) -> Result<u64, (InTx, Handle<D, O>)>
        requires device { handle.device ≡ self.old.device }
        ensures did { HasTakenOver self.old handle result self.new }
    {
        if self.tx.is_some() {
            return Err((InTx, handle));
        }
        let Handle { mut tx } = handle;
        self.shared.tell_port(&mut tx, &mut self.port);
        let at = tx.at();
        attach(&mut self.tx, tx);
        Ok(at)
    }
}
