// The transaction below `CoreBlocks`, which alone calls it: its methods promise what those of `TxBlocks` do.
ghost use Rattle.std.specs.{Prelude.{◌≡◌, ◌≢◌, ◌≤◌, Err, OnOk, OnErr, cond, false, length, [], ◌∷◌}, Option.ForSome};
ghost use Rattle.iso_model.specs.{Effect.own, Marks.marked, Premises.block_at};
ghost use Rattle.store_model.specs.Stores.{look_access, store_access};
ghost use Rattle.tx_blocks.specs.Tx.{IsFree, IsRefused, IsTx, access_refusal, mark_refusal, room_of, with_accesses};

use crate::origin::Origin;
use counts::raise;
use iso_core::Core;
use iso_disk::Disk;
use iso_model::MarkError;
use std::marker::{Model, PhantomData};
use store_model::TxError;
use tx_table::Work;

/// A live transaction of a core that is up, with its work. It counts how often the disk has failed.
#[derive(Drop)]
pub struct Guest<'a, D: Disk, K: Origin> {
    pub(crate) core: &'a mut Core<D>,
    pub(crate) tx: u64,
    pub(crate) work: &'a mut Work,
    pub(crate) failures: u64,
    pub(crate) of: PhantomData<K>,
}

impl<'a, D: Disk, K: Origin> Model for Guest<'a, D, K> {
    ghost use Rattle.std.specs.Prelude.{◌≡◌};
    ghost use Rattle.iso_machine.specs.Guests.{IsGuest, Seen, tx_of};

    ghost Value = { Seen };

    ghost view = { λ g. record { tx = tx_of K.array g.work.now; faults = g.failures } };

    ghost invariant = { λ g. (g.core.ghost_name ≡ K.core_name) × (g.work.ghost_name ≡ K.work_name)
        × IsGuest D.state K.stood K.disk K.doing K.array g.core.now g.tx g.work.now g.failures };
}

impl<D: Disk, K: Origin> Guest<'_, D, K> {
    /// How many bytes a block has.
    pub(crate) fn block_size(&self) -> u32
        ensures { result ≡ self.now.tx.size }
    {
        self.work.block_size()
    }

    /// How many more accesses there may be.
    pub(crate) fn room(&self) -> u32
        ensures { result ≡ cond self.now.tx.is_open (room_of self.now.tx) 4096 }
    {
        self.work.room()
    }

    /// A read of a block.
    pub(crate) fn read(&mut self, block: u32, into: &mut [u8]) -> Result<(), TxError>
        requires { length into.old ≡ self.old.tx.size }
        ensures bytes { OnOk result (ForSome self.old.tx.base (λ A. into.new ≡ block_at (own A self.old.tx.accesses) block)) }
        ensures read { OnOk result (self.new.tx ≡ with_accesses self.old.tx (look_access block [] ∷ [])) }
        ensures kept { OnErr result (self.new.tx ≡ self.old.tx) }
        ensures cause { IsRefused (access_refusal self.old.tx block) (IsFree (record { faults = self.old.faults; is_down = false }) (record { faults = self.new.faults; is_down = false })) result }
        ensures later { self.old.faults ≤ self.new.faults }
        ensures passed { result ≢ Err TxError.Disk → self.new.faults ≡ self.old.faults }
        ensures limits { IsTx self.new.tx }
    {
        if block >= self.work.blocks() {
            return Err(TxError::BadBlock);
        }
        if self.work.room() == 0 {
            return Err(TxError::TooManyAccesses);
        }
        if let Err(_) = self.work.reserve(block) {
            return Err(TxError::Memory);
        }
        match self.core.fetch(self.tx, block, into) {
            Ok(()) => {
                self.work.read(block, into);
                Ok(())
            }
            Err(_) => {
                raise(&mut self.failures);
                Err(TxError::Disk)
            }
        }
    }

    /// A write of a block.
    pub(crate) fn write(&mut self, block: u32, bytes: &[u8]) -> Result<(), TxError>
        requires { length bytes.now ≡ self.old.tx.size }
        ensures written { OnOk result (self.new.tx ≡ with_accesses self.old.tx (store_access block [] bytes.now ∷ [])) }
        ensures kept { OnErr result (self.new.tx ≡ self.old.tx) }
        ensures cause { IsRefused (access_refusal self.old.tx block) (λ e. e ≡ TxError.Memory) result }
        ensures faults { self.new.faults ≡ self.old.faults }
        ensures limits { IsTx self.new.tx }
    {
        if block >= self.work.blocks() {
            return Err(TxError::BadBlock);
        }
        if self.work.room() == 0 {
            return Err(TxError::TooManyAccesses);
        }
        if let Err(_) = self.work.reserve(block) {
            return Err(TxError::Memory);
        }
        self.work.write(block, bytes);
        Ok(())
    }

    /// A mark on the last access.
    pub(crate) fn mark(&mut self, off: u16, len: u16) -> Result<(), TxError>
        ensures marked { OnOk result (self.new.tx ≡ record self.old.tx { accesses = marked (record { off = off; len = len }) self.old.tx.accesses }) }
        ensures kept { OnErr result (self.new.tx ≡ self.old.tx) }
        ensures cause { IsRefused (mark_refusal self.old.tx off len) (λ e. ⊥) result }
        ensures faults { self.new.faults ≡ self.old.faults }
        ensures limits { IsTx self.new.tx }
    {
        match self.work.mark(off, len) {
            Ok(()) => Ok(()),
            Err(MarkError::BadRange) => Err(TxError::BadRange),
            Err(MarkError::NoAccess) => Err(TxError::NoAccess),
            Err(MarkError::TooManyMarks) => Err(TxError::TooManyMarks),
        }
    }
}
