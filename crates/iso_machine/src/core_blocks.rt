// A transaction of a core as a transaction over blocks.
ghost use Rattle.std.specs.Prelude.{◌≡◌, ℕ};
ghost use Rattle.tx_blocks.specs.Tx.{IsTx};

use crate::guest::Guest;
use crate::origin::Origin;
use iso_core::Core;
use iso_disk::Disk;
use std::marker::PhantomData;
use store_model::TxError;
use tx_blocks::TxBlocks;
use tx_table::Work;

/// A live transaction of a core that is up, with its work, as a store sees it. Its count of faults counts those of this call.
#[derive(Drop)]
pub struct CoreBlocks<'a, D: Disk, K: Origin> {
    pub guest: Guest<'a, D, K>,
    ghost limits: { IsTx guest.tx },
}

/// A core and the work of one of its transactions, and how often its disk has failed.
#[derive(Drop)]
pub struct Lent<'a, D: Disk> {
    pub core: &'a mut Core<D>,
    pub work: &'a mut Work,
    pub failures: u64,
}

impl<'a, D: Disk, K: Origin> CoreBlocks<'a, D, K> {
    ghost use Rattle.iso_machine.specs.Guests.{IsGuest, tx_of};

    /// Over a core and the work of one of its transactions.
    pub fn over(core: &'a mut Core<D>, tx: u64, work: &'a mut Work) -> CoreBlocks<'a, D, K>
        requires core { core.ghost_name ≡ K.core_name }
        requires work { work.ghost_name ≡ K.work_name }
        requires guest { IsGuest D.state K.stood K.disk K.doing K.array core.old tx work.old 0 }
        ensures { result.guest ≡ record { tx = tx_of K.array work.old; faults = 0 } }
    {
        let guest = Guest {
            core,
            tx,
            work,
            failures: 0,
            of: PhantomData,
        };
        CoreBlocks { guest }
    }

    /// The core and the work, after the calls.
    pub fn leave(self) -> Lent<'a, D>
        ensures core { result.core.ghost_name ≡ K.core_name }
        ensures work { result.work.ghost_name ≡ K.work_name }
        ensures guest { (tx : ℕ) × IsGuest D.state K.stood K.disk K.doing K.array result.core.now tx result.work.now result.failures }
        ensures seen { self.entry.guest ≡ record { tx = tx_of K.array result.work.now; faults = result.failures } }
    {
        let CoreBlocks { guest } = self;
        let Guest {
            core,
            tx: _,
            work,
            failures,
            of: _,
        } = guest;
        Lent {
            core,
            work,
            failures,
        }
    }
}

impl<D: Disk, K: Origin> TxBlocks for CoreBlocks<'_, D, K> {
    ghost use Rattle.std.specs.Prelude.{false};

    ghost state = { λ b. b.guest.tx };

    ghost device = { λ b. record { faults = b.guest.faults; is_down = false } };

    fn block_size(&self) -> u32 {
        self.guest.block_size()
    }

    fn room(&self) -> u32 {
        self.guest.room()
    }

    fn read_block(&mut self, block: u32, into: &mut [u8]) -> Result<(), TxError> {
        self.guest.read(block, into)
    }

    fn write_block(&mut self, block: u32, bytes: &[u8]) -> Result<(), TxError> {
        self.guest.write(block, bytes)
    }

    fn mark_accessed(&mut self, off: u16, len: u16) -> Result<(), TxError> {
        self.guest.mark(off, len)
    }

    ghost limits = { λ b. b.limits };
}
