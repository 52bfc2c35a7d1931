// A session on whose transaction calls are made, with all that is known of it.
ghost use Rattle.std.specs.Prelude.{◌≡◌, cond, false, length, true};
ghost use Rattle.tx_blocks.specs.Tx.{access_refusal, room_of};
ghost use Rattle.handle_pass.specs.Looks.{Looked, Marked, Unlooked, Wrote, down_in, failed_in, failures_in};

use crate::session::Session;
use crate::visit::Visit;
use counts::raise;
use iso_disk::Disk;
use iso_shared::Origin;
use std::marker::{Model, PhantomData};
use std::sync::Wait;
use store_model::TxError;

/// A session on whose transaction calls are made. It counts how often the disk has failed, and knows whether the device is down.
#[derive(Drop)]
pub struct Visitor<'s, 'a, D: Disk + Drop, O: Origin, R: Wait, V: Visit> {
    pub(crate) session: &'s mut Session<'a, D, O>,
    pub(crate) rt: &'s R,
    pub(crate) failures: u64,
    pub(crate) is_down: bool,
    pub(crate) of: PhantomData<V>,
}

impl<'s, 'a, D: Disk + Drop, O: Origin, R: Wait, V: Visit> Model for Visitor<'s, 'a, D, O, R, V> {
    ghost use Rattle.std.specs.Prelude.{◌≡◌};
    ghost use Rattle.handle_pass.specs.Visits.{IsVisit, Seen, seen_by};

    ghost Value = { Seen };

    ghost view = { λ v. seen_by O.start V.before v.session.now v.failures v.is_down };

    ghost invariant = { λ v. (v.session.ghost_name ≡ V.name) × IsVisit O.start V.before v.session.now v.failures v.is_down };
}

impl<'s, 'a, D: Disk + Drop, O: Origin, R: Wait, V: Visit> Visitor<'s, 'a, D, O, R, V> {
    /// How many bytes a block has.
    pub(crate) fn block_size(&self) -> u32
        ensures { result ≡ self.now.tx.size }
    {
        self.session.geometry().block
    }

    /// How many more accesses there may be.
    pub(crate) fn room(&self) -> u32
        ensures { result ≡ cond self.now.tx.is_open (room_of self.now.tx) 4096 }
    {
        self.session.room()
    }

    /// Why an access to a block is refused, if it is.
    fn refusal(&self, block: u32) -> Option<TxError>
        ensures { result ≡ access_refusal self.now.tx block }
    {
        if !self.session.has_tx() {
            Some(TxError::NotInTx)
        } else if block >= self.session.geometry().blocks {
            Some(TxError::BadBlock)
        } else if self.session.room() == 0 {
            Some(TxError::TooManyAccesses)
        } else {
            None
        }
    }

    /// Whether a fetch was refused.
    fn has_failed(&self) -> bool
        ensures { result ≡ failed_in self.now.device }
    {
        self.is_down || self.failures > 0
    }

    /// A read of a block, where no fetch was refused yet.
    fn fetch(&mut self, block: u32, into: &mut [u8]) -> Result<(), TxError>
        requires size { length into.old ≡ self.old.tx.size }
        requires sound { failed_in self.old.device ≡ false }
        ensures did { Looked self.old self.new block result into.new }
    {
        let answer = self.session.read_block(self.rt, block, into);
        self.failures = failures_of(&answer);
        self.is_down = sets_down(&answer);
        answer
    }

    /// A read of a block, where a fetch was refused: none is tried again.
    fn fail_again(&mut self, block: u32) -> Result<(), TxError>
        requires failed { failed_in self.old.device ≡ true }
        ensures did { Unlooked self.old self.new block result }
    {
        if let Some(error) = self.refusal(block) {
            return Err(error);
        }
        if self.is_down {
            return Err(TxError::Down);
        }
        raise(&mut self.failures);
        Err(TxError::Disk)
    }

    /// A read of a block. Once a fetch was refused, none is tried again.
    pub(crate) fn read(&mut self, block: u32, into: &mut [u8]) -> Result<(), TxError>
        requires size { length into.old ≡ self.old.tx.size }
        ensures did { Looked self.old self.new block result into.new }
    {
        if self.has_failed() {
            return self.fail_again(block);
        }
        self.fetch(block, into)
    }

    /// A write of a block.
    pub(crate) fn write(&mut self, block: u32, bytes: &[u8]) -> Result<(), TxError>
        requires { length bytes.now ≡ self.old.tx.size }
        ensures did { Wrote self.old self.new block bytes.now result }
    {
        self.session.write_block(block, bytes)
    }

    /// A mark on the last access.
    pub(crate) fn mark(&mut self, off: u16, len: u16) -> Result<(), TxError>
        ensures did { Marked self.old self.new off len result }
    {
        self.session.mark_accessed(off, len)
    }
}

/// How often the disk failed in the read that ended so.
fn failures_of(answer: &Result<(), TxError>) -> u64
    ensures { result ≡ failures_in answer.now }
{
    match answer {
        Err(TxError::Disk) => 1,
        _ => 0,
    }
}

/// Whether the read that ended so found the device down.
fn sets_down(answer: &Result<(), TxError>) -> bool
    ensures { result ≡ down_in answer.now }
{
    matches!(answer, Err(TxError::Down))
}
