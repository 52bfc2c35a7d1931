// Reads, writes and marks of a session's transaction.
ghost use Rattle.std.specs.Prelude.{◌≡◌, ◌+◌, ◌<◌, ◌≤◌, length};
ghost use Rattle.iso_model.specs.Step.{put_access};
ghost use Rattle.handle_pass.specs.Accesses.{access_answer, mark_answer, HasAdded, HasMarked, HasRead, HasWritten, IsReadCause, IsWriteCause};
ghost use Rattle.tx_blocks.specs.Tx.{IsRefused};

use crate::session::Session;
use iso_disk::Disk;
use iso_model::{CoreError, MarkError};
use iso_shared::Origin;
use std::sync::Wait;
use store_model::TxError;

impl<'a, D: Disk + Drop, O: Origin> Session<'a, D, O> {
    /// Reads a block as it stood when the transaction began, with its own writes over it. The access covers the whole block
    /// until it is marked. Each refusal leaves the transaction as it was.
    ///
    /// # Errors
    ///
    /// The first of these, and the transaction is as it was:
    /// - `NotInTx`: the session has no transaction.
    /// - `BadBlock`: the image has no such block.
    /// - `TooManyAccesses`: the transaction has as many as it may.
    /// - `Memory`: want of memory.
    /// - `Disk`: the disk failed in this call.
    /// - `Down`: an earlier fault set the device down.
    pub fn read_block<R: Wait>(
        &mut self,
        rt: &R,
        block: u32,
        into: &mut [u8],
    ) -> Result<(), TxError>
        requires size { length into.old ≡ O.start.world.geometry.block }
        ensures cause { IsRefused (access_answer O.start self.old block) IsReadCause result }
        ensures did { HasRead O.start self.old block result into.new self.new }
    {
        match &mut self.tx {
            None => Err(TxError::NotInTx),
            Some(tx) => {
                if block >= self.shared.geometry().blocks {
                    return Err(TxError::BadBlock);
                }
                if tx.room() == 0 {
                    return Err(TxError::TooManyAccesses);
                }
                if let Err(_) = tx.reserve(block) {
                    return Err(TxError::Memory);
                }
                self.shared.tell_tx(&mut self.port, tx);
                let fetched = self.shared.fetch(rt, tx, block, into);
                self.shared.tell_port(tx, &mut self.port);
                match fetched {
                    Ok(()) => {
                        tx.read(block, into);
                        Ok(())
                    }
                    Err(error) => match error {
                        CoreError::Disk => Err(TxError::Disk),
                        _ => Err(TxError::Down),
                    },
                }
            }
        }
    }

    /// Writes a block, or those bytes of it that are marked after. It waits for nobody. Each refusal leaves all as it was.
    ///
    /// # Errors
    ///
    /// The first of these, and all is as it was:
    /// - `NotInTx`: the session has no transaction.
    /// - `BadBlock`: the image has no such block.
    /// - `TooManyAccesses`: the transaction has as many as it may.
    /// - `Memory`: want of memory.
    pub fn write_block(&mut self, block: u32, bytes: &[u8]) -> Result<(), TxError>
        requires size { length bytes.now ≡ O.start.world.geometry.block }
        ensures cause { IsRefused (access_answer O.start self.old block) IsWriteCause result }
        ensures did { HasWritten self.old block bytes.now result self.new }
    {
        match &mut self.tx {
            None => Err(TxError::NotInTx),
            Some(tx) => {
                if block >= self.shared.geometry().blocks {
                    return Err(TxError::BadBlock);
                }
                if tx.room() == 0 {
                    return Err(TxError::TooManyAccesses);
                }
                if let Err(_) = tx.reserve(block) {
                    return Err(TxError::Memory);
                }
                tx.write(block, bytes);
                Ok(())
            }
        }
    }

    /// Writes these bytes at `off` of a block, with one mark over them. It waits for nobody. Each refusal leaves all as it was.
    ///
    /// # Errors
    ///
    /// As those of `write_block`.
    pub fn put(&mut self, block: u32, off: u16, bytes: &[u8]) -> Result<(), TxError>
        requires some { 0 < length bytes.now }
        requires fits { off + length bytes.now ≤ O.start.world.geometry.block }
        ensures cause { IsRefused (access_answer O.start self.old block) IsWriteCause result }
        ensures did { HasAdded self.old (put_access O.start.world.geometry.block block off bytes.now) result self.new }
    {
        match &mut self.tx {
            None => Err(TxError::NotInTx),
            Some(tx) => {
                if block >= self.shared.geometry().blocks {
                    return Err(TxError::BadBlock);
                }
                if tx.room() == 0 {
                    return Err(TxError::TooManyAccesses);
                }
                if let Err(_) = tx.reserve(block) {
                    return Err(TxError::Memory);
                }
                tx.put(block, off, bytes);
                Ok(())
            }
        }
    }

    /// Marks a range of the last access: the first mark takes the place of the whole block, and further ones add to it. It waits for
    /// nobody, and takes no memory. Each refusal leaves all as it was.
    ///
    /// # Errors
    ///
    /// The first of these, and all is as it was:
    /// - `NotInTx`: the session has no transaction.
    /// - `NoAccess`: the transaction has no access.
    /// - `BadRange`: the range is empty, or passes the end of the block.
    /// - `TooManyMarks`: the access has as many as it may.
    pub fn mark_accessed(&mut self, off: u16, len: u16) -> Result<(), TxError>
        ensures cause { IsRefused (mark_answer O.start self.old off len) (λ e. ⊥) result }
        ensures did { HasMarked self.old off len result self.new }
    {
        match &mut self.tx {
            None => Err(TxError::NotInTx),
            Some(tx) => match tx.mark(off, len) {
                Ok(()) => Ok(()),
                Err(MarkError::BadRange) => Err(TxError::BadRange),
                Err(MarkError::NoAccess) => Err(TxError::NoAccess),
                Err(MarkError::TooManyMarks) => Err(TxError::TooManyMarks),
            },
        }
    }
}
