// The trait of a transaction over blocks.
ghost use Rattle.std.specs.{Prelude.{◌≡◌, ◌≢◌, ◌-◌, Err, OnOk, OnErr, cond, length, [], ◌∷◌}, Option.ForSome};
ghost use Rattle.iso_model.specs.{Effect.own, Marks.marked, Premises.block_at};
ghost use Rattle.store_model.specs.Stores.{look_access, store_access};
ghost use Rattle.tx_blocks.specs.Tx.{access_refusal, mark_refusal, room_of, with_accesses, Device, IsFree, IsLater, IsRefused, IsTx, Tx};

use store_model::TxError;

/// A transaction over the blocks of an image. Each refusal leaves the transaction as it was.
pub trait TxBlocks {
    /// The transaction.
    ghost state: { Self → Tx };

    /// The disk below it.
    ghost device: { Self → Device };

    /// How many bytes a block has.
    fn block_size(&self) -> u32
        ensures { result ≡ (state self.now).size };

    /// How many accesses the transaction may still make; all of them where there is no transaction.
    fn room(&self) -> u32
        ensures { result ≡ cond (state self.now).is_open (room_of (state self.now)) 4096 };

    /// Reads a block as it was at the begin, with the own writes over it. The access covers the whole block until it is
    /// marked.
    ///
    /// # Errors
    ///
    /// The transaction is as before. The first of these:
    /// - `NotInTx`: there is no transaction.
    /// - `BadBlock`: the array has no such block.
    /// - `TooManyAccesses`: the transaction has `MAX_ACCESSES` accesses.
    ///
    /// Or else one of these:
    /// - `Disk` exactly where the disk failed in this call.
    /// - `Down`: the disk is down.
    /// - `Memory`: want of memory.
    fn read_block(&mut self, block: u32, into: &mut [u8]) -> Result<(), TxError>
        requires { length into.old ≡ (state self.old).size }
        ensures bytes { OnOk result (ForSome (state self.old).base (λ A. into.new ≡ block_at (own A (state self.old).accesses) block)) }
        ensures read { OnOk result (state self.new ≡ with_accesses (state self.old) (look_access block [] ∷ [])) }
        ensures kept { OnErr result (state self.new ≡ state self.old) }
        ensures cause { IsRefused (access_refusal (state self.old) block) (IsFree (device self.old) (device self.new)) result }
        ensures later { IsLater (device self.old) (device self.new) }
        ensures passed { result ≢ Err TxError.Disk → (device self.new).faults ≡ (device self.old).faults };

    /// Writes a block, or those bytes of it that are marked after.
    ///
    /// # Errors
    ///
    /// The first of these, and the transaction is as before:
    /// - `NotInTx`: there is no transaction.
    /// - `BadBlock`: the array has no such block.
    /// - `TooManyAccesses`: the transaction has `MAX_ACCESSES` accesses.
    /// - `Memory`: want of memory.
    fn write_block(&mut self, block: u32, bytes: &[u8]) -> Result<(), TxError>
        requires { length bytes.now ≡ (state self.old).size }
        ensures written { OnOk result (state self.new ≡ with_accesses (state self.old) (store_access block [] bytes.now ∷ [])) }
        ensures kept { OnErr result (state self.new ≡ state self.old) }
        ensures cause { IsRefused (access_refusal (state self.old) block) (λ e. e ≡ TxError.Memory) result }
        ensures device { device self.new ≡ device self.old };

    /// Marks a range of the last access. It takes no memory.
    ///
    /// # Errors
    ///
    /// The first of these, and the transaction is as before:
    /// - `NotInTx`: there is no transaction.
    /// - `BadRange`: the range is empty or passes the end of the block.
    /// - `NoAccess`: there is no access.
    /// - `TooManyMarks`: the last access has `MAX_SPANS` marks.
    fn mark_accessed(&mut self, off: u16, len: u16) -> Result<(), TxError>
        ensures marked { OnOk result (state self.new ≡ record (state self.old) { accesses = marked (record { off = off; len = len }) (state self.old).accesses }) }
        ensures kept { OnErr result (state self.new ≡ state self.old) }
        ensures cause { IsRefused (mark_refusal (state self.old) off len) (λ e. ⊥) result }
        ensures device { device self.new ≡ device self.old };

    /// The numbers keep their limits.
    ghost limits: { (t : Self) → IsTx (state t) };
}
