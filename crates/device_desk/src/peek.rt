// Reads that are no accesses.
ghost use Rattle.std.specs.{Prelude.{◌≡◌, ◌+◌, ◌<◌, ◌≤◌, Some, None, false, true, IfOk, IfSome, IsErrOf, OnOk, drop, length, take}, List.AllByRecursion};
ghost use Rattle.counts.specs.Count.{HasCause};
ghost use Rattle.iso_disk.specs.Disk.{WritesNothing};
ghost use Rattle.iso_model.specs.{declared.limits.TheConstants.MAX_ACCESSES, Marks.is_outside, Array.Array, Effect.own, Premises.{AreAccesses, HasBytes, block_at}, Step.shown_to, World.{Live, World, attached}};
ghost use Rattle.iso_core.specs.{Calls.{IsTx, IsWorkOf}, Core.{StandsFor, disk_of}, Standing.up};
ghost use Rattle.iso_machine.specs.{Accessing.{IsActive, IsShown}, Answering.{Always, Answers}};
ghost use Rattle.script_model.specs.{declared.script.Op.TheVariants.Get, Step.step};
ghost use Rattle.script_runner.specs.{Counts.BlamesDisk, Told.IfTold};
ghost use Rattle.device_desk.specs.{Device.{IsRefusedDown, StandsAt, state_at}, Peeked.{peek_reply, peeked}};

use crate::desk::Desk;
use crate::seat::Seat;
use crate::table::Table;
use iso_core::Core;
use iso_disk::{Disk, DiskFault};
use iso_model::Bytes;
use script_model::{Reply, Stop, copy_from, fit, is_outside, zeros};
use std::alloc::Global;
use tx_table::Work;

/// Lays what a transaction wrote over a block as it stood at the begin.
fn lay_own(work: &Work, block: u32, into: &mut [u8])
    requires settled { work.now.settled ≡ true }
    requires accesses { AllByRecursion (HasBytes work.now.size) work.now.accesses }
    requires bytes { length into.old ≡ work.now.size }
    ensures { (A : Array) → block_at A block ≡ into.old → into.new ≡ block_at (own A work.now.accesses) block }
{
    for (at, patch) in work.patches() {
        if at == block {
            patch.over(into);
            return;
        }
    }
}

/// Reads `len` bytes of a block from `off` on, as the transaction is shown them, into their place in a slice as long as the
/// block. On a fault any bytes may be in the slice, and all else stays.
fn peek_into<D: Disk>(
    core: &mut Core<D>,
    seat: &Seat,
    block: u32,
    off: usize,
    len: usize,
    into: &mut [u8],
) -> Result<(), DiskFault>
    requires stands { (W : World) × (t : Live) × StandsFor D.state core.old W up × IsTx W seat.now.tx t × IsWorkOf W t seat.now.work.value × AreAccesses W.geometry t.accesses × (block < W.geometry.blocks) }
    requires settled { seat.now.work.value.settled ≡ true }
    requires bytes { length into.old ≡ seat.now.work.value.size }
    requires fits { off + len ≤ length into.old }
    ensures shown { (W : World) (t : Live) → StandsFor D.state core.old W up → IsTx W seat.now.tx t → IsWorkOf W t seat.now.work.value
        → OnOk result (IfTold (D.state (disk_of core.old)) (take len (drop off into.new) ≡ take len (drop off (shown_to W t block)))) }
    ensures same { (W : World) → StandsFor D.state core.old W up → StandsFor D.state core.new W up }
    ensures unwritten { WritesNothing (D.state (disk_of core.old)) (D.state (disk_of core.new)) }
    ensures cause { HasCause (D.state (disk_of core.old)).faults (D.state (disk_of core.new)).faults result }
{
    match core.fetch_range(seat.tx, block, off, len, into) {
        Ok(()) => {
            lay_own(&seat.work, block, into);
            Ok(())
        }
        Err(_) => Err(DiskFault),
    }
}

/// Why nothing can be read there, if nothing can.
fn refusal(seat: &Seat, block: u32, off: u32, len: u32) -> Option<Reply>
    ensures allowed { result ≡ None → (block < seat.now.work.value.blocks) × (is_outside seat.now.work.value.size off len ≡ false) }
    ensures refused { (W : World) (t : Live) → IsWorkOf W t seat.now.work.value → IfSome result (λ r. peek_reply W t block off len ≡ r) }
{
    if block >= seat.work.blocks() {
        return Some(Reply::BadBlock);
    }
    if is_outside(seat.work.block_size(), off, len as usize) {
        return Some(Reply::BadRange);
    }
    None
}

/// Reads `len` bytes of a block at `off`. They are read into their place in the buffer.
fn peek_at<D: Disk>(
    alloc: Global,
    core: &mut Core<D>,
    seat: &Seat,
    buffer: &mut Vec<u8>,
    block: u32,
    off: u32,
    len: u32,
) -> Result<Reply, Stop>
    requires stands { (W : World) × (t : Live) × StandsFor D.state core.old W up × IsTx W seat.now.tx t × IsWorkOf W t seat.now.work.value × AreAccesses W.geometry t.accesses }
    requires settled { seat.now.work.value.settled ≡ true }
    ensures given { (W : World) (t : Live) → StandsFor D.state core.old W up → IsTx W seat.now.tx t → IsActive W t seat.now.work.value
        → IfOk result (IsShown (D.state (disk_of core.old)) W t (peek_reply W t block off len, W) seat.now.work.value) }
    ensures same { (W : World) → StandsFor D.state core.old W up → StandsFor D.state core.new W up }
    ensures unwritten { WritesNothing (D.state (disk_of core.old)) (D.state (disk_of core.new)) }
    ensures up { ¬ IsErrOf result Stop.Down }
    ensures cause { BlamesDisk (D.state (disk_of core.old)).faults (D.state (disk_of core.new)).faults result }
{
    if let Some(reply) = refusal(seat, block, off, len) {
        return Ok(reply);
    }
    let Ok(mut bytes) = zeros(alloc, len) else {
        return Err(Stop::Memory);
    };
    if let Err(_) = fit(buffer, seat.work.block_size()) {
        return Err(Stop::Memory);
    }
    if let Err(_) = peek_into(core, seat, block, off as usize, len as usize, buffer) {
        return Err(Stop::Disk);
    }
    copy_from(&mut bytes, buffer, off);
    Ok(Reply::Shown(Bytes::of(bytes)))
}

impl<D: Disk> Table<D> {
    ghost use Rattle.device_desk.specs.Seats.{IsTableOf};

    /// Reads in the transaction of this number, and records no access.
    pub(crate) fn peek(
        &mut self,
        number: u64,
        block: u32,
        off: u32,
        len: u32,
    ) -> Result<Reply, Stop>
        requires { (W : World) × IsTableOf D.state self.old W }
        ensures answer { (W : World) → IsTableOf D.state self.old W
            → Answers Always (IsTableOf D.state self.new) (D.state (disk_of self.old.core)) (D.state (disk_of self.new.core)) W (peeked W number block off len) result }
        ensures unwritten { WritesNothing (D.state (disk_of self.old.core)) (D.state (disk_of self.new.core)) }
    {
        let Some(i) = self.place_at(number) else {
            return Ok(Reply::NotInTx);
        };
        let seat = &mut self.live[i];
        if let Err(_) = seat.work.settle() {
            return Err(Stop::Memory);
        }
        peek_at(
            self.alloc,
            &mut self.core,
            seat,
            &mut self.buffer,
            block,
            off,
            len,
        )
    }
}

impl<D: Disk> Desk<D> {
    /// Reads `len` bytes of a block from `off` on, as `get` does, its own writes among them. It is no access: no conflict comes of
    /// it, it has no limit, and the desk then stands for the same world. Nothing is written, and no stop takes the desk down.
    ///
    /// # Errors
    ///
    /// A refusal of the transaction is a reply.
    /// - `Memory`: want of memory. The transaction is as it was.
    /// - `Disk`: the disk failed in this call.
    /// - `Down`: the desk is down.
    pub fn peek(&mut self, number: u64, block: u32, off: u32, len: u32) -> Result<Reply, Stop>
        ensures did { (W : World) → StandsAt D.state self.old W
            → Answers Always (StandsAt D.state self.new) (state_at D.state self.old) (state_at D.state self.new) W (peeked W number block off len) result }
        ensures get { (W : World) (t : Live) → attached W number ≡ Some t → length t.accesses < MAX_ACCESSES
            → (step W number (Get block off len)).0 ≡ (peeked W number block off len).0 }
        ensures unwritten { WritesNothing (state_at D.state self.old) (state_at D.state self.new) }
        ensures down { self.old.up ≡ false → IsRefusedDown self.old self.new result }
    {
        if !self.up {
            return Err(Stop::Down);
        }
        self.table.peek(number, block, off, len)
    }
}
