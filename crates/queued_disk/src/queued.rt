// The disk itself.
ghost use Rattle.std.specs.{Prelude.{◌≡◌, ◌+◌, ◌^◌, ◌<◌, ◌≤◌, ℕ, List, Vec, [], ◌++◌, true, false, length, map, slice_index, take, OnOk, OnErr, IfOk, IsOk, IsErr, Some}, List.slice_range, Option.ForSome, declared.alloc.Global.Global};
ghost use Rattle.counts.specs.Count.{one_more, Rose, HasCause};
ghost use Rattle.iso_disk.specs.Disk.{Elapses, IsSettled, Splices, TellsTorn, TornFrom, WritesNothing};
ghost use Rattle.iso_memdisk.specs.{declared.record.Call.TheVariants.{Write, Sync}, Record.{AllFit, written}};
ghost use Rattle.queued_disk.specs.Past.{in_order};
ghost use native.Mathlib.Omega.{arith};

use crate::past::Past;
use counts::raise;
use iso_disk::{Disk, DiskFault};
use iso_memdisk::{Call, lay};
use std::alloc::{AllocError, Global};
use std::snapshot::Snapshot;

/// A disk in memory whose writes and syncs go onto a tape. It makes no call: its caller does the tape, in order, to a file that
/// held the bytes which the disk was given, and says that it is handed on, or that a call failed.
///
/// What a crash may leave is what the file may hold, whatever of the tape has been done by then. That is said of all calls
/// since the bytes were given, which contracts alone know: memory is taken for what is on the tape.
#[derive(Drop)]
pub struct QueuedDisk {
    alloc: Global,
    given: Snapshot<Vec<u8>>,
    past: Past,
    bytes: Vec<u8>,
    tape: Vec<Call>,
    // memory for the bytes of writes that come
    spare: Vec<Vec<u8>>,
    failed: bool,
    faults: u64,
    ghost size_fits: { length bytes.items < 2 ^ 64 },
    ghost same_size: { length given.value.items ≡ length bytes.items },
    ghost writes_fit: { AllFit (length given.value.items) (in_order past ++ tape.items) },
    ghost holds: { bytes.items ≡ written (in_order past ++ tape.items) given.value.items },
    ghost told_bytes: { (i : ℕ) → slice_index bytes.items i < 256 },
}

// The memory of how many writes is kept, and of which: a commit makes two short ones.
const MOST_SPARE: usize = 4;

const MOST_KEPT: usize = 4096;

// Takes all calls off a tape.
fn take_calls(tape: &mut Vec<Call>, spare: &mut Vec<Vec<u8>>)
    ensures { tape.new.items ≡ [] }
{
    while let Some(call) = tape.pop() {
        if let Call::Write { at: _, bytes } = call {
            if bytes.len() <= MOST_KEPT && spare.len() < MOST_SPARE {
                // Without memory for the list it is let go.
                let _ = spare.push(bytes);
            }
        }
    }
}

// A copy of these bytes, in memory that is spare if there is some.
fn copy_into(alloc: Global, spare: &mut Vec<Vec<u8>>, bytes: &[u8]) -> Result<Vec<u8>, AllocError>
    ensures { IfOk result (λ v. v.items ≡ bytes.now) }
{
    let mut copy = match spare.pop() {
        Some(kept) => kept,
        None => Vec::new(alloc),
    };
    copy.clear();
    copy.extend_from_slice(bytes)?;
    Ok(copy)
}

impl QueuedDisk {
    ghost use Rattle.queued_disk.specs.{Queued.{given, handed_on, tape_of, calls_of, bytes_of, file_of, is_failed, said, state_of, IsUntouched, Appends}, Tape.IsLeftBy};

    /// A disk of these bytes, with nothing on its tape. It takes no memory: the bytes are taken over.
    pub fn new(alloc: Global, bytes: Vec<u8>) -> QueuedDisk
        ensures given { given result ≡ bytes.items }
        ensures bytes { bytes_of result ≡ bytes.items }
        ensures calls { calls_of result ≡ [] }
        ensures handed { handed_on result ≡ [] }
        ensures settled { IsSettled (state_of result) }
        ensures works { is_failed result ≡ false }
        ensures faults { (state_of result).faults ≡ 0 }
    {
        QueuedDisk {
            alloc,
            given: Snapshot::of(&bytes),
            past: Past::nothing(),
            bytes,
            tape: Vec::new(alloc),
            spare: Vec::new(alloc),
            failed: false,
            faults: 0,
        }
    }

    /// What is on the tape: the writes and syncs that were not handed on yet, in order.
    pub fn tape(&self) -> &[Call]
        ensures { result.now ≡ tape_of self.now }
    {
        &self.tape
    }

    /// The bytes, as a read gives them.
    pub fn bytes(&self) -> &[u8]
        ensures { result.now ≡ bytes_of self.now }
    {
        &self.bytes
    }

    /// All that is on the tape is handed on, and done to the file: nothing is on it any more. What the tape took of memory is kept
    /// for the next one, but for that of long writes.
    pub fn hand_on(&mut self)
        ensures tape { tape_of self.new ≡ [] }
        ensures handed { handed_on self.new ≡ calls_of self.old }
        ensures given { given self.new ≡ given self.old }
        ensures bytes { bytes_of self.new ≡ bytes_of self.old }
        ensures failed { is_failed self.new ≡ is_failed self.old }
        ensures faults { (state_of self.new).faults ≡ (state_of self.old).faults }
        ensures unwritten { WritesNothing (state_of self.old) (record (state_of self.new) { bound = (state_of self.old).bound }) }
    {
        self.past = self.past.with(&self.tape);
        take_calls(&mut self.tape, &mut self.spare);
    }

    /// A call of the tape failed when it was done: from now on each call of this disk fails. Nothing is on the tape any more, so
    /// nothing of it is done again, nor what came after the failure. Its calls count as handed on, since some of them were done.
    pub fn fail(&mut self)
        ensures failed { is_failed self.new ≡ true }
        ensures tape { tape_of self.new ≡ [] }
        ensures handed { handed_on self.new ≡ calls_of self.old }
        ensures given { given self.new ≡ given self.old }
        ensures bytes { bytes_of self.new ≡ bytes_of self.old }
        ensures faults { (state_of self.new).faults ≡ (state_of self.old).faults }
        ensures unwritten { WritesNothing (state_of self.old) (record (state_of self.new) { bound = (state_of self.old).bound }) }
    {
        self.hand_on();
        self.failed = true;
    }

    /// However many of the calls were done when all stopped, and whatever the writes after the last sync left then: what the
    /// file holds is one of the images that a crash may leave since any moment before.
    pub fn each_front_leaves_an_image(&self)
        // Of all calls since the disk was given its bytes. A moment is a number of calls.
        ensures calls { (t k : ℕ) (image : List ℕ) → t ≤ k → k ≤ length (calls_of self.now) → IsLeftBy (take k (calls_of self.now)) (given self.now) image
            → (state_of self.now).left t image }

        // So of each front of the tape, where the calls that were handed on are done: since the moment when that was.
        ensures tape { (n : ℕ) (image : List ℕ) → n ≤ length (tape_of self.now) → IsLeftBy (handed_on self.now ++ take n (tape_of self.now)) (given self.now) image
            → (state_of self.now).left (length (handed_on self.now)) image }

        // And of all of them: it is what a crash now may leave.
        ensures all { (image : List ℕ) → IsLeftBy (calls_of self.now) (given self.now) image → (state_of self.now).now image }
    {}

    /// Disks that are bound to one file were given the same bytes, and the same calls were handed on, by place and bytes.
    pub fn a_name_is_of_one_file(&self, other: &QueuedDisk)
        ensures { file_of self.now ≡ file_of other.now → (given self.now ≡ given other.now) × (map said (handed_on self.now) ≡ map said (handed_on other.now)) }
    {}

    // Counts a call that failed.
    fn fault(&mut self) -> DiskFault
        ensures count { self.new ≡ record self.old { faults = one_more self.old.faults } }
        ensures later { self.old.faults ≤ self.new.faults }
        ensures rose { Rose self.old.faults self.new.faults }
    {
        raise(&mut self.faults);
        DiskFault
    }

    fn try_write(&mut self, at: usize, bytes: &[u8]) -> Result<(), AllocError>
        requires { at + length bytes.now ≤ length (bytes_of self.old) }
        ensures ok { OnOk result ((put : Vec ℕ Global) × (put.items ≡ bytes.now) × Appends self.old self.new (Write at put)) }
        ensures err { OnErr result (IsUntouched self.old self.new) }
        ensures counts { (self.new.failed ≡ self.old.failed) × (self.new.faults ≡ self.old.faults) }
    {
        let put = copy_into(self.alloc, &mut self.spare, bytes)?;
        self.tape.push(Call::Write { at, bytes: put })?;
        lay(&mut self.bytes, at, bytes);
        Ok(())
    }

    fn try_sync(&mut self) -> Result<(), AllocError>
        ensures ok { OnOk result (Appends self.old self.new Sync) }
        ensures err { OnErr result (IsUntouched self.old self.new) }
        ensures counts { (self.new.failed ≡ self.old.failed) × (self.new.faults ≡ self.old.faults) }
    {
        self.tape.push(Call::Sync)?;
        Ok(())
    }
}

impl Disk for QueuedDisk {
    ghost use Rattle.queued_disk.specs.{Queued.{is_failed, state_of, IsUntouched, Appends}, Laws.lawful};

    ghost state = { state_of };

    ghost size_fits = { λ d. omega (arith, d.size_fits, d.same_size) };

    ghost lawful = { lawful };

    fn size(&self) -> u64 {
        self.bytes.len() as u64
    }

    fn read(&mut self, at: u64, into: &mut [u8]) -> Result<(), DiskFault>
        requires { at + length into.old ≤ (state_of self.old).size }
        ensures bytes { OnOk result (ForSome (state_of self.old).contents (λ c. into.new ≡ slice_range c at (at + length into.old))) }
        ensures contents { (state_of self.new).contents ≡ (state_of self.old).contents }
        ensures crash { Elapses (state_of self.old) (state_of self.new) (state_of self.old).now }
        ensures cause { HasCause (state_of self.old).faults (state_of self.new).faults result }
        ensures works { is_failed self.old ≡ false → IsOk result }
        ensures failed { is_failed self.old ≡ true → IsErr result }
        ensures untouched { IsUntouched self.old self.new × (is_failed self.new ≡ is_failed self.old) }
    {
        if self.failed {
            return Err(self.fault());
        }
        let from = at as usize;
        into.copy_from_slice(&self.bytes[from..from + into.len()]);
        Ok(())
    }

    fn write(&mut self, at: u64, bytes: &[u8]) -> Result<(), DiskFault>
        requires { at + length bytes.now ≤ (state_of self.old).size }
        ensures written { OnOk result (Splices at bytes.now (state_of self.old) (state_of self.new)) }
        ensures failed { OnErr result (TellsTorn at (length bytes.now) (state_of self.old) (state_of self.new)) }
        ensures crash { Elapses (state_of self.old) (state_of self.new) (TornFrom at (length bytes.now) (state_of self.old).now) }
        ensures cause { HasCause (state_of self.old).faults (state_of self.new).faults result }

        // One more call is on the tape where it answers Ok, and else none. It fails once a call of the tape has failed.
        ensures queued { OnOk result ((put : Vec ℕ Global) × (put.items ≡ bytes.now) × Appends self.old self.new (Write at put)) }
        ensures untouched { OnErr result (IsUntouched self.old self.new) }
        ensures stays_failed { is_failed self.new ≡ is_failed self.old }
        ensures told { is_failed self.old ≡ true → IsErr result }
    {
        if self.failed {
            return Err(self.fault());
        }
        match self.try_write(at as usize, bytes) {
            Ok(()) => Ok(()),
            Err(_) => Err(self.fault()),
        }
    }

    fn sync(&mut self) -> Result<(), DiskFault>
        ensures settled { OnOk result (IsSettled (state_of self.new)) }
        ensures contents { (state_of self.new).contents ≡ (state_of self.old).contents }
        ensures crash { Elapses (state_of self.old) (state_of self.new) (state_of self.old).now }
        ensures cause { HasCause (state_of self.old).faults (state_of self.new).faults result }
        ensures queued { OnOk result (Appends self.old self.new Sync) }
        ensures untouched { OnErr result (IsUntouched self.old self.new) }
        ensures stays_failed { is_failed self.new ≡ is_failed self.old }
        ensures told { is_failed self.old ≡ true → IsErr result }
    {
        if self.failed {
            return Err(self.fault());
        }
        match self.try_sync() {
            Ok(()) => Ok(()),
            Err(_) => Err(self.fault()),
        }
    }
}
