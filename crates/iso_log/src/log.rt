// The log itself.

use crate::ahead::ReadAhead;
use crate::count::count_records;
use crate::log_error::LogError;
use crate::put::put_group;
use crate::scan::find_record;
use iso_disk::Disk;
use iso_model::{Geometry, LAST};
use std::marker::Model;

/// A log: where it is, how many bytes it has, how many of them its records take, and the number of its last record.
#[derive(Drop)]
pub struct Log {
    place: u64,
    room: u32,
    used: u32,
    last: u64,
}

impl Model for Log {
    ghost use Rattle.std.specs.Prelude.{◌≤◌};
    ghost use Rattle.iso_log.specs.Extent.{Extent};

    ghost Value = { Extent };

    ghost view = { λ a. record { place = a.place; room = a.room; used = a.used; last = a.last } };

    ghost invariant = { λ a. a.used ≤ a.room };
}

impl Log {
    ghost use Rattle.std.specs.{Prelude.{◌≡◌, ◌⊎◌, ◌+◌, ◌-◌, ◌<◌, ◌≤◌, ◌++◌, [], ◌∷◌, ℕ, List, Err, None, length, take, OnOk, OnErr, IfOk, IfErr, IfSome, IsErrOf, IsTrue}, List.slice_range, Option.ForSome};
    ghost use Rattle.iso_model.specs.{declared.access.Geometry.Geometry, Geometry.is_valid, Image.Written};
    ghost use Rattle.iso_disk.specs.Disk.{IsSettled, LeavesOnly, StaysTold, WritesNothing};
    ghost use Rattle.commit_gate.specs.Gate.{IsClosed};
    ghost use Rattle.iso_image.specs.Half.{Half, HasLog, IsHeld, with_records};
    ghost use Rattle.iso_log.specs.{Cause.BlamesDisk, Extent.{extent_of, next_place}, Log.{AppendedTo, AppendingFrom, HasTold, IsNext}, Scan.{IsDamaged, IsFirst, IsFound, IsTaken, IsTestBefore, StandAt}};

    /// The log of `room` bytes at a place of the image, before its first record; `base` is the number before that one's.
    pub fn start(place: u64, room: u32, base: u64) -> Log
        ensures { result ≡ record { place = place; room = room; used = 0; last = base } }
    {
        Log {
            place,
            room,
            used: 0,
            last: base,
        }
    }

    /// Goes to another place, where the last records lie again and take `used` bytes.
    pub fn go_to(&mut self, place: u64, used: u32)
        requires { used ≤ self.old.room }
        ensures { self.new ≡ record self.old { place = place; used = used } }
    {
        self.place = place;
        self.used = used;
    }

    /// How many bytes the records take.
    pub fn used(&self) -> u32
        ensures { result ≡ self.now.used }
    {
        self.used
    }

    /// How many bytes the log has.
    pub fn room(&self) -> u32
        ensures { result ≡ self.now.room }
    {
        self.room
    }

    /// How many bytes are free.
    pub fn free(&self) -> u32
        ensures { result ≡ self.now.room - self.now.used }
    {
        self.room - self.used
    }

    /// The number of the last record, or of the base where there is none.
    pub fn last(&self) -> u64
        ensures { result ≡ self.now.last }
    {
        self.last
    }

    /// Adds records, as they are spelled one after another with open gates and a closed gate after the last. It answers
    /// the place of the first. It makes one write, one sync, a write of one byte and one sync, and takes no memory.
    ///
    /// # Errors
    ///
    /// The log is as before.
    /// - `LogFull` exactly where the bytes do not fit, which is tried first. The disk is untouched.
    /// - `Disk`: a call of the disk failed. Each image that a crash leaves has all of the records or none.
    pub fn append_group<D: Disk>(&mut self, disk: &mut D, bytes: &[u8]) -> Result<u64, LogError>
        requires fits { self.old.place + self.old.room ≤ (D.state disk.old).size }
        requires next { (g : Geometry) × (more : List Written) × IsNext self.old g more bytes.now }
        requires told { (g : Geometry) × (first : ℕ) × (told : List Written) × HasTold self.old g first told (D.state disk.old).now }

        // At each moment an image is one from before the call, with the records whole or after a closed gate.
        ensures moments { LeavesOnly (D.state disk.old) (D.state disk.new) (AppendingFrom (next_place self.old) bytes.now (D.state disk.old).now) }
        ensures whole { OnOk result ((c : List ℕ) → (D.state disk.new).now c → AppendedTo (next_place self.old) bytes.now (D.state disk.old).now c) }
        // So its log has all of them or none, and on Ok all.
        ensures all_or_none { (g : Geometry) (first : ℕ) (told more : List Written) → HasTold self.old g first told (D.state disk.old).now → IsNext self.old g more bytes.now
            → LeavesOnly (D.state disk.old) (D.state disk.new) (λ c. HasLog self.old.place self.old.room g first told c ⊎ HasLog self.old.place self.old.room g first (told ++ more) c) }
        ensures all { (g : Geometry) (first : ℕ) (told more : List Written) → HasTold self.old g first told (D.state disk.old).now → IsNext self.old g more bytes.now
            → OnOk result (HasTold self.new g first (told ++ more) (D.state disk.new).now) }
        // So the half that it holds has all of them or none, and on Ok all.
        ensures held_moments { (g : Geometry) (x : Half) (more : List Written) → self.old ≡ extent_of g x → IsNext self.old g more bytes.now
            → ((c : List ℕ) → (D.state disk.old).now c → IsHeld g x c)
            → LeavesOnly (D.state disk.old) (D.state disk.new) (λ c. IsHeld g x c ⊎ IsHeld g (with_records more x) c) }
        ensures held { (g : Geometry) (x : Half) (more : List Written) → self.old ≡ extent_of g x → IsNext self.old g more bytes.now
            → ((c : List ℕ) → (D.state disk.old).now c → IsHeld g x c)
            → OnOk result ((self.new ≡ extent_of g (with_records more x)) × ((c : List ℕ) → (D.state disk.new).now c → IsHeld g (with_records more x) c)) }

        ensures settled { OnOk result (IsSettled (D.state disk.new)) }
        ensures told { OnOk result (StaysTold (D.state disk.old) (D.state disk.new)) }
        ensures place { IfOk result (λ at. at ≡ next_place self.old) }
        ensures grown { (g : Geometry) (more : List Written) → IsNext self.old g more bytes.now
            → OnOk result (self.new ≡ record self.old { used = self.old.used + length bytes.now - 1; last = self.old.last + length more }) }
        ensures kept { OnErr result (self.new ≡ self.old) }

        // It is full exactly where the bytes do not fit, which is tried first.
        ensures full { self.old.room < self.old.used + length bytes.now
            → (result ≡ Err (LogError.LogFull (length bytes.now) (self.old.room - self.old.used))) × (disk.new ≡ disk.old) }
        ensures not_full { self.old.used + length bytes.now ≤ self.old.room → (need free : ℕ) → IsErrOf result (LogError.LogFull need free) → ⊥ }
        ensures cause { BlamesDisk (D.state disk.old).faults (D.state disk.new).faults result }
        ensures only { IfErr result (λ e. (e ≡ LogError.Disk) ⊎ (e ≡ LogError.LogFull (length bytes.now) (self.old.room - self.old.used))) }
    {
        let need = bytes.len() as u64;
        let free = u64::from(self.room - self.used);
        if free < need {
            return Err(LogError::LogFull { need, free });
        }
        let count = count_records(bytes);
        let gate = self.place + u64::from(self.used);
        if let Err(_) = put_group(disk, gate, bytes) {
            return Err(LogError::Disk);
        }
        self.used += bytes.len() as u32 - 1;
        self.last += count;
        Ok(gate)
    }

    /// Adds one record, in the same way.
    ///
    /// # Errors
    ///
    /// As those of `append_group`.
    pub fn append<D: Disk>(&mut self, disk: &mut D, bytes: &[u8]) -> Result<u64, LogError>
        requires fits { self.old.place + self.old.room ≤ (D.state disk.old).size }
        requires next { (g : Geometry) × (w : Written) × IsNext self.old g (w ∷ []) bytes.now }
        requires told { (g : Geometry) × (first : ℕ) × (told : List Written) × HasTold self.old g first told (D.state disk.old).now }
        ensures moments { LeavesOnly (D.state disk.old) (D.state disk.new) (AppendingFrom (next_place self.old) bytes.now (D.state disk.old).now) }
        ensures whole { OnOk result ((c : List ℕ) → (D.state disk.new).now c → AppendedTo (next_place self.old) bytes.now (D.state disk.old).now c) }
        // So the log has the record or not, and on Ok it has it.
        ensures all_or_none { (g : Geometry) (first : ℕ) (told : List Written) (w : Written) → HasTold self.old g first told (D.state disk.old).now → IsNext self.old g (w ∷ []) bytes.now
            → LeavesOnly (D.state disk.old) (D.state disk.new) (λ c. HasLog self.old.place self.old.room g first told c ⊎ HasLog self.old.place self.old.room g first (told ++ w ∷ []) c) }
        ensures all { (g : Geometry) (first : ℕ) (told : List Written) (w : Written) → HasTold self.old g first told (D.state disk.old).now → IsNext self.old g (w ∷ []) bytes.now
            → OnOk result (HasTold self.new g first (told ++ w ∷ []) (D.state disk.new).now) }
        // So the half that an image holds has it or not, and on Ok it has it.
        ensures held_moments { (g : Geometry) (x : Half) (w : Written) → self.old ≡ extent_of g x → IsNext self.old g (w ∷ []) bytes.now
            → ((c : List ℕ) → (D.state disk.old).now c → IsHeld g x c)
            → LeavesOnly (D.state disk.old) (D.state disk.new) (λ c. IsHeld g x c ⊎ IsHeld g (with_records (w ∷ []) x) c) }
        ensures held { (g : Geometry) (x : Half) (w : Written) → self.old ≡ extent_of g x → IsNext self.old g (w ∷ []) bytes.now
            → ((c : List ℕ) → (D.state disk.old).now c → IsHeld g x c)
            → OnOk result ((self.new ≡ extent_of g (with_records (w ∷ []) x)) × ((c : List ℕ) → (D.state disk.new).now c → IsHeld g (with_records (w ∷ []) x) c)) }
        ensures settled { OnOk result (IsSettled (D.state disk.new)) }
        ensures told { OnOk result (StaysTold (D.state disk.old) (D.state disk.new)) }
        ensures place { IfOk result (λ at. at ≡ next_place self.old) }
        ensures grown { OnOk result (self.new ≡ record self.old { used = self.old.used + length bytes.now - 1; last = self.old.last + 1 }) }
        ensures kept { OnErr result (self.new ≡ self.old) }
        ensures full { self.old.room < self.old.used + length bytes.now
            → (result ≡ Err (LogError.LogFull (length bytes.now) (self.old.room - self.old.used))) × (disk.new ≡ disk.old) }
        ensures not_full { self.old.used + length bytes.now ≤ self.old.room → (need free : ℕ) → IsErrOf result (LogError.LogFull need free) → ⊥ }
        ensures cause { BlamesDisk (D.state disk.old).faults (D.state disk.new).faults result }
        ensures only { IfErr result (λ e. (e ≡ LogError.Disk) ⊎ (e ≡ LogError.LogFull (length bytes.now) (self.old.room - self.old.used))) }
    {
        self.append_group(disk, bytes)
    }

    /// Finds the next record, and answers how many bytes it has with the gate after it: the first of those that are
    /// read ahead. It answers none where that record's gate is closed. Bytes are read a piece of the log at once, so a
    /// log costs one call of the disk a piece; `ReadAhead::view_front` returns what the record says, and `pass` passes
    /// it. It writes nothing.
    ///
    /// # Errors
    ///
    /// - `Damaged`: where in the image the record is wrong, and the first test that it fails.
    /// - `Disk`: a call of the disk failed.
    /// - `Memory`: want of memory for what is read ahead.
    #[inline(always)]
    pub fn find_ahead<D: Disk>(
        &self,
        disk: &mut D,
        geometry: &Geometry,
        ahead: &mut ReadAhead,
    ) -> Result<Option<u32>, LogError>
        requires fits { self.now.place + self.now.room ≤ (D.state disk.old).size }
        requires left { self.now.used < self.now.room }
        requires number { self.now.last ≤ LAST }
        requires valid { IsTrue (is_valid geometry.now) }
        requires within { self.now.used + length ahead.old ≤ self.now.room }
        requires ahead { ForSome (D.state disk.old).contents (StandAt (next_place self.now) ahead.old) }
        ensures closed { IfOk result (λ found. found ≡ None → ForSome (D.state disk.old).contents (IsClosed (next_place self.now))) }
        ensures found { IfOk result (λ found. IfSome found (IsFound geometry.now (self.now.last + 1) ahead.new)) }
        ensures first { IfOk result (λ found. IfSome found (λ n. ForSome (D.state disk.old).contents (IsFirst geometry.now (next_place self.now) (self.now.room - self.now.used) (self.now.last + 1)))) }
        ensures damaged { (at cause : ℕ) → IsErrOf result (LogError.Damaged at cause)
            → ForSome (D.state disk.old).contents (IsDamaged geometry.now (next_place self.now) (self.now.room - self.now.used) (self.now.last + 1) at cause) }
        ensures test { (at cause : ℕ) → IsErrOf result (LogError.Damaged at cause) → IsTestBefore (self.now.place + self.now.room) at cause }
        ensures within { self.now.used + length ahead.new ≤ self.now.room }
        ensures ahead { ForSome (D.state disk.old).contents (StandAt (next_place self.now) ahead.new) }
        ensures unwritten { WritesNothing (D.state disk.old) (D.state disk.new) }
        ensures cause { BlamesDisk (D.state disk.old).faults (D.state disk.new).faults result }
        ensures not_full { (need free : ℕ) → IsErrOf result (LogError.LogFull need free) → ⊥ }
    {
        let gate = self.place + u64::from(self.used);
        let rest = self.room - self.used;
        find_record(disk, gate, rest, geometry, self.last + 1, ahead)
    }

    /// Passes the record of `size` bytes that `find_ahead` found.
    pub fn pass(&mut self, ahead: &mut ReadAhead, size: u32)
        requires found { (g : Geometry) × IsFound g (self.old.last + 1) ahead.old size }
        requires within { self.old.used + length ahead.old ≤ self.old.room }
        ensures taken { (g : Geometry) → IsFound g (self.old.last + 1) ahead.old size → IsTaken g self.old self.new (take size ahead.old) }
        ensures within { self.new.used + length ahead.new ≤ self.new.room }
        ensures ahead { (c : List ℕ) → StandAt (next_place self.old) ahead.old c → StandAt (next_place self.new) ahead.new c }
    {
        ahead.pass(size as usize - 1);
        self.used += size - 1;
        self.last += 1;
    }

    /// Reads bytes of the image from a place on.
    ///
    /// # Errors
    ///
    /// `Disk`: the disk failed. Any bytes may be in the slice.
    pub fn read_at<D: Disk>(&self, disk: &mut D, at: u64, into: &mut [u8]) -> Result<(), LogError>
        requires { at + length into.old ≤ (D.state disk.old).size }
        ensures bytes { OnOk result (ForSome (D.state disk.old).contents (λ c. into.new ≡ slice_range c at (at + length into.old))) }
        ensures unwritten { WritesNothing (D.state disk.old) (D.state disk.new) }
        ensures cause { BlamesDisk (D.state disk.old).faults (D.state disk.new).faults result }
        ensures only { IfErr result (λ e. e ≡ LogError.Disk) }
    {
        match disk.read(at, into) {
            Ok(()) => Ok(()),
            Err(_) => Err(LogError::Disk),
        }
    }
}
