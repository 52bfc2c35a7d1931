// Bytes of a log that are read ahead of its scan.
ghost use Rattle.std.specs.{Prelude.{◌≡◌, ◌+◌, ◌-◌, ◌≤◌, ◌++◌, ℕ, List, length, take, OnOk, IsErrOf}, List.slice_range, Option.ForSome};
ghost use Rattle.iso_log.specs.Cause.{OnlyReads};

use crate::log_error::LogError;
use iso_disk::Disk;
use iso_format::{RecordView, view_record};
use std::alloc::{AllocError, Global};
use std::marker::Model;

/// How many bytes the first read asks for at most, so that a log that holds little takes little memory.
const FIRST: u32 = 69_632;

/// The bytes of a log from its next gate on, as far as they were read. Contracts see these bytes. It takes memory for one
/// piece, or for the longest record, and each byte is read from the disk once.
#[derive(Drop)]
pub struct ReadAhead {
    // What lies after `end` was read before, or never: memory that is taken is kept, and cleared once.
    bytes: Vec<u8>,
    // Where those begin that the scan has not passed, and where they end.
    from: usize,
    end: usize,
    // How many bytes are read at once, where the log has as many.
    piece: u32,
}

impl Model for ReadAhead {
    ghost use Rattle.std.specs.{Prelude.{◌≤◌, ℕ, List, length}, List.slice_range};

    ghost Value = { List ℕ };

    ghost view = { λ a. slice_range a.bytes.items a.from a.end };

    ghost invariant = { λ a. (a.from ≤ a.end) × (a.end ≤ length a.bytes.items) };
}

impl ReadAhead {
    ghost use Rattle.std.specs.Prelude.{◌≡◌, ◌+◌, ◌≤◌, [], None, ℕ, length, take, drop};
    ghost use Rattle.iso_model.specs.{declared.access.Geometry.Geometry, Premises.AreBytes};
    ghost use Rattle.iso_format.specs.Records.{fault_of, recorded};
    ghost use Rattle.iso_log.specs.Ahead.{ReadsAhead};

    /// Nothing is read yet. Each read of the disk will ask for `piece` bytes, or for all of a longer record, and the first one
    /// for 69,632 at most.
    pub fn new(alloc: Global, piece: u32) -> Self
        ensures { result ≡ [] }
    {
        ReadAhead {
            bytes: Vec::new(alloc),
            from: 0,
            end: 0,
            piece,
        }
    }

    /// The bytes that are read and not passed.
    pub(crate) fn as_slice(&self) -> &[u8]
        ensures { result.now ≡ self.now }
    {
        &self.bytes.as_slice()[self.from..self.end]
    }

    /// The record at the front of these bytes, which has `size` with the gate after it. It was tested, and is not again.
    pub fn view_front(&self, size: u32) -> RecordView<'_>
        requires within { size ≤ length self.now }
        requires passes { (g : Geometry) × (number : ℕ) × (fault_of g number (take size self.now) ≡ None) }
        ensures says { result ≡ recorded (take size self.now) }
        ensures values { AreBytes (take size self.now) }
    {
        let (record, _) = self.as_slice().split_at(size as usize);
        view_record(record)
    }

    /// Passes `count` of these bytes.
    pub(crate) fn pass(&mut self, count: usize)
        requires { count ≤ length self.old }
        ensures { self.new ≡ drop count self.old }
    {
        self.from += count;
    }

    /// Reads on until there are `need` bytes, where `rest` of the log are left from its next gate on.
    #[inline(always)]
    pub(crate) fn ask<D: Disk>(
        &mut self,
        disk: &mut D,
        gate: u64,
        need: u32,
        rest: u32,
    ) -> Result<(), LogError>
        requires fits { gate + rest ≤ (D.state disk.old).size }
        requires within { length self.old ≤ rest }
        requires need { need ≤ rest }
        ensures { ReadsAhead gate need rest self.old self.new (D.state disk.old) (D.state disk.new) result }
    {
        if self.as_slice().len() >= need as usize {
            return Ok(());
        }
        self.read_on(disk, gate, need, rest)
    }

    /// Reads on where there are fewer. It is kept apart, as it is called once a piece, and `ask` twice a record.
    #[inline(never)]
    fn read_on<D: Disk>(
        &mut self,
        disk: &mut D,
        gate: u64,
        need: u32,
        rest: u32,
    ) -> Result<(), LogError>
        requires fits { gate + rest ≤ (D.state disk.old).size }
        requires fewer { length self.old ≤ need }
        requires need { need ≤ rest }
        ensures { ReadsAhead gate need rest self.old self.new (D.state disk.old) (D.state disk.new) result }
    {
        let have = self.end - self.from;
        move_up(&mut self.bytes, self.from, self.end);
        self.from = 0;
        self.end = have;
        let want = need.max(next_piece(self.piece, self.bytes.len()).min(rest)) as usize;
        read_more(disk, gate + have as u64, &mut self.bytes, have, want)?;
        self.end = want;
        Ok(())
    }
}

// How many bytes are to be read at once, where there is memory for `room` bytes.
fn next_piece(piece: u32, room: usize) -> u32 {
    if room == 0 { piece.min(FIRST) } else { piece }
}

// Moves the bytes of a range to the front.
fn move_up(bytes: &mut Vec<u8>, from: usize, end: usize)
    requires order { from ≤ end }
    requires within { end ≤ length bytes.old.items }
    ensures front { take (end - from) bytes.new.items ≡ slice_range bytes.old.items from end }
    ensures size { length bytes.new.items ≡ length bytes.old.items }
{
    bytes.as_mut_slice().copy_within(from..end, 0);
}

// Makes the vector at least `want` bytes long. The bytes that it has stay.
fn reach(bytes: &mut Vec<u8>, want: usize) -> Result<(), AllocError>
    ensures long { OnOk result (want ≤ length bytes.new.items) }
    ensures grown { (more : List ℕ) × (bytes.new.items ≡ bytes.old.items ++ more) }
{
    if bytes.len() < want {
        bytes.resize(want, 0)?;
    }
    Ok(())
}

// Reads on after the first `have` of these bytes, up to `want` in all. The first ones stay.
fn read_more<D: Disk>(
    disk: &mut D,
    at: u64,
    bytes: &mut Vec<u8>,
    have: usize,
    want: usize,
) -> Result<(), LogError>
    requires more { have ≤ want }
    requires within { have ≤ length bytes.old.items }
    requires fits { at + (want - have) ≤ (D.state disk.old).size }
    ensures long { OnOk result (want ≤ length bytes.new.items) }
    ensures within { have ≤ length bytes.new.items }
    ensures front { take have bytes.new.items ≡ take have bytes.old.items }
    ensures told { OnOk result (ForSome (D.state disk.old).contents (λ c. take want bytes.new.items ≡ take have bytes.old.items ++ slice_range c at (at + (want - have)))) }
    ensures reads { OnlyReads (D.state disk.old) (D.state disk.new) result }
    ensures not_damaged { (at cause : ℕ) → IsErrOf result (LogError.Damaged at cause) → ⊥ }
{
    if let Err(_) = reach(bytes, want) {
        return Err(LogError::Memory);
    }
    let (all, _) = bytes.as_mut_slice().split_at_mut(want);
    let (_, rest) = all.split_at_mut(have);
    if let Err(_) = disk.read(at, rest) {
        return Err(LogError::Disk);
    }
    Ok(())
}
