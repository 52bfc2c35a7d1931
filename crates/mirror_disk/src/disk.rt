// A mirror as a disk.
ghost use Rattle.std.specs.{Prelude.{◌≡◌, ◌+◌, ◌≤◌, length, OnOk, OnErr}, List.slice_range, Option.ForSome};
ghost use Rattle.iso_disk.specs.Disk.{Elapses, IsSettled, Splices, TellsTorn, TornFrom};
ghost use Rattle.counts.specs.Count.{HasCause};
ghost use Rattle.mirror_disk.specs.Failing.{IsCounted};

use crate::mirror::Mirror;
use crate::sides::{HEADER, read_sides, sync_sides, write_sides};
use crate::used::Used;
use counts::raise;
use iso_disk::{Disk, DiskFault, Image};

impl<A: Image, B: Image> Disk for Mirror<A, B> {
    ghost use Rattle.mirror_disk.specs.State.{HasChanged, HasRead, mirror_lawful, mirror_size, state_of};

    ghost state = { state_of };

    ghost size_fits = { mirror_size A.size_fits };

    ghost lawful = { mirror_lawful A.lawful B.lawful };

    fn size(&self) -> u64 {
        match self.marks.used {
            Used::Plain => self.first.size(),
            Used::Unbound => 0,
            Used::Both | Used::OnlyFirst | Used::OnlySecond | Used::Broken => {
                self.first.size() - HEADER
            }
        }
    }

    /// Asks the first side in use and, where it fails, the other one.
    ///
    /// # Errors
    ///
    /// Each side in use failed; a broken or unbound mirror always fails. Which sides are in use stays.
    fn read(&mut self, at: u64, into: &mut [u8]) -> Result<(), DiskFault>
        requires { at + length into.old ≤ (state_of self.old).size }
        ensures bytes { OnOk result (ForSome (state_of self.old).contents (λ c. into.new ≡ slice_range c at (at + length into.old))) }
        ensures contents { (state_of self.new).contents ≡ (state_of self.old).contents }
        ensures crash { Elapses (state_of self.old) (state_of self.new) (state_of self.old).now }
        ensures asked { HasRead self.old self.new result }
        ensures cause { HasCause (state_of self.old).faults (state_of self.new).faults result }
    {
        let done = read_sides(
            &mut self.first,
            &mut self.second,
            self.marks,
            &mut self.past,
            at,
            into,
        );
        count(&mut self.faults, done)
    }

    /// Writes to each side in use, and leaves out one that fails: it raises the epoch of the other one first.
    ///
    /// # Errors
    ///
    /// Each side in use failed, or one whose leaving needs an epoch above the last one. A mirror of two sides in use is
    /// broken then.
    fn write(&mut self, at: u64, bytes: &[u8]) -> Result<(), DiskFault>
        requires { at + length bytes.now ≤ (state_of self.old).size }
        ensures written { OnOk result (Splices at bytes.now (state_of self.old) (state_of self.new)) }
        ensures failed { OnErr result (TellsTorn at (length bytes.now) (state_of self.old) (state_of self.new)) }
        ensures crash { Elapses (state_of self.old) (state_of self.new) (TornFrom at (length bytes.now) (state_of self.old).now) }
        ensures changed { HasChanged self.old self.new result }
        ensures cause { HasCause (state_of self.old).faults (state_of self.new).faults result }
    {
        let (used, done) = write_sides(
            &mut self.first,
            &mut self.second,
            self.marks,
            &mut self.past,
            at,
            bytes,
        );
        self.marks.used = used;
        count(&mut self.faults, done)
    }

    /// Makes each side in use stable, and leaves out one that fails, as a write does.
    ///
    /// # Errors
    ///
    /// As those of a write. A read gives what it gave.
    fn sync(&mut self) -> Result<(), DiskFault>
        ensures settled { OnOk result (IsSettled (state_of self.new)) }
        ensures contents { (state_of self.new).contents ≡ (state_of self.old).contents }
        ensures crash { Elapses (state_of self.old) (state_of self.new) (state_of self.old).now }
        ensures changed { HasChanged self.old self.new result }
        ensures cause { HasCause (state_of self.old).faults (state_of self.new).faults result }
    {
        let (used, done) = sync_sides(
            &mut self.first,
            &mut self.second,
            self.marks,
            &mut self.past,
        );
        self.marks.used = used;
        count(&mut self.faults, done)
    }
}

/// Counts a fault where a call was not done.
pub(crate) fn count(faults: &mut u64, done: bool) -> Result<(), DiskFault>
    ensures { IsCounted faults.old faults.new done result }
{
    if done {
        return Ok(());
    }
    raise(faults);
    Err(DiskFault)
}
