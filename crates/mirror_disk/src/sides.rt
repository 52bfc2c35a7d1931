// Calls on the sides of a mirror that are in use.
ghost use Rattle.std.specs.Prelude.{◌≡◌, ◌+◌, ◌≤◌, length, true};
ghost use Rattle.iso_disk.specs.Disk.{IsSettled, spliced};
ghost use Rattle.mirror_disk.specs.{Called.{ChangesSides, ReadsSides, SideCalled, SideRead, SyncsSides}, Ended.{EndsAsked, WereAsked}, Failing.HasLeft, Raised.{IsMarked, RaisesByOne}, Standing.{HasRange, StandsBy}};

use crate::marks::Marks;
use crate::past::Past;
use crate::raise::raise_epoch;
use crate::slot::Slot;
use crate::used::Used;
use iso_disk::Disk;

/// How many bytes a side has before those that it mirrors.
pub(crate) const HEADER: u64 = 64;

/// The largest epoch.
pub(crate) const LAST: u64 = 9_223_372_036_854_775_807;

/// Writes to the sides in use, and says which are in use then and whether it was done.
pub(crate) fn write_sides<A: Disk, B: Disk>(
    first: &mut A,
    second: &mut B,
    marks: Marks,
    past: &mut Past<A, B>,
    at: u64,
    bytes: &[u8],
) -> (Used, bool)
    requires { HasRange (A.state first.old) (B.state second.old) marks past.old at (length bytes.now) }
    ensures { ChangesSides A.state B.state marks past.old past.new at (length bytes.now) (λ c. spliced c at bytes.now) (first.old, second.old) (first.new, second.new) result }
{
    let next = Past::later(first, second, past);
    *past = next;
    match marks.used {
        Used::OnlyFirst => {
            let done = write_side(first, at, bytes);
            (Used::OnlyFirst, done)
        }
        Used::OnlySecond => {
            let done = write_side(second, at, bytes);
            (Used::OnlySecond, done)
        }
        Used::Both => {
            let first_done = write_side(first, at, bytes);
            let second_done = write_side(second, at, bytes);
            let left = leave_out(first, second, marks, first_done, second_done);
            (left, left.goes_on())
        }
        Used::Plain => {
            let done = first.write(at, bytes).is_ok();
            (Used::Plain, done)
        }
        Used::Broken | Used::Unbound => (marks.used, false),
    }
}

/// Makes the sides in use stable, and says which are in use then and whether it was done.
pub(crate) fn sync_sides<A: Disk, B: Disk>(
    first: &mut A,
    second: &mut B,
    marks: Marks,
    past: &mut Past<A, B>,
) -> (Used, bool)
    requires { StandsBy (A.state first.old) (B.state second.old) marks past.old }
    ensures { SyncsSides A.state B.state marks past.old past.new (first.old, second.old) (first.new, second.new) result }
{
    let next = Past::later(first, second, past);
    *past = next;
    match marks.used {
        Used::OnlyFirst => {
            let done = sync_side(first);
            (Used::OnlyFirst, done)
        }
        Used::OnlySecond => {
            let done = sync_side(second);
            (Used::OnlySecond, done)
        }
        Used::Both => {
            let first_done = sync_side(first);
            let second_done = sync_side(second);
            let left = leave_out(first, second, marks, first_done, second_done);
            (left, left.goes_on())
        }
        Used::Plain => {
            let done = first.sync().is_ok();
            (Used::Plain, done)
        }
        Used::Broken | Used::Unbound => (marks.used, false),
    }
}

/// Reads from the first side in use and, where it fails, from the other.
pub(crate) fn read_sides<A: Disk, B: Disk>(
    first: &mut A,
    second: &mut B,
    marks: Marks,
    past: &mut Past<A, B>,
    at: u64,
    into: &mut [u8],
) -> bool
    requires { HasRange (A.state first.old) (B.state second.old) marks past.old at (length into.old) }
    ensures { ReadsSides A.state B.state marks past.old past.new at (length into.old) into.new (first.old, second.old) (first.new, second.new) result }
{
    let next = Past::later(first, second, past);
    *past = next;
    match marks.used {
        Used::OnlyFirst => read_side(first, at, into),
        Used::OnlySecond => read_side(second, at, into),
        Used::Both => {
            if read_side(first, at, into) {
                return true;
            }
            read_side(second, at, into)
        }
        Used::Plain => first.read(at, into).is_ok(),
        Used::Broken | Used::Unbound => false,
    }
}

/// Writes behind the header of a side, and says whether it was done.
fn write_side<D: Disk>(side: &mut D, at: u64, bytes: &[u8]) -> bool
    requires { 64 + at + length bytes.now ≤ (D.state side.old).size }
    ensures { SideCalled at (length bytes.now) (λ c. spliced c at bytes.now) (D.state side.old) (D.state side.new) result }
{
    side.write(HEADER + at, bytes).is_ok()
}

/// Makes a side stable, and says whether it was done.
fn sync_side<D: Disk>(side: &mut D) -> bool
    ensures called { SideCalled 0 0 (λ c. c) (D.state side.old) (D.state side.new) result }
    ensures settled { result ≡ true → IsSettled (D.state side.new) }
{
    side.sync().is_ok()
}

/// Reads behind the header of a side, and says whether it was done.
fn read_side<D: Disk>(side: &mut D, at: u64, into: &mut [u8]) -> bool
    requires { 64 + at + length into.old ≤ (D.state side.old).size }
    ensures { SideRead at (length into.old) into.new (D.state side.old) (D.state side.new) result }
{
    side.read(HEADER + at, into).is_ok()
}

/// Leaves out the side that failed, and says which sides are in use then.
fn leave_out<A: Disk, B: Disk>(
    first: &mut A,
    second: &mut B,
    marks: Marks,
    first_done: bool,
    second_done: bool,
) -> Used
    requires asked { WereAsked A.state B.state marks (first.old, second.old) first_done second_done }
    ensures ended { EndsAsked A.state B.state marks (first.old, second.old) (first.new, second.new) first_done second_done result }
    ensures left { HasLeft (A.state first.old) (B.state second.old) (A.state first.new) (B.state second.new) result marks.epoch first_done second_done }
{
    if first_done {
        if second_done {
            return Used::Both;
        }
        if raise_by_one(first, marks.first_slot, marks.epoch) {
            return Used::OnlyFirst;
        }
        return Used::Broken;
    }
    if second_done {
        if raise_by_one(second, marks.second_slot, marks.epoch) {
            return Used::OnlySecond;
        }
        return Used::Broken;
    }
    Used::Broken
}

/// Raises the epoch of a side by one, if there is a larger one.
pub(crate) fn raise_by_one<D: Disk>(disk: &mut D, slot: Slot, epoch: u64) -> bool
    requires size { 64 ≤ (D.state disk.old).size }
    requires marked { IsMarked slot epoch (D.state disk.old) }
    ensures { RaisesByOne slot epoch (D.state disk.old) (D.state disk.new) result }
{
    if epoch >= LAST {
        return false;
    }
    match raise_epoch(disk, slot, epoch + 1) {
        Ok(()) => true,
        Err(_) => false,
    }
}
