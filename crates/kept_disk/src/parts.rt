// Reads and writes, one page at a time.
ghost use Rattle.std.specs.{Prelude.{◌≡◌, ◌+◌, ◌%◌, ◌^◌, ◌<◌, ◌≤◌, length, OnOk, IsOk, true}};
ghost use Rattle.kept_disk.specs.{Holding.{Follows, IsOver, ReadsBytes}, Pages.{ArePart, HoldsRange, IsHeld, KeepsOthers, end_of, page_at}};

use crate::pages::{PAGE, Pages, left_in_page, page_at};
use iso_disk::{Disk, DiskFault};

/// Reads bytes, from pages where these hold them, and through pages where not.
pub(crate) fn read_parts<D: Disk>(
    disk: &mut D,
    pages: &mut Pages,
    at: u64,
    into: &mut [u8],
) -> Result<(), DiskFault>
    requires { IsOver (D.state disk.old) pages.old at (length into.old) }
    ensures read { ReadsBytes (D.state disk.old) (D.state disk.new) pages.new at (length into.old) into.new result }
    ensures held { HoldsRange pages.old.numbers.items at (length into.old) → (IsOk result) × (disk.new ≡ disk.old) }
    ensures holds { OnOk result (2053 ≤ length pages.old.numbers.items → length into.old ≤ 65536 → HoldsRange pages.new.numbers.items at (length into.old)) }
{
    if is_in_one_page(at, into.len()) {
        return read_part(disk, pages, at, into);
    }
    let mut done = 0;
    while done < into.len() {
        let place = at + done as u64;
        let count = part_len(place, into.len() - done);
        if let Err(fault) = read_part(disk, pages, place, &mut into[done..done + count]) {
            return Err(fault);
        }
        done += count;
    }
    Ok(())
}

// Whether `len` bytes from a place on, at least one, lie in one page.
fn is_in_one_page(at: u64, len: usize) -> bool
    ensures { result ≡ true → ArePart at len }
{
    len != 0 && len <= left_in_page(at)
}

// How many of the `len` bytes from `at` on lie in the page of `at`.
fn part_len(at: u64, len: usize) -> usize
    requires { 0 < len }
    ensures part { ArePart at result }
    ensures within { result ≤ len }
{
    left_in_page(at).min(len)
}

// Reads bytes of one page, which is then held where there is a place for it.
fn read_part<D: Disk>(
    disk: &mut D,
    pages: &mut Pages,
    at: u64,
    into: &mut [u8],
) -> Result<(), DiskFault>
    requires over { IsOver (D.state disk.old) pages.old at (length into.old) }
    requires part { ArePart at (length into.old) }
    ensures read { ReadsBytes (D.state disk.old) (D.state disk.new) pages.new at (length into.old) into.new result }
    ensures held { IsHeld pages.old.numbers.items (page_at at) → (IsOk result) × (disk.new ≡ disk.old) × (pages.new ≡ pages.old) }
    ensures holds { OnOk result (page_at at % 2053 < length pages.old.numbers.items → IsHeld pages.new.numbers.items (page_at at)) }
    ensures kept { KeepsOthers pages.old.numbers.items pages.new.numbers.items (page_at at) }
{
    let number = page_at(at);
    if !pages.has_place(number) {
        return disk.read(at, into);
    }
    pages.hold(disk, number)?;
    pages.copy_out(at, into);
    Ok(())
}

/// Lays bytes over the pages that hold what they were written over, and holds those that were written as wholes.
pub(crate) fn lay_parts(pages: &mut Pages, at: u64, bytes: &[u8])
    requires { at + length bytes.now < 2 ^ 64 }
    ensures { Follows pages.old pages.new at bytes.now }
{
    if is_in_one_page(at, bytes.len()) {
        lay_part(pages, at, bytes);
        return;
    }
    let mut done = 0;
    while done < bytes.len() {
        let place = at + done as u64;
        let count = part_len(place, bytes.len() - done);
        lay_part(pages, place, &bytes[done..done + count]);
        done += count;
    }
}

// Lays bytes over the page that they lie in, where it is held or they are all of it.
fn lay_part(pages: &mut Pages, at: u64, bytes: &[u8])
    requires { at + length bytes.now ≤ end_of (page_at at) }
    ensures { Follows pages.old pages.new at bytes.now }
{
    let number = page_at(at);
    if bytes.len() == PAGE && pages.has_place(number) {
        pages.hold_written(number, bytes);
        return;
    }
    if pages.holds(number) {
        pages.give_bytes(number);
        pages.put(at, bytes);
    }
}
