// Pages: bytes of a disk that are kept in memory, and which of its pages these are.
ghost use Rattle.std.specs.{Prelude.{◌≡◌, ◌+◌, ◌-◌, ◌%◌, ◌<◌, ◌≤◌, ◌^◌, ◌↔◌, Some, None, true, length, replicate, IsTrue, IfOk, IsOk, slice_index, vec_capacity}};
ghost use Rattle.iso_disk.specs.Disk.{spliced};
ghost use Rattle.kept_disk.specs.Pages.{AreHeld, AreLaid, AreWhole, Follow, HasAdded, HasFilled, HasPlace, HoldsNone, IsHeld, ReadsInto, Shows, byte_at, end_of, page_at, start_of};

use iso_disk::{Disk, DiskFault};
use std::alloc::{AllocError, Global};

/// How many bytes a page has.
pub(crate) const PAGE: usize = 4096;

/// Where page 1 begins, and page 0 ends: where the blocks of an image do, so that a block of 4096 bytes is one page.
const FIRST: u64 = 96;

/// How many pages are kept at most. It is a prime: pages at distances of powers of two, as those of one block and of the log's front
/// are, would share a place if it were such a power.
const PAGES: usize = 2053;

/// Pages that may be held, each in the place that its number gives, and their bytes, in the order in which places first had some.
/// Of the last page of a disk the first bytes alone may count.
///
/// The memory for the bytes is taken at once, but those of a place are first touched when a page is held in it that is not zeros
/// throughout, and no others: to touch memory for the first time takes longer than to read the page.
#[derive(Drop)]
pub struct Pages {
    numbers: Vec<Option<u64>>,
    // Where the bytes of each place end, and 0 for a place that has none yet: what it holds is zeros.
    ends: Vec<usize>,
    bytes: Vec<u8>,
    // For the bytes of a page whose place has none.
    page: Vec<u8>,
    ghost places: { length ends.items ≡ length numbers.items },
    ghost laid: { AreLaid ends.items bytes.items (vec_capacity bytes) },
    ghost whole: { 0 < length numbers.items → length page.items ≡ 4096 },
}

impl Pages {
    ghost use Rattle.kept_disk.specs.Holding.{Follows, Forgets, GivesBytes, LaysOver};

    /// No place for a page. It takes no memory.
    pub(crate) fn none(alloc: Global) -> Pages
        ensures { HoldsNone result.numbers.items }
    {
        Pages {
            numbers: Vec::new(alloc),
            ends: Vec::new(alloc),
            bytes: Vec::new(alloc),
            page: Vec::new(alloc),
        }
    }

    /// All places, with no page held.
    fn blank(alloc: Global) -> Result<Pages, AllocError>
        ensures { IfOk result (λ pages. HoldsNone pages.numbers.items) }
    {
        let mut bytes = Vec::new(alloc);
        bytes.reserve_exact(PAGES * PAGE)?;
        let mut numbers = Vec::new(alloc);
        numbers.resize(PAGES, None)?;
        let mut ends = Vec::new(alloc);
        ends.resize(PAGES, 0)?;
        let mut page = Vec::new(alloc);
        page.resize(PAGE, 0)?;
        Ok(Pages {
            numbers,
            ends,
            bytes,
            page,
        })
    }

    /// Lets go of all that is held, and takes the memory for pages where none was taken. Without it there is no place.
    pub(crate) fn start(&mut self, alloc: Global)
        ensures none { HoldsNone self.new.numbers.items }
        ensures again { 0 < length self.old.numbers.items → (self.new.bytes ≡ self.old.bytes) × (length self.new.numbers.items ≡ length self.old.numbers.items) }
    {
        self.forget_all();
        if self.numbers.is_empty() {
            if let Ok(made) = Pages::blank(alloc) {
                *self = made;
            }
        }
    }

    /// Lets go of all that is held.
    pub(crate) fn forget_all(&mut self)
        ensures { Forgets self.old self.new }
    {
        clear(self.numbers.as_mut_slice());
    }

    /// Whether there is a place for the page of this number.
    pub(crate) fn has_place(&self, number: u64) -> bool
        ensures { IsTrue result ↔ (number % 2053 < length self.now.numbers.items) }
    {
        place_of(number) < self.numbers.len()
    }

    /// Whether the page of this number is held.
    pub(crate) fn holds(&self, number: u64) -> bool
        ensures { IsTrue result ↔ IsHeld self.now.numbers.items number }
    {
        self.has_place(number) && self.numbers[place_of(number)] == Some(number)
    }

    /// Holds the page of this number from now on: reads it, where it is not held yet. After a fault it is not held.
    pub(crate) fn hold<D: Disk>(&mut self, disk: &mut D, number: u64) -> Result<(), DiskFault>
        requires inside { start_of number < (D.state disk.old).size }
        requires place { number % 2053 < length self.old.numbers.items }
        ensures filled { HasFilled self.old.numbers.items self.old.ends.items self.old.bytes.items self.new.numbers.items self.new.ends.items self.new.bytes.items number (D.state disk.old) (D.state disk.new) result }
        ensures stays { IsHeld self.old.numbers.items number → (IsOk result) × (disk.new ≡ disk.old) × (self.new ≡ self.old) }
    {
        if self.holds(number) {
            return Ok(());
        }
        if self.ends[place_of(number)] != 0 {
            return fill(&mut self.numbers, &self.ends, &mut self.bytes, disk, number);
        }
        fill_first(
            &mut self.numbers,
            &mut self.ends,
            &mut self.bytes,
            &mut self.page,
            disk,
            number,
        )
    }

    /// Gives bytes of a page that is held, from a place of the disk on.
    pub(crate) fn copy_out(&self, at: u64, into: &mut [u8])
        requires { AreHeld self.now.numbers.items at (length into.old) }
        ensures { Shows self.now.ends.items self.now.bytes.items at (length into.old) into.new }
    {
        if self.ends[place_of(page_at(at))] == 0 {
            into.fill(0);
            return;
        }
        let from = self.byte_of(at);
        into.copy_from_slice(&self.bytes[from..from + into.len()]);
    }

    /// Holds the page of this number, all of which was written: the disk has these bytes there.
    pub(crate) fn hold_written(&mut self, number: u64, page: &[u8])
        requires place { number % 2053 < length self.old.numbers.items }
        requires whole { AreWhole number page.now }
        ensures { Follows self.old self.new (start_of number) page.now }
    {
        lay_page(
            &mut self.numbers,
            &mut self.ends,
            &mut self.bytes,
            number,
            page,
        );
    }

    /// Has bytes for a page that is held.
    pub(crate) fn give_bytes(&mut self, number: u64)
        requires held { IsHeld self.old.numbers.items number }
        ensures { GivesBytes self.old self.new number }
    {
        let place = place_of(number);
        if self.ends[place] != 0 {
            return;
        }
        blank(&mut self.page);
        add_page(&mut self.ends, &mut self.bytes, place, &self.page);
    }

    /// Lays bytes over those of a page that is held and has bytes, from a place of the disk on.
    pub(crate) fn put(&mut self, at: u64, bytes: &[u8])
        requires part { AreHeld self.old.numbers.items at (length bytes.now) }
        requires has { 0 < slice_index self.old.ends.items (page_at at % 2053) }
        ensures { LaysOver self.old self.new at bytes.now }
    {
        let from = self.byte_of(at);
        lay_over(&mut self.bytes, from, bytes);
    }

    // Where the byte of a place of the disk lies among the bytes of the pages, which hold it.
    fn byte_of(&self, at: u64) -> usize
        requires { 0 < slice_index self.now.ends.items (page_at at % 2053) }
        ensures is { result ≡ byte_at self.now.ends.items at }
        ensures inside { result + 4096 ≤ length self.now.bytes.items + (at - start_of (page_at at)) }
    {
        let number = page_at(at);
        self.ends[place_of(number)] - PAGE + (at - start_of(number)) as usize
    }
}

// The place of the page of this number.
fn place_of(number: u64) -> usize
    ensures is { result ≡ number % 2053 }
{
    (number % PAGES as u64) as usize
}

// Lets go of each page.
fn clear(numbers: &mut [Option<u64>])
    ensures { HoldsNone numbers.new }
{
    for number in numbers.iter_mut() {
        *number = None;
    }
}

// Zeros throughout.
fn blank(page: &mut Vec<u8>)
    ensures { page.new.items ≡ replicate (length page.old.items) 0 }
{
    page.as_mut_slice().fill(0);
}

/// The number of the page of a place of the disk.
pub(crate) fn page_at(at: u64) -> u64
    ensures { result ≡ page_at at }
{
    if at < FIRST {
        return 0;
    }
    (at - FIRST) / PAGE as u64 + 1
}

/// How many bytes its page has from a place of the disk on.
pub(crate) fn left_in_page(at: u64) -> usize
    ensures { at + result ≡ end_of (page_at at) }
{
    if at < FIRST {
        return (FIRST - at) as usize;
    }
    PAGE - ((at - FIRST) % PAGE as u64) as usize
}

// Where the page of this number begins on a disk.
fn start_of(number: u64) -> u64
    requires { start_of number < 2 ^ 64 }
    ensures { result ≡ start_of number }
{
    if number == 0 {
        return 0;
    }
    (number - 1) * PAGE as u64 + FIRST
}

// How many bytes it has at most.
fn most_of(number: u64) -> u64
    ensures { result ≡ end_of number - start_of number }
{
    if number == 0 { FIRST } else { PAGE as u64 }
}

// Reads the page of this number into its place, which has bytes.
fn fill<D: Disk>(
    numbers: &mut Vec<Option<u64>>,
    ends: &[usize],
    bytes: &mut Vec<u8>,
    disk: &mut D,
    number: u64,
) -> Result<(), DiskFault>
    requires inside { start_of number < (D.state disk.old).size }
    requires at { HasPlace numbers.old.items ends.now bytes.old.items (vec_capacity bytes.old) number }
    requires has { 0 < slice_index ends.now (number % 2053) }
    ensures filled { HasFilled numbers.old.items ends.now bytes.old.items numbers.new.items ends.now bytes.new.items number (D.state disk.old) (D.state disk.new) result }
    ensures at { HasPlace numbers.new.items ends.now bytes.new.items (vec_capacity bytes.new) number }
{
    let place = place_of(number);
    numbers[place] = None;
    let at = start_of(number);
    let len = (disk.size() - at).min(most_of(number)) as usize;
    read_into(disk, at, bytes, ends[place] - PAGE, len)?;
    numbers[place] = Some(number);
    Ok(())
}

// Reads the page of this number, whose place has no bytes, and lays them after the others where they are not all zero.
fn fill_first<D: Disk>(
    numbers: &mut Vec<Option<u64>>,
    ends: &mut Vec<usize>,
    bytes: &mut Vec<u8>,
    page: &mut Vec<u8>,
    disk: &mut D,
    number: u64,
) -> Result<(), DiskFault>
    requires inside { start_of number < (D.state disk.old).size }
    requires at { HasPlace numbers.old.items ends.old.items bytes.old.items (vec_capacity bytes.old) number }
    requires none { slice_index ends.old.items (number % 2053) ≡ 0 }
    requires page { length page.old.items ≡ 4096 }
    ensures filled { HasFilled numbers.old.items ends.old.items bytes.old.items numbers.new.items ends.new.items bytes.new.items number (D.state disk.old) (D.state disk.new) result }
    ensures at { HasPlace numbers.new.items ends.new.items bytes.new.items (vec_capacity bytes.new) number }
    ensures page { length page.new.items ≡ 4096 }
{
    let place = place_of(number);
    numbers[place] = None;
    let at = start_of(number);
    let len = (disk.size() - at).min(most_of(number)) as usize;
    read_into(disk, at, page, 0, len)?;
    if !are_zeros(&page[..len]) {
        add_page(ends, bytes, place, page);
    }
    numbers[place] = Some(number);
    Ok(())
}

// Lays the bytes of a page into its place.
fn lay_page(
    numbers: &mut Vec<Option<u64>>,
    ends: &mut Vec<usize>,
    bytes: &mut Vec<u8>,
    number: u64,
    page: &[u8],
)
    requires at { HasPlace numbers.old.items ends.old.items bytes.old.items (vec_capacity bytes.old) number }
    requires whole { AreWhole number page.now }
    ensures follow { Follow numbers.old.items ends.old.items bytes.old.items numbers.new.items ends.new.items bytes.new.items (start_of number) page.now }
    ensures at { HasPlace numbers.new.items ends.new.items bytes.new.items (vec_capacity bytes.new) number }
{
    let place = place_of(number);
    numbers[place] = Some(number);
    let end = ends[place];
    if end != 0 {
        lay_over(bytes, end - PAGE, page);
        return;
    }
    if are_zeros(page) {
        return;
    }
    add_page(ends, bytes, place, page);
}

// Whether all bytes are zero: the first is, and each other equals the one before it. They are compared as a whole.
fn are_zeros(bytes: &[u8]) -> bool
    ensures { result ≡ true → bytes.now ≡ replicate (length bytes.now) 0 }
{
    if bytes.is_empty() {
        return true;
    }
    let rest = &bytes[1..];
    let before = &bytes[..bytes.len() - 1];
    bytes[0] == 0 && rest == before
}

// Lays these bytes after the others as those of a place that has none, in memory that was taken for them.
fn add_page(ends: &mut Vec<usize>, bytes: &mut Vec<u8>, place: usize, page: &[u8])
    requires inside { place < length ends.old.items }
    requires none { slice_index ends.old.items place ≡ 0 }
    requires laid { AreLaid ends.old.items bytes.old.items (vec_capacity bytes.old) }
    requires page { length page.now ≡ 4096 }
    ensures { HasAdded ends.old.items bytes.old.items ends.new.items bytes.new.items (vec_capacity bytes.new) place page.now }
{
    let _ = bytes.extend_from_slice(page);
    ends[place] = bytes.len();
}

// Reads `len` bytes of the disk from `at` on into these, from `from` on.
fn read_into<D: Disk>(
    disk: &mut D,
    at: u64,
    bytes: &mut Vec<u8>,
    from: usize,
    len: usize,
) -> Result<(), DiskFault>
    requires fits { at + len ≤ (D.state disk.old).size }
    requires within { from + len ≤ length bytes.old.items }
    ensures read { ReadsInto (D.state disk.old) (D.state disk.new) at bytes.old.items bytes.new.items from len result }
    ensures room { vec_capacity bytes.new ≡ vec_capacity bytes.old }
{
    disk.read(at, &mut bytes.as_mut_slice()[from..from + len])
}

// Lays bytes over these, from a place on.
fn lay_over(bytes: &mut Vec<u8>, from: usize, over: &[u8])
    requires { from + length over.now ≤ length bytes.old.items }
    ensures bytes { bytes.new.items ≡ spliced bytes.old.items from over.now }
    ensures room { vec_capacity bytes.new ≡ vec_capacity bytes.old }
{
    bytes.as_mut_slice()[from..from + over.len()].copy_from_slice(over);
}
