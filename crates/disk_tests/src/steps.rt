// What is done step by step, and what each step comes to. A test has a constant table of rows alone, and no function here returns early: one
// that owns a disk drops it at each of its exits, and each of these drops is proved.
ghost use Rattle.std.specs.Prelude.{◌≡◌, ◌+◌, ◌≤◌, length, true};

use crate::count_tests::same;
use iso_disk::{Disk, Image};
use iso_memdisk::{CallKind, MemDisk};
use std::alloc::{AllocError, Global};
use std::process::Abort;

/// The most bytes that a step shows.
pub(crate) const MOST: usize = 256;

/// What a step came to.
#[derive(Clone, Copy, Debug, PartialEq)]
pub(crate) enum Outcome {
    Done,
    Failed,
    /// Nothing was taken, the range is none of the disk, or there is no such step.
    Refused,
    Count(u64),
    Is(bool),
}

/// What a step came to, and how many bytes it showed.
pub(crate) type Came = (Outcome, usize);

/// The bytes at whose front a step lays those that it shows.
pub(crate) type Shown = [u8; MOST];

/// A step, what it comes to, and the bytes that it shows.
pub(crate) type Row<'a, S> = (S, Outcome, &'a [u8]);

/// What steps are done with.
pub(crate) trait Steps {
    type Step;

    /// Does a step, and says what it came to. The bytes that it shows are laid at the front of `shown`, whose bytes are 9; it says how
    /// many these are.
    fn step(&mut self, alloc: Global, step: &Self::Step, shown: &mut Shown) -> Came;
}

/// Does these steps, and compares what each comes to. What fails is told with the name and the number of its row.
pub(crate) fn play<S: Steps>(
    rt: &impl Abort,
    alloc: Global,
    name: &str,
    on: &mut S,
    rows: &[Row<'_, S::Step>],
) {
    for (number, row) in rows.iter().enumerate() {
        let mut shown = [9; MOST];
        let (found, len) = on.step(alloc, &row.0, &mut shown);
        let told = (name, number, found, shown.get(..len));
        same(rt, told, (name, number, row.1, Some(row.2)));
    }
}

/// One thing that is done with a disk.
#[derive(Clone, Copy)]
pub(crate) enum Step<'a> {
    Write(u64, &'a [u8]),
    /// Reads so many bytes from a place on, into bytes that are 9.
    Read(u64, usize),
    /// The same, and shows no bytes: nothing is said of those that a read that fails was lent.
    TryRead(u64, usize),
    Sync,
    /// Binds, and makes a blank disk where a size is given.
    Bind(Option<u64>),
    Size,
    /// What a crash leaves of a disk in memory, by the pick.
    Crash(u64),
    /// Lets one of the next calls of a disk in memory fail, counted from 1.
    Fail(u64),
    FailKind(CallKind, u64),
    /// Lets so many calls of a disk in memory pass, and no later one.
    Fuse(u64),
    /// How many calls were made of a disk in memory, or of the one below the pages.
    Calls,
    /// How many calls of it had no memory.
    Starved,
    /// How many calls are on the tape.
    Tape,
    /// The offset and the bytes of a write on the tape, by its number from 0. A sync has none.
    OnTape(usize),
    /// Hands the tape on.
    HandOn,
    /// A call of the tape could not be done.
    FailTape,
}

/// Whether a disk of this size has all bytes of the range.
fn is_inside(size: u64, at: u64, len: usize) -> bool
    ensures { result ≡ true → at + len ≤ size }
{
    at <= size && len as u64 <= size - at
}

/// What it is that a call passed or did not.
pub(crate) fn outcome_of(passed: bool) -> Outcome {
    if passed {
        Outcome::Done
    } else {
        Outcome::Failed
    }
}

/// Lays bytes at the front, as many as there is room for, and says how many.
pub(crate) fn show(bytes: &[u8], shown: &mut Shown) -> usize {
    let len = bytes.len().min(MOST);
    shown[..len].copy_from_slice(&bytes[..len]);
    len
}

/// Reads a range, if it is one of the disk.
pub(crate) fn read<D: Disk>(disk: &mut D, at: u64, into: &mut [u8]) -> Outcome {
    if !is_inside(disk.size(), at, into.len()) {
        return Outcome::Refused;
    }
    outcome_of(disk.read(at, into).is_ok())
}

/// Writes a range, if it is one of the disk.
pub(crate) fn write<D: Disk>(disk: &mut D, at: u64, bytes: &[u8]) -> Outcome {
    if !is_inside(disk.size(), at, bytes.len()) {
        return Outcome::Refused;
    }
    outcome_of(disk.write(at, bytes).is_ok())
}

/// Reads so many bytes into the front.
fn read_front<D: Disk>(disk: &mut D, at: u64, len: usize, shown: &mut Shown) -> Outcome {
    match shown.get_mut(..len) {
        Some(into) => read(disk, at, into),
        None => Outcome::Refused,
    }
}

/// Does a step that each disk knows.
pub(crate) fn call<D: Disk>(disk: &mut D, step: Step<'_>, shown: &mut Shown) -> Came {
    match step {
        Step::Write(at, bytes) => (write(disk, at, bytes), 0),
        Step::Read(at, len) => (read_front(disk, at, len, shown), len),
        Step::TryRead(at, len) => (read_front(disk, at, len, shown), 0),
        Step::Sync => (outcome_of(disk.sync().is_ok()), 0),
        Step::Size => (Outcome::Count(disk.size()), 0),
        _ => (Outcome::Refused, 0),
    }
}

/// Does a step that each disk with a name knows.
pub(crate) fn image_call<D: Image>(
    disk: &mut D,
    name: &str,
    step: Step<'_>,
    shown: &mut Shown,
) -> Came {
    match step {
        Step::Bind(want) => (outcome_of(disk.bind(name, want).is_ok()), 0),
        _ => call(disk, step, shown),
    }
}

/// What a crash leaves.
fn crash(alloc: Global, disk: &MemDisk, pick: u64, shown: &mut Shown) -> Came {
    match disk.crash(alloc, pick) {
        Ok(image) => (Outcome::Done, show(image.as_slice(), shown)),
        Err(_) => (Outcome::Refused, 0),
    }
}

impl Steps for MemDisk {
    type Step = Step<'static>;

    fn step(&mut self, alloc: Global, step: &Step<'static>, shown: &mut Shown) -> Came {
        match *step {
            Step::Crash(pick) => return crash(alloc, self, pick, shown),
            Step::Calls => return (Outcome::Count(self.calls()), 0),
            Step::Starved => return (Outcome::Count(self.starved()), 0),
            Step::Fail(number) => self.fail(number),
            Step::FailKind(kind, number) => self.fail_kind(kind, number),
            Step::Fuse(calls) => self.fuse(calls),
            other => return image_call(self, "t.img", other, shown),
        }
        (Outcome::Done, 0)
    }
}

/// The name of a table, the bytes that its disk has at first, and what is done with it.
pub(crate) type Table<'a> = (&'a str, &'a [u8], &'a [Row<'a, Step<'static>>]);

/// Does the steps of each table with a disk in memory.
pub(crate) fn on_memory(
    rt: &impl Abort,
    alloc: Global,
    tables: &[Table<'_>],
) -> Result<(), AllocError> {
    for (name, first, rows) in tables {
        let mut disk = MemDisk::new(alloc, first.to_vec(alloc)?);
        play(rt, alloc, name, &mut disk, rows);
    }
    Ok(())
}
