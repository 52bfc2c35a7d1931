// What no clause says: that memory for the pages is found, and how many calls reach the disk below.
use crate::count_tests::same;
use crate::steps::Outcome::{self, Count, Done, Failed, Refused};
use crate::steps::Step::{Bind, Calls, Read, Write};
use crate::steps::{Came, Row, Shown, Step, Steps, image_call, play, read, write};
use iso_disk::{Disk, Image};
use iso_memdisk::{CallKind, MemDisk};
use kept_disk::Kept;
use std::alloc::Global;

impl Steps for Kept<MemDisk> {
    type Step = Step<'static>;

    fn step(&mut self, _alloc: Global, step: &Step<'static>, shown: &mut Shown) -> Came {
        match *step {
            Calls => (Count(self.disk().calls()), 0),
            other => image_call(self, "t.img", other, shown),
        }
    }
}

/// A disk of no bytes, whose write of this number fails alone, from 1.
fn failing(alloc: Global, number: u64) -> MemDisk {
    let mut disk = MemDisk::new(alloc, Vec::new(alloc));
    disk.fail_kind(CallKind::Write, number);
    disk
}

/// One call that is drawn: a write of this byte, or a read.
#[derive(Clone, Copy)]
struct Drawn {
    at: u64,
    len: usize,
    byte: Option<u8>,
}

/// Draws the next number below 2 ^ 32.
fn draw(x: &mut u64) -> u64 {
    *x = x
        .wrapping_mul(6364136223846793005)
        .wrapping_add(1442695040888963407);
    *x >> 32
}

/// Draws the next call.
fn next_call(x: &mut u64) -> Drawn {
    let at = draw(x) % 17_000;
    let len = (draw(x) % 3_000 + 1) as usize;
    let is_write = draw(x) % 2 == 0;
    let byte = if is_write {
        Some((draw(x) % 256) as u8)
    } else {
        None
    };
    Drawn { at, len, byte }
}

/// Makes a drawn call of a disk, into or from these bytes.
fn made<D: Disk>(disk: &mut D, drawn: Drawn, bytes: &mut [u8; 3_000]) -> Outcome {
    let is_write = drawn.byte.is_some();
    match bytes.get_mut(..drawn.len) {
        Some(front) if is_write => write(disk, drawn.at, front),
        Some(front) => read(disk, drawn.at, front),
        None => Refused,
    }
}

/// Makes the same drawn call of both disks, and says whether they answered alike.
fn agree<A: Disk, B: Disk>(one: &mut A, other: &mut B, drawn: Drawn) -> bool {
    let mut first = [drawn.byte.unwrap_or(9); 3_000];
    let mut second = first;
    let answer = made(one, drawn, &mut first);
    answer != Refused && answer == made(other, drawn, &mut second) && first == second
}

/// Binds both disks and makes sixty drawn calls of both, and says whether they were bound and answered each alike.
fn all_agree<A: Image, B: Image>(one: &mut A, other: &mut B, seed: u64) -> bool {
    let mut x = seed;
    let first = one.bind("t.img", Some(20_000)).is_ok();
    let mut all = other.bind("t.img", Some(20_000)).is_ok() && first;
    for _ in 0..60 {
        let next = next_call(&mut x);
        all = agree(one, other, next) && all;
    }
    all
}

#[test]
fn reads_and_writes_as_without_pages_also_where_a_write_fails(rt: HostRuntime) {
    for number in 0..12 {
        let mut kept = Kept::new(rt.alloc(), failing(rt.alloc(), number));
        let mut plain = failing(rt.alloc(), number);
        let alike = all_agree(&mut kept, &mut plain, number);
        same(&rt, (number, alike), (number, true));
    }
}

/// The name of a table, the write that fails alone, and what is done.
const TABLES: &[(&str, u64, &[Row<'static, Step<'static>>])] = &[
    (
        "a_second_read_makes_no_call",
        0,
        &[
            (Bind(Some(20_000)), Done, &[]),
            (Read(4_000, 200), Done, &[0; 200]),
            // the bind, and one read for each of the two pages
            (Calls, Count(3), &[]),
            (Read(4_000, 200), Done, &[0; 200]),
            (Read(100, 200), Done, &[0; 200]),
            (Calls, Count(3), &[]),
        ],
    ),
    (
        "a_page_written_in_part_while_not_held",
        0,
        &[
            (Bind(Some(20_000)), Done, &[]),
            (Write(4_098, &[7; 2]), Done, &[]),
            (Read(4_096, 6), Done, &[0, 0, 7, 7, 0, 0]),
            // the bind, the write and the read of the page
            (Calls, Count(3), &[]),
        ],
    ),
    (
        "the_last_page_is_shorter",
        0,
        &[
            (Bind(Some(9_000)), Done, &[]),
            (Read(8_996, 4), Done, &[0; 4]),
            (Write(8_998, &[5, 6]), Done, &[]),
            (Read(8_996, 4), Done, &[0, 0, 5, 6]),
            // the bind, one read and one write
            (Calls, Count(3), &[]),
        ],
    ),
    (
        "a_failed_write_leaves_no_page",
        1,
        &[
            (Bind(Some(9_000)), Done, &[]),
            (Read(0, 4), Done, &[0; 4]),
            (Write(2, &[5, 6]), Failed, &[]),
            (Read(0, 4), Done, &[0; 4]),
            // the bind, the write, and a read before it and after it
            (Calls, Count(4), &[]),
        ],
    ),
];

#[test]
fn pages_that_are_kept(rt: HostRuntime) {
    for (name, number, rows) in TABLES {
        let mut kept = Kept::new(rt.alloc(), failing(rt.alloc(), *number));
        play(&rt, rt.alloc(), name, &mut kept, rows);
    }
}
