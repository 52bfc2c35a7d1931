// The device calls that each call makes, over eight bytes that count them. The disk is opaque: its bytes are not known.
ghost use Rattle.std.{specs.Prelude.None, proofs.Common.lit<};
ghost use Rattle.counts.specs.Count.{HasCause};
ghost use Rattle.iso_disk.specs.Untold.{untold, untold_is_lawful};

use crate::steps::Outcome::{self, Count, Done, Failed, Is};
use crate::steps::{Came, Row, Shown, Steps, outcome_of, play, show};
use commit_gate::{open_gate, put_body, shut_gate, stands_closed};
use counts::raise;
use iso_disk::{Disk, DiskFault};
use std::alloc::Global;

// The letters of the calls made so far: read, write, sync. The call with the number `failing` fails, from 1.
#[derive(Drop)]
struct Counting {
    bytes: [u8; 8],
    made: [u8; 4],
    count: usize,
    failing: usize,
    faults: u64,
}

impl Counting {
    fn new(bytes: [u8; 8], failing: usize) -> Self {
        Counting {
            bytes,
            made: [b'-'; 4],
            count: 0,
            failing,
            faults: 0,
        }
    }

    fn answer(&mut self, letter: u8) -> Result<(), DiskFault>
        ensures { HasCause self.old.faults self.new.faults result }
    {
        if self.count < 4 {
            self.made[self.count] = letter;
            self.count += 1;
        }
        if self.count == self.failing {
            raise(&mut self.faults);
            return Err(DiskFault);
        }
        Ok(())
    }
}

impl Disk for Counting {
    ghost state = { λ d. untold 8 d.faults 0 None };

    ghost size_fits = { λ _. lit< tt };

    ghost lawful = { λ d. untold_is_lawful 8 d.faults 0 None };

    fn size(&self) -> u64 {
        8
    }

    fn read(&mut self, at: u64, into: &mut [u8]) -> Result<(), DiskFault> {
        self.answer(b'r')?;
        let from = at as usize;
        into.copy_from_slice(&self.bytes[from..from + into.len()]);
        Ok(())
    }

    fn write(&mut self, at: u64, bytes: &[u8]) -> Result<(), DiskFault> {
        self.answer(b'w')?;
        let from = at as usize;
        self.bytes[from..from + bytes.len()].copy_from_slice(bytes);
        Ok(())
    }

    fn sync(&mut self) -> Result<(), DiskFault> {
        self.answer(b's')
    }
}

/// One thing that is done, at a gate.
#[derive(Clone, Copy)]
enum Step {
    /// Puts 4 and 5 behind a gate.
    Body(u64),
    Open(u64),
    Shut(u64),
    IsClosed(u64),
    /// How many calls were made, and the letters of the first four.
    Made,
    Bytes,
}

use Step::{Body, Bytes, IsClosed, Made, Open, Shut};

impl Steps for Counting {
    type Step = Step;

    fn step(&mut self, _alloc: Global, step: &Step, shown: &mut Shown) -> Came {
        match *step {
            Body(gate) if gate < 6 => (outcome_of(put_body(self, gate, &[4, 5]).is_ok()), 0),
            Open(gate) if gate < 8 => (outcome_of(open_gate(self, gate).is_ok()), 0),
            Shut(gate) if gate < 8 => (outcome_of(shut_gate(self, gate).is_ok()), 0),
            IsClosed(gate) if gate < 8 => match stands_closed(self, gate) {
                Ok(closed) => (Is(closed), 0),
                Err(_) => (Failed, 0),
            },
            Made => (Count(self.count as u64), show(&self.made, shown)),
            Bytes => (Done, show(&self.bytes, shown)),
            _ => (Outcome::Refused, 0),
        }
    }
}

/// The name of a table, the bytes of the disk, the call that fails, and what is done.
const TABLES: &[(&str, [u8; 8], usize, &[Row<'static, Step>])] = &[
    (
        "a_body_is_one_write_and_one_sync",
        [7; 8],
        0,
        &[
            (Body(2), Done, &[]),
            (Made, Count(2), b"ws--"),
            (Bytes, Done, &[7, 7, 7, 4, 5, 7, 7, 7]),
        ],
    ),
    (
        "a_gate_is_opened_and_shut_by_one_byte_and_one_sync",
        [7; 8],
        0,
        &[
            (Open(7), Done, &[]),
            (Made, Count(2), b"ws--"),
            (Bytes, Done, &[7, 7, 7, 7, 7, 7, 7, 1]),
            (Shut(7), Done, &[]),
            (Made, Count(4), b"wsws"),
            (Bytes, Done, &[7, 7, 7, 7, 7, 7, 7, 0]),
        ],
    ),
    // one alone is open
    (
        "gates of four bytes",
        [0, 1, 2, 255, 7, 7, 7, 7],
        0,
        &[
            (IsClosed(0), Is(true), &[]),
            (Made, Count(1), b"r---"),
            (IsClosed(1), Is(false), &[]),
            (Made, Count(2), b"rr--"),
            (IsClosed(2), Is(true), &[]),
            (Made, Count(3), b"rrr-"),
            (IsClosed(3), Is(true), &[]),
            (Made, Count(4), b"rrrr"),
        ],
    ),
    // after a failed call no other is made
    (
        "the write of a body fails",
        [7; 8],
        1,
        &[(Body(2), Failed, &[]), (Made, Count(1), b"w---")],
    ),
    (
        "the sync of a body fails",
        [7; 8],
        2,
        &[(Body(2), Failed, &[]), (Made, Count(2), b"ws--")],
    ),
    (
        "the write of an open gate fails",
        [7; 8],
        1,
        &[(Open(2), Failed, &[]), (Made, Count(1), b"w---")],
    ),
    (
        "the sync of an open gate fails",
        [7; 8],
        2,
        &[(Open(2), Failed, &[]), (Made, Count(2), b"ws--")],
    ),
    (
        "the write of a closed gate fails",
        [7; 8],
        1,
        &[(Shut(2), Failed, &[]), (Made, Count(1), b"w---")],
    ),
    (
        "the sync of a closed gate fails",
        [7; 8],
        2,
        &[(Shut(2), Failed, &[]), (Made, Count(2), b"ws--")],
    ),
    (
        "the read of a gate fails",
        [7; 8],
        1,
        &[(IsClosed(2), Failed, &[]), (Made, Count(1), b"r---")],
    ),
];

#[test]
fn the_calls_of_a_gate(rt: HostRuntime) {
    for (name, bytes, failing, rows) in TABLES {
        let mut disk = Counting::new(*bytes, *failing);
        play(&rt, rt.alloc(), name, &mut disk, rows);
    }
}
