// A tape that is done to bytes of the caller's.
use crate::steps::Outcome::{self, Count, Done, Failed};
use crate::steps::Step::{FailTape, HandOn, OnTape, Read, Size, Sync, Tape, TryRead, Write};
use crate::steps::{Came, Shown, Step, Steps, Table, call, play, show};
use queued_disk::{Call, QueuedDisk};
use std::alloc::Global;
use std::test::Fail;

/// A call of a tape: the offset and the bytes of a write, and nothing of a sync.
fn on_tape(call: Option<&Call>, shown: &mut Shown) -> Came {
    match call {
        Some(Call::Write { at, bytes }) => (Count(*at as u64), show(bytes.as_slice(), shown)),
        Some(Call::Sync) => (Done, 0),
        None => (Outcome::Refused, 0),
    }
}

impl Steps for QueuedDisk {
    type Step = Step<'static>;

    fn step(&mut self, _alloc: Global, step: &Step<'static>, shown: &mut Shown) -> Came {
        match *step {
            Tape => return (Count(self.tape().len() as u64), 0),
            OnTape(number) => return on_tape(self.tape().get(number), shown),
            HandOn => self.hand_on(),
            FailTape => self.fail(),
            other => return call(self, other, shown),
        }
        (Done, 0)
    }
}

const TABLES: &[Table<'static>] = &[
    (
        "writes_and_syncs_are_on_the_tape_in_their_order",
        &[0; 4],
        &[
            (Write(1, &[7, 8]), Done, &[]),
            (Sync, Done, &[]),
            (Write(3, &[9]), Done, &[]),
            (Tape, Count(3), &[]),
            (OnTape(0), Count(1), &[7, 8]),
            (OnTape(1), Done, &[]),
            (OnTape(2), Count(3), &[9]),
        ],
    ),
    (
        "a_tape_that_is_handed_on_is_empty_and_the_bytes_stay",
        &[0; 4],
        &[
            (Write(0, &[5]), Done, &[]),
            (HandOn, Done, &[]),
            (Sync, Done, &[]),
            (Tape, Count(1), &[]),
            (Read(0, 4), Done, &[5, 0, 0, 0]),
        ],
    ),
    (
        "each_call_fails_once_one_of_the_tape_has_failed",
        &[0; 4],
        &[
            (Write(0, &[6]), Done, &[]),
            (Read(0, 4), Done, &[6, 0, 0, 0]),
            (FailTape, Done, &[]),
            (Size, Count(4), &[]),
            (Write(0, &[5]), Failed, &[]),
            (Sync, Failed, &[]),
            (TryRead(0, 4), Failed, &[]),
            (Tape, Count(0), &[]),
        ],
    ),
];

#[test]
fn a_disk_whose_calls_are_on_a_tape(rt: HostRuntime) -> Result<(), Fail> {
    for (name, first, rows) in TABLES {
        let mut disk = QueuedDisk::new(rt.alloc(), first.to_vec(rt.alloc())?);
        play(&rt, rt.alloc(), name, &mut disk, rows);
    }
    Ok(())
}
