// What no clause says: that calls succeed with ample memory, the drawn bytes, and the numbers of the calls that fail.
use crate::steps::Outcome::{Count, Done, Failed};
use crate::steps::Step::{
    Bind, Calls, Crash, Fail as FailCall, FailKind, Fuse, Read, Size, Starved, Sync, TryRead, Write,
};
use crate::steps::{Table, on_memory};
use iso_memdisk::CallKind;
use std::test::Fail;

/// What a crash leaves.
const CRASHES: &[Table<'static>] = &[
    (
        "a_torn_write",
        &[1, 2, 3, 4],
        &[
            (Write(1, &[8, 9]), Done, &[]),
            (Read(0, 4), Done, &[1, 8, 9, 4]),
            (Crash(0), Done, &[1, 2, 3, 4]),
            (Crash(1), Done, &[1, 8, 9, 4]),
            // the draws of seed 2
            (Crash(2), Done, &[1, 217, 85, 4]),
            (Sync, Done, &[]),
            (Crash(0), Done, &[1, 8, 9, 4]),
            (Crash(1), Done, &[1, 8, 9, 4]),
            (Crash(2), Done, &[1, 8, 9, 4]),
            (Crash(3), Done, &[1, 8, 9, 4]),
            (Crash(4), Done, &[1, 8, 9, 4]),
            (Crash(5), Done, &[1, 8, 9, 4]),
            (Calls, Count(3), &[]),
            (Starved, Count(0), &[]),
        ],
    ),
    (
        "drawn_bytes_of_writes_that_overlap",
        &[1, 2, 3, 4, 5],
        &[
            (Write(1, &[8, 9]), Done, &[]),
            (Write(2, &[6, 7]), Done, &[]),
            // Seed 2 draws 217, 85, 16, 176, and seed 3 draws 6, 247, 135, 148; the later write lies over the earlier one.
            (Crash(2), Done, &[1, 217, 16, 176, 5]),
            (Crash(3), Done, &[1, 6, 135, 148, 5]),
            // A write that is stable takes no draw.
            (Sync, Done, &[]),
            (Write(4, &[0]), Done, &[]),
            (Crash(2), Done, &[1, 8, 6, 7, 217]),
        ],
    ),
    (
        "a_failed_write_and_a_failed_sync",
        &[1, 2, 3, 4],
        &[
            (FailCall(1), Done, &[]),
            (Write(0, &[7]), Failed, &[]),
            (Crash(0), Done, &[1, 2, 3, 4]),
            (Crash(1), Done, &[1, 2, 3, 4]),
            (Crash(2), Done, &[1, 2, 3, 4]),
            (Crash(3), Done, &[1, 2, 3, 4]),
            (Crash(4), Done, &[1, 2, 3, 4]),
            (Crash(5), Done, &[1, 2, 3, 4]),
            (Write(0, &[7]), Done, &[]),
            (FailCall(1), Done, &[]),
            (Sync, Failed, &[]),
            (Crash(0), Done, &[1, 2, 3, 4]),
            (Crash(1), Done, &[7, 2, 3, 4]),
            (Sync, Done, &[]),
            (Crash(0), Done, &[7, 2, 3, 4]),
            (Calls, Count(4), &[]),
        ],
    ),
];

/// A disk one of whose calls fails alone.
const FAILURES: &[Table<'static>] = &[
    (
        "the_nth_call_fails_alone",
        &[0; 2],
        &[
            (FailCall(3), Done, &[]),
            (Write(0, &[1]), Done, &[]),
            (Sync, Done, &[]),
            (TryRead(0, 2), Failed, &[]),
            (Read(0, 2), Done, &[1, 0]),
            (FailCall(0), Done, &[]),
            (Sync, Done, &[]),
            (Sync, Done, &[]),
        ],
    ),
    (
        "the_nth_call_of_a_kind_fails_alone",
        &[0; 2],
        &[
            (FailKind(CallKind::Sync, 2), Done, &[]),
            (FailKind(CallKind::Read, 1), Done, &[]),
            (Sync, Done, &[]),
            (Write(0, &[1]), Done, &[]),
            (TryRead(0, 2), Failed, &[]),
            (Read(0, 2), Done, &[1, 0]),
            (Sync, Failed, &[]),
            (Sync, Done, &[]),
            (FailKind(CallKind::Bind, 2), Done, &[]),
            (FailKind(CallKind::Write, 1), Done, &[]),
            (Write(0, &[2]), Failed, &[]),
            (Bind(None), Done, &[]),
            (Bind(None), Failed, &[]),
            (Bind(None), Done, &[]),
            (Crash(1), Done, &[1, 0]),
            (Calls, Count(10), &[]),
        ],
    ),
];

const BINDS: &[Table<'static>] = &[(
    "bound_to_a_blank_and_to_an_existing_device",
    &[3, 4],
    &[
        (Write(0, &[9]), Done, &[]),
        (Bind(None), Done, &[]),
        (Size, Count(2), &[]),
        (Crash(0), Done, &[9, 4]),
        (Bind(Some(3)), Done, &[]),
        (Size, Count(3), &[]),
        (Crash(0), Done, &[0, 0, 0]),
        (Crash(1), Done, &[0, 0, 0]),
        (Crash(2), Done, &[0, 0, 0]),
        (Crash(3), Done, &[0, 0, 0]),
        (Crash(4), Done, &[0, 0, 0]),
        (Crash(5), Done, &[0, 0, 0]),
        (FailCall(1), Done, &[]),
        (Bind(Some(1)), Failed, &[]),
        (Size, Count(3), &[]),
        (Calls, Count(4), &[]),
    ],
)];

/// A disk of which so many calls pass, and no later one.
const FUSES: &[Table<'static>] = &[
    (
        "a_fuse_counts_a_bind",
        &[0; 2],
        &[
            (Fuse(1), Done, &[]),
            (Bind(None), Done, &[]),
            (Sync, Failed, &[]),
            (Bind(None), Failed, &[]),
        ],
    ),
    (
        "no call passes",
        &[0; 2],
        &[
            (Fuse(0), Done, &[]),
            (Write(0, &[5]), Failed, &[]),
            (Sync, Failed, &[]),
            (Write(1, &[6]), Failed, &[]),
            (Sync, Failed, &[]),
            (Crash(1), Done, &[0, 0]),
            (Crash(0), Done, &[0, 0]),
            (Calls, Count(4), &[]),
        ],
    ),
    (
        "one call passes",
        &[0; 2],
        &[
            (Fuse(1), Done, &[]),
            (Write(0, &[5]), Done, &[]),
            (Sync, Failed, &[]),
            (Write(1, &[6]), Failed, &[]),
            (Sync, Failed, &[]),
            (Crash(1), Done, &[5, 0]),
            (Crash(0), Done, &[0, 0]),
            (Calls, Count(4), &[]),
        ],
    ),
    (
        "two calls pass",
        &[0; 2],
        &[
            (Fuse(2), Done, &[]),
            (Write(0, &[5]), Done, &[]),
            (Sync, Done, &[]),
            (Write(1, &[6]), Failed, &[]),
            (Sync, Failed, &[]),
            (Crash(1), Done, &[5, 0]),
            (Crash(0), Done, &[5, 0]),
            (Calls, Count(4), &[]),
        ],
    ),
    (
        "three calls pass",
        &[0; 2],
        &[
            (Fuse(3), Done, &[]),
            (Write(0, &[5]), Done, &[]),
            (Sync, Done, &[]),
            (Write(1, &[6]), Done, &[]),
            (Sync, Failed, &[]),
            (Crash(1), Done, &[5, 6]),
            (Crash(0), Done, &[5, 0]),
            (Calls, Count(4), &[]),
        ],
    ),
];

#[test]
fn what_a_crash_leaves(rt: HostRuntime) -> Result<(), Fail> {
    on_memory(&rt, rt.alloc(), CRASHES)?;
    Ok(())
}

#[test]
fn the_nth_call_fails_alone(rt: HostRuntime) -> Result<(), Fail> {
    on_memory(&rt, rt.alloc(), FAILURES)?;
    Ok(())
}

#[test]
fn bound_to_a_blank_and_to_an_existing_device(rt: HostRuntime) -> Result<(), Fail> {
    on_memory(&rt, rt.alloc(), BINDS)?;
    Ok(())
}

#[test]
fn a_fuse_at_each_call_of_a_sequence(rt: HostRuntime) -> Result<(), Fail> {
    on_memory(&rt, rt.alloc(), FUSES)?;
    Ok(())
}
