// What the calls of a shared device answer through the lock, and what the device has after them.
use crate::clients::{Answer, Told};
use crate::steps::{Row, Step, played};
use iso_memdisk::CallKind;
use iso_model::{Clash, CoreError, EndReply, GroupReply, Mode};
use std::test::Fail;

// No call fails.
const NONE: (CallKind, u64) = (CallKind::Bind, 0);

const DONE: Answer = Ok(Told::Done);

const NOTHING: Answer = Ok(Told::Nothing);

const DOWN: Answer = Err(CoreError::Down);

const DISK: Answer = Err(CoreError::Disk);

fn number(number: u64) -> Answer {
    Ok(Told::Number(number))
}

fn committed(number: u64) -> Answer {
    Ok(Told::Ended(EndReply::Committed(number)))
}

fn stat(last: u64, live: u32, down: bool) -> Answer {
    Ok(Told::Stat { last, live, down })
}

// The first commit wrote the first byte of block 0.
fn clash() -> Clash {
    Clash {
        commit: 1,
        block: 0,
        at: 0,
    }
}

#[test]
fn two_threads_make_fifty_commits_each(rt: HostRuntime) -> Result<(), Fail> {
    let rows: [Row<'_>; 2] = [
        (1, Step::Stat, stat(100, 0, false)),
        (1, Step::Used, number(2900)),
    ];
    played(&rt, rt.alloc(), NONE, 50, &rows);
    Ok(())
}

#[test]
fn a_check_ahead_leaves_three_commits(rt: HostRuntime) -> Result<(), Fail> {
    let rows: [Row<'_>; 8] = [
        (1, Step::Begin(None), number(0)),
        (1, Step::Read(0), DONE),
        (1, Step::Write(2), DONE),
        (2, Step::Commit(1, 10), number(10)),
        (1, Step::Check, number(10)),
        (1, Step::Checked, number(10)),
        (2, Step::Commit(1, 3), number(13)),
        (1, Step::End, committed(14)),
    ];
    played(&rt, rt.alloc(), NONE, 0, &rows);
    Ok(())
}

#[test]
fn labels_answer_through_the_lock(rt: HostRuntime) -> Result<(), Fail> {
    let rows: [Row<'_>; 22] = [
        (1, Step::Begin(None), number(0)),
        (1, Step::Read(0), DONE),
        (1, Step::Write(2), DONE),
        (1, Step::Post(b"a1"), DONE),
        (1, Step::Stat, stat(0, 1, false)),
        (1, Step::Begin(None), number(0)),
        (1, Step::Write(2), DONE),
        (1, Step::Post(b"a1"), Ok(Told::Taken)),
        (1, Step::Stat, stat(0, 1, false)),
        (1, Step::Look(b"a1"), number(0)),
        (1, Step::Room, number(4094)),
        (1, Step::End, committed(1)),
        (1, Step::Look(b"a1"), NOTHING),
        (1, Step::Begin(None), number(1)),
        (1, Step::Write(2), DONE),
        (1, Step::Post(b"z9"), DONE),
        (1, Step::Begin(None), number(1)),
        (1, Step::Write(2), DONE),
        (1, Step::Post(b"a1"), DONE),
        (1, Step::Sweep, number(3)),
        (1, Step::Sweep, number(4)),
        (1, Step::Sweep, NOTHING),
    ];
    played(&rt, rt.alloc(), NONE, 0, &rows);
    Ok(())
}

#[test]
fn upkeep_answers_through_the_lock(rt: HostRuntime) -> Result<(), Fail> {
    let snapshot = Step::Begin(Some(Mode::Snapshot));
    let rows: [Row<'_>; 7] = [
        (1, Step::Commit(1, 1), number(1)),
        (1, snapshot, Err(CoreError::ModeFixed)),
        (1, Step::Trim, number(1)),
        (1, Step::Compact, number(1)),
        (1, Step::Upgrade, number(1)),
        (1, snapshot, number(1)),
        (1, Step::Mode, Ok(Told::In(Mode::Snapshot))),
    ];
    played(&rt, rt.alloc(), NONE, 0, &rows);
    Ok(())
}

#[test]
fn a_conflict_and_a_full_log_come_through_the_lock(rt: HostRuntime) -> Result<(), Fail> {
    let rows: [Row<'_>; 7] = [
        (1, Step::Begin(None), number(0)),
        (1, Step::Read(0), DONE),
        (1, Step::Write(2), DONE),
        (2, Step::Commit(0, 1), number(1)),
        (1, Step::End, Ok(Told::Ended(EndReply::Conflict(clash())))),
        (2, Step::Commit(1, 140), number(141)),
        (
            2,
            Step::Commit(1, 1),
            Err(CoreError::LogFull { need: 30, free: 7 }),
        ),
    ];
    played(&rt, rt.alloc(), NONE, 0, &rows);
    Ok(())
}

#[test]
fn as_many_transactions_as_may_be_live_are_under_labels(rt: HostRuntime) -> Result<(), Fail> {
    let rows: [Row<'_>; 5] = [
        (1, Step::PostMany(1024), number(1024)),
        (1, Step::Begin(None), Err(CoreError::TooManyTx)),
        (1, Step::Stat, stat(0, 1024, false)),
        (1, Step::Sweep, number(1)),
        (1, Step::Stat, stat(0, 1023, false)),
    ];
    played(&rt, rt.alloc(), NONE, 0, &rows);
    Ok(())
}

// Client 1 ends beside client 2, upkeep follows, and client 2 ends. These are the answers from the first fetch on.
fn beside(answers: [Answer; 8]) -> [Row<'static>; 12] {
    let [fetch, end, other, trim, compact, upgrade, other_end, stat] = answers;
    [
        (2, Step::Begin(None), number(0)),
        (1, Step::Begin(None), number(0)),
        (1, Step::Read(0), DONE),
        (1, Step::Write(2), DONE),
        (1, Step::Fetch(1), fetch),
        (1, Step::End, end),
        (2, Step::Fetch(1), other),
        (1, Step::Trim, trim),
        (1, Step::Compact, compact),
        (1, Step::Upgrade, upgrade),
        (2, Step::End, other_end),
        (1, Step::Stat, stat),
    ]
}

#[test]
fn a_fault_of_an_end_sets_the_device_down(rt: HostRuntime) -> Result<(), Fail> {
    let down = stat(0, 0, true);
    let rows = beside([DONE, DISK, DOWN, DOWN, DOWN, DOWN, DOWN, down]);
    played(&rt, rt.alloc(), (CallKind::Sync, 3), 0, &rows);
    Ok(())
}

#[test]
fn a_fault_of_a_fetch_leaves_the_device_up(rt: HostRuntime) -> Result<(), Fail> {
    let read_only = Ok(Told::Ended(EndReply::ReadOnly));
    let rows = beside([
        DISK,
        committed(1),
        DONE,
        number(0),
        number(0),
        number(0),
        read_only,
        stat(1, 0, false),
    ]);
    played(&rt, rt.alloc(), (CallKind::Read, 2), 0, &rows);
    Ok(())
}

#[test]
fn a_fault_of_a_compaction_sets_the_device_down(rt: HostRuntime) -> Result<(), Fail> {
    let rows = beside([
        DONE,
        committed(1),
        DONE,
        number(0),
        DISK,
        DOWN,
        DOWN,
        stat(1, 0, true),
    ]);
    played(&rt, rt.alloc(), (CallKind::Sync, 5), 0, &rows);
    Ok(())
}

// Client 1 writes this block, and client 2 another one once it has read block 0; both end as a group, which comes to this.
fn group(block: u32, told: Told, stat: Answer) -> [Row<'static>; 7] {
    [
        (1, Step::Begin(None), number(0)),
        (1, Step::Write(block), DONE),
        (2, Step::Begin(None), number(0)),
        (2, Step::Read(0), DONE),
        (2, Step::Write(2), DONE),
        (1, Step::EndBoth, Ok(told)),
        (1, Step::Stat, stat),
    ]
}

#[test]
fn two_members_of_a_group_commit(rt: HostRuntime) -> Result<(), Fail> {
    let told = Told::Both(
        Some(GroupReply::Committed(1)),
        Some(GroupReply::Committed(2)),
    );
    let rows = group(1, told, stat(2, 0, false));
    played(&rt, rt.alloc(), NONE, 0, &rows);
    Ok(())
}

#[test]
fn a_member_conflicts_with_an_earlier_one(rt: HostRuntime) -> Result<(), Fail> {
    let told = Told::Both(
        Some(GroupReply::Committed(1)),
        Some(GroupReply::Conflict(clash())),
    );
    let rows = group(0, told, stat(1, 0, false));
    played(&rt, rt.alloc(), NONE, 0, &rows);
    Ok(())
}

#[test]
fn a_fault_of_a_group_leaves_no_member(rt: HostRuntime) -> Result<(), Fail> {
    let rows = group(1, Told::Refused(CoreError::Disk, 0), stat(0, 0, true));
    played(&rt, rt.alloc(), (CallKind::Sync, 3), 0, &rows);
    Ok(())
}

// The second member is under a label while the end of another transaction sets the device down.
#[test]
fn a_device_that_is_down_hands_the_members_back(rt: HostRuntime) -> Result<(), Fail> {
    let rows: [Row<'_>; 10] = [
        (1, Step::Begin(None), number(0)),
        (1, Step::Write(1), DONE),
        (2, Step::Begin(None), number(0)),
        (2, Step::Read(0), DONE),
        (2, Step::Write(2), DONE),
        (2, Step::Post(b"m"), DONE),
        (2, Step::Commit(3, 1), DISK),
        (2, Step::Look(b"m"), number(0)),
        (1, Step::EndBoth, Ok(Told::Refused(CoreError::Down, 2))),
        (1, Step::Stat, stat(0, 0, true)),
    ];
    played(&rt, rt.alloc(), (CallKind::Sync, 3), 0, &rows);
    Ok(())
}
