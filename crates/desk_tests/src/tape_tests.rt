// A commit is on the tape, and in the file once the tape was done.
use crate::desks::{do_front, do_tape, new_desk, reopened};
use crate::steps::Step::{
    Begin, CountTape, DoTape, End, EndBoth, Fail as FailCall, Fill, Reopen, Show,
};
use crate::steps::{DONE, played};
use device_desk::Status::{Done, Down, NoTransaction};
use device_desk::{Desk, tape};
use iso_model::Memory;
use queued_disk::QueuedDisk;
use script_model::Reply;
use std::alloc::Global;
use std::test::Fail;

#[test]
fn a_commit_is_in_the_file_once_its_tape_was_done(rt: HostRuntime) -> Result<(), Fail> {
    let rows = [
        (Begin, DONE),
        (Fill(0, 2, 7), DONE),
        (End(0), DONE),
        (CountTape, (Done, 4)),
        (DoTape, DONE),
        (CountTape, DONE),
        (Reopen, DONE),
        (Begin, DONE),
        (Show(0, 2), (Done, 7)),
        (Show(0, 1), DONE),
    ];
    played(&rt, rt.alloc(), &rows)?;
    Ok(())
}

#[test]
fn a_commit_whose_tape_was_not_done_is_not_in_the_file(rt: HostRuntime) -> Result<(), Fail> {
    let rows = [
        (Begin, DONE),
        (Fill(0, 2, 7), DONE),
        (End(0), DONE),
        (Reopen, DONE),
        (Begin, DONE),
        (Show(0, 2), DONE),
    ];
    played(&rt, rt.alloc(), &rows)?;
    Ok(())
}

#[test]
fn a_desk_is_down_and_its_tape_empty_once_a_call_of_it_failed(rt: HostRuntime) -> Result<(), Fail> {
    let rows = [
        (Begin, DONE),
        (Fill(0, 2, 7), DONE),
        (End(0), DONE),
        (FailCall, DONE),
        (CountTape, DONE),
        (Begin, (Down, 0)),
        (End(0), (Down, 0)),
        (CountTape, DONE),
    ];
    played(&rt, rt.alloc(), &rows)?;
    Ok(())
}

#[test]
fn a_number_of_an_earlier_opening_is_nobodys(rt: HostRuntime) -> Result<(), Fail> {
    let rows = [
        (Begin, DONE),
        (Reopen, DONE),
        (End(0), (NoTransaction, 0)),
        (Begin, DONE),
        (End(0), DONE),
    ];
    played(&rt, rt.alloc(), &rows)?;
    Ok(())
}

#[test]
fn ends_that_waited_share_the_calls_of_one_commit(rt: HostRuntime) -> Result<(), Fail> {
    let rows = [
        (Begin, DONE),
        (Begin, DONE),
        (Fill(0, 1, 5), DONE),
        (Fill(1, 2, 6), DONE),
        (EndBoth(0, 1), (Done, 2)),
        (CountTape, (Done, 4)),
        (DoTape, DONE),
        (Reopen, DONE),
        (Begin, DONE),
        (Show(0, 1), (Done, 5)),
        (Show(0, 2), (Done, 6)),
    ];
    played(&rt, rt.alloc(), &rows)?;
    Ok(())
}

#[test]
fn of_ends_that_waited_the_later_one_conflicts_with_the_first(rt: HostRuntime) -> Result<(), Fail> {
    let rows = [
        (Begin, DONE),
        (Begin, DONE),
        (Show(1, 1), DONE),
        (Fill(0, 1, 5), DONE),
        (Fill(1, 2, 6), DONE),
        (EndBoth(0, 1), (Done, 2)),
        (Begin, DONE),
        (Show(2, 1), (Done, 5)),
        (Show(2, 2), DONE),
    ];
    played(&rt, rt.alloc(), &rows)?;
    Ok(())
}

// Commits a block full of 7.
fn commit_7(desk: &mut Desk<QueuedDisk>) {
    let mut number = 0;
    let _ = desk.begin(None, &mut number);
    let _ = desk.fill(number, 2, &[7]);
    let _ = desk.end(number);
}

// The first byte of block 2, as a new transaction is shown it.
fn first_of(desk: &mut Desk<QueuedDisk>) -> Option<u8> {
    let mut number = 0;
    let _ = desk.begin(None, &mut number);
    match desk.get(number, 2, 0, 1) {
        Ok(Reply::Shown(bytes)) => bytes.as_slice().first().copied(),
        _ => None,
    }
}

// The same, where the first calls of the tape were done to the file, and the first bytes of the next one.
fn byte_after(
    alloc: Global,
    desk: &Desk<QueuedDisk>,
    file: &[u8],
    calls: usize,
    most: usize,
) -> Result<Option<u8>, Memory> {
    let mut torn = file.to_vec(alloc)?;
    do_front(desk, calls, most, &mut torn);
    let mut again = reopened(alloc, &torn)?;
    Ok(first_of(&mut again))
}

// How many of the fronts, torn after each byte of their next call up to the 64th, show 0, how many 7, and how many anything else.
fn tally(alloc: Global, desk: &Desk<QueuedDisk>, file: &[u8]) -> Result<(u32, u32, u32), Memory> {
    let mut counts = (0u32, 0u32, 0u32);
    for calls in 0..tape(desk).len() + 1 {
        for most in 0..64 {
            match byte_after(alloc, desk, file, calls, most)? {
                Some(0) => counts.0 = counts.0.saturating_add(1),
                Some(7) => counts.1 = counts.1.saturating_add(1),
                _ => counts.2 = counts.2.saturating_add(1),
            }
        }
    }
    Ok(counts)
}

// The tally of the tape of one commit.
fn tally_of_a_commit(alloc: Global) -> Result<(u32, u32, u32), Memory> {
    let (mut desk, mut file) = new_desk(alloc)?;
    do_tape(&mut desk, &mut file);
    commit_7(&mut desk);
    tally(alloc, &desk, &file)
}

#[test]
fn each_torn_front_of_a_tape_holds_the_commit_or_not(rt: HostRuntime) -> Result<(), Fail> {
    let (without, with, neither) = tally_of_a_commit(rt.alloc())?;
    assert!(rt; without > 0 && with > 0);
    assert_eq!(rt; neither, 0);
    Ok(())
}
