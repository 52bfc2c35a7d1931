// Transactions by their numbers.
use crate::steps::Step::{Abort, Begin, End, EndUntold, Fill, Peek, Show};
use crate::steps::{DONE, played};
use device_desk::Status::{Conflict, Done, NoTransaction};
use std::test::Fail;

#[test]
fn a_write_is_shown_to_its_own_number_alone(rt: HostRuntime) -> Result<(), Fail> {
    let rows = [
        (Begin, DONE),
        (Begin, DONE),
        (Fill(0, 1, 5), DONE),
        (Show(0, 1), (Done, 5)),
        (Show(1, 1), DONE),
    ];
    played(&rt, rt.alloc(), &rows)?;
    Ok(())
}

#[test]
fn what_ended_is_shown_to_those_that_begin_later(rt: HostRuntime) -> Result<(), Fail> {
    let rows = [
        (Begin, DONE),
        (Begin, DONE),
        (Fill(0, 1, 5), DONE),
        (End(0), DONE),
        (Show(1, 1), DONE),
        (Begin, DONE),
        (Show(2, 1), (Done, 5)),
    ];
    played(&rt, rt.alloc(), &rows)?;
    Ok(())
}

#[test]
fn a_number_is_nobodys_after_its_end(rt: HostRuntime) -> Result<(), Fail> {
    let rows = [
        (Begin, DONE),
        (Fill(0, 1, 3), DONE),
        (End(0), DONE),
        (Fill(0, 1, 4), (NoTransaction, 0)),
        (Abort(0), (NoTransaction, 0)),
        (Begin, DONE),
        (Show(1, 1), (Done, 3)),
    ];
    played(&rt, rt.alloc(), &rows)?;
    Ok(())
}

#[test]
fn a_number_that_was_never_told_is_nobodys(rt: HostRuntime) -> Result<(), Fail> {
    let rows = [
        (Begin, DONE),
        (EndUntold, (NoTransaction, 0)),
        (End(0), DONE),
    ];
    played(&rt, rt.alloc(), &rows)?;
    Ok(())
}

#[test]
fn the_later_of_two_that_read_what_the_first_wrote_conflicts(rt: HostRuntime) -> Result<(), Fail> {
    let rows = [
        (Begin, DONE),
        (Begin, DONE),
        (Show(1, 1), DONE),
        (Fill(0, 1, 6), DONE),
        (Fill(1, 2, 6), DONE),
        (End(0), DONE),
        (End(1), (Conflict, 0)),
    ];
    played(&rt, rt.alloc(), &rows)?;
    Ok(())
}

#[test]
fn no_conflict_comes_of_a_peek(rt: HostRuntime) -> Result<(), Fail> {
    let rows = [
        (Begin, DONE),
        (Begin, DONE),
        (Peek(1, 1), DONE),
        (Fill(0, 1, 6), DONE),
        (Fill(1, 2, 6), DONE),
        (Peek(1, 2), (Done, 6)),
        (End(0), DONE),
        (End(1), DONE),
    ];
    played(&rt, rt.alloc(), &rows)?;
    Ok(())
}
