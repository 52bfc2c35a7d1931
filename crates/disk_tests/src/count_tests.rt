// Counts of faults, and steps that contracts count.
ghost use Rattle.std.specs.Prelude.{◌≡◌, ◌+◌, ◌<◌};

use counts::{Blank, Ledger, Steps, count_call, raise};
use std::fmt::Debug;
use std::marker::Brand;
use std::process::Abort;

// Two values that are to be the same. Each test that compared them itself would prove what is printed where they differ.
pub(crate) fn same<T: PartialEq + Debug + Drop>(rt: &impl Abort, found: T, wanted: T) {
    assert_eq!(rt; found, wanted);
}

#[test]
fn a_count_stands_still_at_its_end(rt: HostRuntime) {
    let mut count = u64::MAX - 1;
    raise(&mut count);
    same(&rt, count, u64::MAX);
    raise(&mut count);
    same(&rt, count, u64::MAX);
}

#[test]
fn the_named_calls_are_to_fail(rt: HostRuntime) {
    let mut calls = 0;
    same(&rt, count_call(&[2], &mut calls), false);
    same(&rt, count_call(&[2], &mut calls), true);
    same(&rt, count_call(&[2], &mut calls), false);
    same(&rt, calls, 3);
}

/// Counts `times` more steps.
fn count_on<L: Ledger>(steps: &mut Steps<L>, times: u32)
    ensures { steps.new ≡ steps.old + times }
{
    for _ in 0..times {
        steps.tick();
    }
}

/// Counts in a new ledger, and answers how many bytes the counter takes.
fn bytes_of_a_counter<L: Ledger>(blank: Blank) -> usize
    requires name { blank.name ≡ L.name }
    requires parts { blank.parts ≡ L.parts }
    requires some { 0 < L.parts }
{
    let mut steps = Steps::<L>::start(blank);
    count_on(&mut steps, 1000);
    std::mem::size_of::<Steps<L>>()
}

#[test]
fn a_counter_runs_and_takes_no_bytes(rt: HostRuntime) {
    assert_eq!(rt; bytes_of_a_counter::<Brand>(Blank::new(1)), 0);
}
