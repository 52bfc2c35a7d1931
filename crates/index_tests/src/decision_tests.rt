ghost use Rattle.std.specs.Prelude.{◌≡◌, ◌<◌};

use crate::marks_tests::{same, touched};
use byte_marks::Touched;
use conflict_rule::{Checked, Notes, decide};
use counts::{Ledger, Steps};
use iso_model::{Clash, Mode};
use std::alloc::Global;
use std::marker::Brand;
use std::sync::ledger::Blank;
use std::test::Fail;

// Commit 3 writes the first bytes of block 5, commit 4 some of the blocks 2 and 5, and commit 5 all of block 9.
fn three_commits(alloc: Global) -> Result<Notes, Fail> {
    let mut notes = Notes::empty(alloc);
    notes.reserve()?;
    notes.add(3, touched(alloc, &[(5, 0, 8)])?);
    notes.reserve()?;
    notes.add(4, touched(alloc, &[(5, 4, 2), (2, 10, 10)])?);
    notes.reserve()?;
    notes.add(5, touched(alloc, &[(9, 0, 64)])?);
    Ok(notes)
}

fn decided_in<L: Ledger>(
    blank: Blank,
    mode: Mode,
    checked: Checked,
    reads: &Touched,
    writes: &Touched,
    notes: &Notes,
) -> Option<Clash>
    requires name { blank.name ≡ L.name }
    requires parts { blank.parts ≡ L.parts }
    requires some { 0 < L.parts }
{
    let mut steps = Steps::<L>::start(blank);
    decide(mode, &checked, reads, writes, notes, &mut steps)
}

fn decided(
    mode: Mode,
    upto: u64,
    reads: &Touched,
    writes: &Touched,
    notes: &Notes,
) -> Option<Clash> {
    let checked = Checked { upto, clash: None };
    decided_in::<Brand>(Blank::new(1), mode, checked, reads, writes, notes)
}

fn known(clash: Clash, writes: &Touched, notes: &Notes) -> Option<Clash> {
    let checked = Checked {
        upto: 4,
        clash: Some(clash),
    };
    decided_in::<Brand>(Blank::new(1), Mode::Serial, checked, writes, writes, notes)
}

fn holds_in<L: Ledger>(blank: Blank, notes: &Notes, number: u64) -> bool
    requires name { blank.name ≡ L.name }
    requires parts { blank.parts ≡ L.parts }
    requires some { 0 < L.parts }
{
    let mut steps = Steps::<L>::start(blank);
    notes.look_at(number, &mut steps).is_some()
}

fn holds(notes: &Notes, number: u64) -> bool {
    holds_in::<Brand>(Blank::new(1), notes, number)
}

fn clash(commit: u64, block: u32, at: u16) -> Option<Clash> {
    Some(Clash { commit, block, at })
}

#[test]
fn first_commit_then_least_block_and_byte(rt: HostRuntime) -> Result<(), Fail> {
    let alloc = rt.alloc();
    let notes = three_commits(alloc)?;
    let reads = touched(alloc, &[(5, 5, 4), (2, 12, 2), (9, 63, 1)])?;
    let writes = touched(alloc, &[(7, 0, 1)])?;
    same(
        &rt,
        decided(Mode::Serial, 2, &reads, &writes, &notes),
        clash(3, 5, 5),
    );
    same(
        &rt,
        decided(Mode::Serial, 3, &reads, &writes, &notes),
        clash(4, 2, 12),
    );
    same(
        &rt,
        decided(Mode::Serial, 4, &reads, &writes, &notes),
        clash(5, 9, 63),
    );
    same(&rt, decided(Mode::Serial, 5, &reads, &writes, &notes), None);
    same(
        &rt,
        decided(Mode::Snapshot, 2, &reads, &writes, &notes),
        None,
    );
    same(
        &rt,
        decided(Mode::Snapshot, 2, &writes, &reads, &notes),
        clash(3, 5, 5),
    );
    Ok(())
}

#[test]
fn other_bytes_of_a_block_are_no_conflict(rt: HostRuntime) -> Result<(), Fail> {
    let alloc = rt.alloc();
    let notes = three_commits(alloc)?;
    let beside = touched(alloc, &[(5, 8, 56), (2, 0, 10), (2, 20, 44)])?;
    same(
        &rt,
        decided(Mode::Serial, 2, &beside, &beside, &notes),
        None,
    );
    same(
        &rt,
        decided(Mode::Snapshot, 2, &beside, &beside, &notes),
        None,
    );
    Ok(())
}

#[test]
fn no_write_is_no_conflict_and_a_known_one_stands(rt: HostRuntime) -> Result<(), Fail> {
    let alloc = rt.alloc();
    let notes = three_commits(alloc)?;
    let all = touched(alloc, &[(9, 0, 64)])?;
    let none = Touched::empty(alloc);
    same(&rt, decided(Mode::Serial, 2, &all, &none, &notes), None);
    same(&rt, decided(Mode::Serial, 2, &none, &all, &notes), None);
    let earlier = Clash {
        commit: 2,
        block: 1,
        at: 6,
    };
    same(&rt, known(earlier, &none, &notes), None);
    same(&rt, known(earlier, &all, &notes), clash(2, 1, 6));
    Ok(())
}

#[test]
fn notes_above_a_number_are_kept_or_copied(rt: HostRuntime) -> Result<(), Fail> {
    let alloc = rt.alloc();
    let mut notes = three_commits(alloc)?;
    let reads = touched(alloc, &[(5, 5, 1)])?;
    let copy = notes.copy_after(3)?;
    same(&rt, holds(&notes, 3), true);
    same(&rt, holds(&copy, 3), false);
    same(&rt, holds(&copy, 4), true);
    same(&rt, holds(&notes, 6), false);
    same(
        &rt,
        decided(Mode::Serial, 2, &reads, &reads, &copy),
        clash(4, 5, 5),
    );
    notes.drop_to(3);
    same(&rt, holds(&notes, 3), false);
    same(&rt, holds(&notes, 4), true);
    same(
        &rt,
        decided(Mode::Serial, 2, &reads, &reads, &notes),
        clash(4, 5, 5),
    );
    notes.drop_to(5);
    same(&rt, decided(Mode::Serial, 2, &reads, &reads, &notes), None);
    Ok(())
}
