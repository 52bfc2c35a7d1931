ghost use Rattle.std.specs.Prelude.{◌≡◌};

use crate::marks_tests::same;
use byte_marks::{Marks, Touched};
use iso_model::{Geometry, Label, MAX_LIVE, MarkError, Mode, Span};
use std::alloc::Global;
use std::process::Abort;
use std::test::Fail;
use tx_table::{EnterError, Live, PostError, Rack, Work};

// Four blocks of 64 bytes.
fn small() -> Geometry
    ensures { result ≡ record { block = 64; blocks = 4; log = 64; mode = Mode.Serial; hash = 0; tree = 0; form = 1 } }
{
    Geometry {
        block: 64,
        blocks: 4,
        log: 64,
        mode: Mode::Serial,
        hash: 0,
        tree: 0,
        form: 1,
    }
}

fn write(rt: &impl Abort, work: &mut Work, block: u32, bytes: &[u8]) -> Result<(), Fail> {
    assert!(rt;
        block < work.blocks() && work.room() > 0 && bytes.len() == work.block_size() as usize
    );
    work.reserve(block)?;
    work.write(block, bytes);
    Ok(())
}

fn read(rt: &impl Abort, work: &mut Work, block: u32, into: &mut [u8]) -> Result<(), Fail> {
    assert!(rt;
        block < work.blocks() && work.room() > 0 && into.len() == work.block_size() as usize
    );
    work.reserve(block)?;
    work.read(block, into);
    Ok(())
}

// A block as a read shows it, which is lent with 0x2e in each byte.
fn shown(rt: &impl Abort, work: &mut Work, block: u32) -> Result<[u8; 64], Fail> {
    let mut into = [0x2e; 64];
    read(rt, work, block, &mut into)?;
    Ok(into)
}

// Whether the bytes have this one of block 2.
fn has(alloc: Global, bytes: &Touched, at: u16) -> Result<bool, Fail> {
    let mut one = Marks::empty(alloc);
    if at < 64 {
        one.add(Span { off: at, len: 1 })?;
    }
    let mut block = Touched::empty(alloc);
    block.add(2, &one)?;
    Ok(bytes.first_meet(&block).is_some())
}

fn mark(work: &mut Work, off: u16, len: u16) -> Result<(), MarkError> {
    work.mark(off, len)
}

fn begin(alloc: Global) -> Work {
    Work::begin(alloc, 7, &small())
}

// Whether byte `at` of block 2 is read, and whether it is written.
fn touches(alloc: Global, work: &mut Work, at: u16) -> Result<(bool, bool), Fail> {
    work.settle()?;
    Ok((
        has(alloc, work.reads(), at)?,
        has(alloc, work.writes(), at)?,
    ))
}

// The written blocks.
fn blocks(alloc: Global, work: &mut Work) -> Result<Vec<u32>, Fail> {
    work.settle()?;
    let mut blocks = Vec::new(alloc);
    for (block, _) in work.patches() {
        blocks.push(block)?;
    }
    Ok(blocks)
}

// The steps of a test are in a function that borrows its work: one that owns it drops it at each of its exits, and each of
// these drops is proved.
fn marked_write_writes_its_marks_alone_in(rt: &impl Abort, work: &mut Work) -> Result<(), Fail> {
    write(rt, work, 2, &[0x61; 64])?;
    same(rt, mark(work, 5, 2), Ok(()));
    same(rt, mark(work, 0, 1), Ok(()));
    let mut wanted = [0x2e; 64];
    wanted[0] = 0x61;
    wanted[5] = 0x61;
    wanted[6] = 0x61;
    same(rt, shown(rt, work, 2)?, wanted);
    same(rt, shown(rt, work, 3)?, [0x2e; 64]);
    Ok(())
}

#[test]
fn marked_write_writes_its_marks_alone(rt: HostRuntime) -> Result<(), Fail> {
    let mut work = begin(rt.alloc());
    marked_write_writes_its_marks_alone_in(&rt, &mut work)
}

fn later_write_lies_over_an_earlier_one_in(rt: &impl Abort, work: &mut Work) -> Result<(), Fail> {
    write(rt, work, 2, &[0x61; 64])?;
    write(rt, work, 2, &[0x62; 64])?;
    same(rt, mark(work, 6, 1), Ok(()));
    let mut wanted = [0x61; 64];
    wanted[6] = 0x62;
    same(rt, shown(rt, work, 2)?, wanted);
    Ok(())
}

#[test]
fn later_write_lies_over_an_earlier_one(rt: HostRuntime) -> Result<(), Fail> {
    let mut work = begin(rt.alloc());
    later_write_lies_over_an_earlier_one_in(&rt, &mut work)
}

fn ninth_mark_is_refused_in(rt: &impl Abort, work: &mut Work) -> Result<(), Fail> {
    same(rt, mark(work, 0, 0), Err(MarkError::BadRange));
    same(rt, mark(work, 63, 2), Err(MarkError::BadRange));
    same(rt, mark(work, 63, 1), Err(MarkError::NoAccess));
    write(rt, work, 1, &[1; 64])?;
    for at in 0..8 {
        same(rt, mark(work, at * 4, 1), Ok(()));
    }
    same(rt, mark(work, 1, 1), Err(MarkError::TooManyMarks));
    same(rt, mark(work, 64, 1), Err(MarkError::BadRange));
    write(rt, work, 1, &[2; 64])?;
    same(rt, mark(work, 1, 1), Ok(()));
    Ok(())
}

#[test]
fn ninth_mark_is_refused(rt: HostRuntime) -> Result<(), Fail> {
    let mut work = begin(rt.alloc());
    ninth_mark_is_refused_in(&rt, &mut work)
}

fn marks_say_what_is_touched_in(
    rt: &impl Abort,
    alloc: Global,
    work: &mut Work,
) -> Result<(), Fail> {
    same(rt, work.begun_at(), 7);
    same(rt, work.mode(), Mode::Serial);
    let _ = shown(rt, work, 2)?;
    assert!(rt; !work.has_write());
    same(rt, mark(work, 9, 1), Ok(()));
    same(rt, touches(alloc, work, 9)?, (true, false));
    same(rt, touches(alloc, work, 8)?, (false, false));
    Ok(())
}

#[test]
fn marks_say_what_is_touched(rt: HostRuntime) -> Result<(), Fail> {
    let mut work = begin(rt.alloc());
    marks_say_what_is_touched_in(&rt, rt.alloc(), &mut work)
}

fn mark_after_settling_counts_in(
    rt: &impl Abort,
    alloc: Global,
    work: &mut Work,
) -> Result<(), Fail> {
    write(rt, work, 2, &[3; 64])?;
    assert!(rt; work.has_write());
    same(rt, touches(alloc, work, 9)?, (false, true));
    same(rt, mark(work, 3, 1), Ok(()));
    same(rt, touches(alloc, work, 9)?, (false, false));
    same(rt, touches(alloc, work, 3)?, (false, true));
    let mut wanted = [0x2e; 64];
    wanted[3] = 3;
    same(rt, shown(rt, work, 2)?, wanted);
    Ok(())
}

#[test]
fn mark_after_settling_counts(rt: HostRuntime) -> Result<(), Fail> {
    let mut work = begin(rt.alloc());
    mark_after_settling_counts_in(&rt, rt.alloc(), &mut work)
}

fn patches_rise_by_block_in(rt: &impl Abort, alloc: Global, work: &mut Work) -> Result<(), Fail> {
    write(rt, work, 3, &[5; 64])?;
    write(rt, work, 0, &[6; 64])?;
    write(rt, work, 2, &[7; 64])?;
    write(rt, work, 0, &[8; 64])?;
    same(rt, blocks(alloc, work)?.as_slice(), [0, 2, 3].as_slice());
    Ok(())
}

#[test]
fn patches_rise_by_block(rt: HostRuntime) -> Result<(), Fail> {
    let mut work = begin(rt.alloc());
    patches_rise_by_block_in(&rt, rt.alloc(), &mut work)
}

fn restarted_work_has_done_nothing_in(
    rt: &impl Abort,
    alloc: Global,
    work: &mut Work,
) -> Result<(), Fail> {
    write(rt, work, 2, &[0x61; 64])?;
    same(rt, touches(alloc, work, 9)?, (false, true));
    assert!(rt; work.block_size() == 64);
    work.restart(8, &small());
    assert!(rt; work.begun_at() == 8 && work.room() == 4096 && !work.has_write());
    same(rt, blocks(alloc, work)?.as_slice(), [].as_slice());
    same(rt, touches(alloc, work, 9)?, (false, false));
    write(rt, work, 1, &[0x62; 64])?;
    same(rt, shown(rt, work, 2)?, [0x2e; 64]);
    same(rt, shown(rt, work, 1)?, [0x62; 64]);
    Ok(())
}

#[test]
fn restarted_work_has_done_nothing(rt: HostRuntime) -> Result<(), Fail> {
    let mut work = begin(rt.alloc());
    restarted_work_has_done_nothing_in(&rt, rt.alloc(), &mut work)
}

fn holds_4096_accesses_in(rt: &impl Abort, alloc: Global, work: &mut Work) -> Result<(), Fail> {
    let bytes = [9; 64];
    for at in 0..4096 {
        same(rt, work.room(), 4096 - at);
        write(rt, work, at % 4, &bytes)?;
    }
    same(rt, work.room(), 0);
    same(rt, touches(alloc, work, 63)?, (false, true));
    same(rt, blocks(alloc, work)?.as_slice(), [0, 1, 2, 3].as_slice());
    Ok(())
}

#[test]
fn holds_4096_accesses(rt: HostRuntime) -> Result<(), Fail> {
    let mut work = begin(rt.alloc());
    holds_4096_accesses_in(&rt, rt.alloc(), &mut work)
}

#[test]
fn taken_over_item_is_no_longer_held(rt: HostRuntime) -> Result<(), Fail> {
    let alloc = rt.alloc();
    let (Some(left), Some(right)) = (Label::new(b"left"), Label::new(b"right")) else {
        return Err(Fail::from("no label"));
    };
    let mut rack = Rack::empty(alloc);
    same(&rt, rack.is_held(&left), false);
    same(&rt, rack.post(left.copy(), 10), Ok(()));
    same(&rt, rack.post(right.copy(), 20), Ok(()));
    same(&rt, rack.is_held(&left), true);
    same(
        &rt,
        rack.post(left.copy(), 11),
        Err((PostError::LabelTaken, 11)),
    );
    same(&rt, rack.look(&left), Some(10));
    same(&rt, rack.look(&left), None);
    same(&rt, rack.is_held(&left), false);
    same(&rt, rack.post(left.copy(), 12), Ok(()));
    same(&rt, rack.pop(), Some(20));
    same(&rt, rack.pop(), Some(12));
    same(&rt, rack.pop(), None);
    Ok(())
}

fn enter(live: &mut Live, tx: u64, at: u64) -> Option<Result<(), EnterError>> {
    if !live.is_next(tx, at) {
        return None;
    }
    Some(live.enter(tx, at, Mode::Snapshot))
}

#[test]
fn at_most_1024_are_live(rt: HostRuntime) -> Result<(), Fail> {
    let mut live = Live::empty(rt.alloc());
    same(&rt, live.floor(77), 77);
    for tx in 0..MAX_LIVE as u64 {
        same(&rt, enter(&mut live, tx, 50 + tx), Some(Ok(())));
    }
    same(&rt, live.len(), 1024);
    same(
        &rt,
        enter(&mut live, 1024, 1073),
        Some(Err(EnterError::TooManyTx)),
    );
    same(&rt, live.floor(9), 50);
    if live.at(0).is_some() {
        live.leave(0);
    }
    same(&rt, live.floor(9), 51);
    same(&rt, live.at(0), None);
    same(&rt, live.at(1), Some(51));
    same(&rt, live.mode(1), Some(Mode::Snapshot));
    same(&rt, live.mode(0), None);
    same(&rt, enter(&mut live, 1023, 1073), None);
    same(&rt, enter(&mut live, 1024, 1072), None);
    same(&rt, enter(&mut live, 1024, 1073), Some(Ok(())));
    same(&rt, live.at(1024), Some(1073));
    same(&rt, live.floor(9), 51);
    Ok(())
}
