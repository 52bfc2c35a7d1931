use byte_marks::{Marks, Touched};
use iso_model::{Memory, Span};
use std::alloc::Global;
use std::fmt::Debug;
use std::process::Abort;
use std::test::Fail;

// Two values that are to be the same. Each test that compared them itself would prove what is printed where they differ.
pub(crate) fn same<T: PartialEq + Debug + Drop>(rt: &impl Abort, found: T, wanted: T) {
    assert_eq!(rt; found, wanted);
}

// Adds the bytes of these spans, each of which lies in a block. It owns no set, since all that is owned is dropped at each `?`.
fn add_spans(marks: &mut Marks, spans: &[(u16, u16)]) -> Result<(), Memory> {
    for (off, len) in spans {
        if *len > 0 && *len <= 4096 && *off <= 4096 - *len {
            marks.add(Span {
                off: *off,
                len: *len,
            })?;
        }
    }
    Ok(())
}

// A set of the bytes of these spans.
fn set_of(alloc: Global, spans: &[(u16, u16)]) -> Result<Marks, Fail> {
    let mut marks = Marks::empty(alloc);
    add_spans(&mut marks, spans)?;
    Ok(marks)
}

// Adds these bytes of blocks: the block, the first byte, how many.
fn add_bytes(alloc: Global, all: &mut Touched, parts: &[(u32, u16, u16)]) -> Result<(), Memory> {
    for (block, off, len) in parts {
        if *len > 0 && *len <= 4096 && *off <= 4096 - *len {
            let span = Span {
                off: *off,
                len: *len,
            };
            all.put(*block, Marks::of(alloc, span))?;
        }
    }
    Ok(())
}

// These bytes of blocks.
pub(crate) fn touched(alloc: Global, parts: &[(u32, u16, u16)]) -> Result<Touched, Fail> {
    let mut all = Touched::empty(alloc);
    add_bytes(alloc, &mut all, parts)?;
    Ok(all)
}

// Adding the spans gives these runs, and the bytes that a plain table of the block marks.
fn expect_runs(
    rt: &impl Abort,
    alloc: Global,
    spans: &[(u16, u16)],
    runs: &[(u16, u16)],
) -> Result<(), Fail> {
    let marks = set_of(alloc, spans)?;
    let mut found = Vec::new(alloc);
    for run in marks.spans() {
        found.push((run.off, run.len))?;
    }
    same(rt, found.as_slice(), runs);
    for at in 0..4096u16 {
        let mut wanted = false;
        for (off, len) in spans {
            if *off <= at && u32::from(at) < u32::from(*off) + u32::from(*len) {
                wanted = true;
            }
        }
        same(rt, marks.covers(Span { off: at, len: 1 }), wanted);
    }
    Ok(())
}

#[test]
fn spans_that_meet_or_touch_merge(rt: HostRuntime) -> Result<(), Fail> {
    let alloc = rt.alloc();
    expect_runs(&rt, alloc, &[], &[])?;
    expect_runs(
        &rt,
        alloc,
        &[(0, 1), (63, 1), (64, 1), (4095, 1)],
        &[(0, 1), (63, 2), (4095, 1)],
    )?;
    expect_runs(&rt, alloc, &[(64, 64), (0, 63)], &[(0, 63), (64, 64)])?;
    expect_runs(&rt, alloc, &[(64, 64), (0, 64)], &[(0, 128)])?;
    expect_runs(&rt, alloc, &[(10, 20), (15, 5)], &[(10, 20)])?;
    expect_runs(&rt, alloc, &[(15, 5), (10, 20)], &[(10, 20)])?;
    expect_runs(&rt, alloc, &[(10, 10), (30, 10), (15, 20)], &[(10, 30)])?;
    expect_runs(&rt, alloc, &[(7, 3), (0, 4096), (4095, 1)], &[(0, 4096)])?;
    Ok(())
}

#[test]
fn ninth_run_goes_to_the_heap(rt: HostRuntime) -> Result<(), Fail> {
    let alloc = rt.alloc();
    let nine = [
        (0, 1),
        (2, 1),
        (4, 1),
        (6, 1),
        (8, 1),
        (10, 1),
        (12, 1),
        (14, 1),
        (4095, 1),
    ];
    expect_runs(&rt, alloc, nine.as_slice(), nine.as_slice())
}

// Ten runs of 100 bytes, each 400 bytes after the one before, and ten that lie between them.
const TEN_RUNS: [(u16, u16); 10] = [
    (0, 100),
    (400, 100),
    (800, 100),
    (1200, 100),
    (1600, 100),
    (2000, 100),
    (2400, 100),
    (2800, 100),
    (3200, 100),
    (3600, 100),
];

const TEN_BETWEEN: [(u16, u16); 10] = [
    (200, 100),
    (600, 100),
    (1000, 100),
    (1400, 100),
    (1800, 100),
    (2200, 100),
    (2600, 100),
    (3000, 100),
    (3400, 100),
    (3800, 100),
];

// Whether these are the runs of 100 bytes of which each begins 200 bytes behind the one before, up to byte 4000.
fn are_every_second_hundred(marks: &Marks) -> bool {
    let mut at = 0u16;
    for run in marks.spans() {
        if run.off != at || run.len != 100 {
            return false;
        }
        at = at.saturating_add(200);
    }
    at == 4000
}

#[test]
fn union_of_more_than_eight_runs(rt: HostRuntime) -> Result<(), Fail> {
    let alloc = rt.alloc();
    let mut marks = set_of(alloc, TEN_RUNS.as_slice())?;
    marks.union(&set_of(alloc, TEN_BETWEEN.as_slice())?)?;
    same(&rt, are_every_second_hundred(&marks), true);
    Ok(())
}

// Whether the bytes are none once those of an empty set are added to a block, and once those of ten runs are.
fn emptiness(alloc: Global, touched: &mut Touched) -> Result<[bool; 2], Fail> {
    touched.add(7, &Marks::empty(alloc))?;
    let first = touched.is_empty();
    touched.add(7, &set_of(alloc, TEN_RUNS.as_slice())?)?;
    Ok([first, touched.is_empty()])
}

#[test]
fn block_with_no_byte_is_empty(rt: HostRuntime) -> Result<(), Fail> {
    let mut touched = Touched::empty(rt.alloc());
    same(&rt, emptiness(rt.alloc(), &mut touched)?, [true, false]);
    Ok(())
}

// Hands a set of eight bytes over to a block, and tells the least byte in common with other bytes as these become more.
fn hand_over(
    alloc: Global,
    touched: &mut Touched,
    other: &mut Touched,
) -> Result<[Option<(u32, u16)>; 2], Memory> {
    let mut marks = Marks::of(alloc, Span { off: 8, len: 4 });
    marks.add(Span { off: 12, len: 4 })?;
    touched.put(3, marks)?;
    add_bytes(alloc, touched, &[(9, 5, 1), (3, 0, 1)])?;
    add_bytes(alloc, other, &[(9, 5, 1)])?;
    let first = touched.first_meet(other);
    add_bytes(alloc, other, &[(3, 15, 9)])?;
    Ok([first, touched.first_meet(other)])
}

#[test]
fn set_of_one_span_is_handed_over(rt: HostRuntime) -> Result<(), Fail> {
    let mut touched = Touched::empty(rt.alloc());
    let mut other = Touched::empty(rt.alloc());
    let found = hand_over(rt.alloc(), &mut touched, &mut other)?;
    same(&rt, found, [Some((9, 5)), Some((3, 15))]);
    touched.clear();
    same(&rt, touched.is_empty(), true);
    Ok(())
}

#[test]
fn least_common_byte_of_two_sets(rt: HostRuntime) -> Result<(), Fail> {
    let alloc = rt.alloc();
    let left = set_of(alloc, &[(0, 10), (64, 10), (200, 100)])?;
    let right = set_of(alloc, &[(10, 54), (73, 5), (250, 1)])?;
    let mut apart = set_of(alloc, &[(10, 54), (74, 126), (300, 3796)])?;
    same(&rt, left.first_meet(&right), Some(73));
    same(&rt, right.first_meet(&left), Some(73));
    same(&rt, left.meets(&apart), false);
    apart.union(&right)?;
    same(&rt, left.first_meet(&apart), Some(73));
    let covered = [
        apart.covers(Span { off: 10, len: 54 }),
        apart.covers(Span { off: 73, len: 127 }),
        apart.covers(Span { off: 72, len: 2 }),
        apart.covers(Span { off: 4095, len: 2 }),
    ];
    same(&rt, covered, [true, true, false, false]);
    Ok(())
}

// The least common bytes of two sets, before and after 60 bytes of block 4 that are added to the first; then those of a copy that was
// made in between, with the second set and with an empty one.
fn meets(
    alloc: Global,
    reads: &mut Touched,
    writes: &Touched,
) -> Result<[Option<(u32, u16)>; 4], Memory> {
    let before = reads.first_meet(writes);
    let copy = reads.copy()?;
    add_bytes(alloc, reads, &[(4, 4, 60)])?;
    Ok([
        before,
        reads.first_meet(writes),
        copy.first_meet(writes),
        copy.first_meet(&Touched::empty(alloc)),
    ])
}

#[test]
fn least_common_byte_of_the_least_common_block(rt: HostRuntime) -> Result<(), Fail> {
    let alloc = rt.alloc();
    let mut reads = touched(alloc, &[(9, 0, 8), (3, 0, 8), (5, 4, 60)])?;
    let writes = touched(alloc, &[(9, 4, 60), (4, 0, 8)])?;
    let found = meets(alloc, &mut reads, &writes)?;
    same(&rt, found, [Some((9, 4)), Some((4, 4)), Some((9, 4)), None]);
    Ok(())
}
