ghost use Rattle.std.specs.Prelude.{◌≡◌, ◌+◌, ◌≤◌, IfOk, IsTrue, length};
ghost use Rattle.iso_model.specs.Geometry.{is_block_size};

use crate::marks_tests::same;
use iso_model::{Span, SpanList};
use merge_write::Patch;
use std::alloc::Global;
use std::process::Abort;
use std::test::Fail;

// Drawn bytes, the same for a seed.
fn fill(bytes: &mut [u8], seed: u64)
    ensures { length bytes.new ≡ length bytes.old }
{
    let mut draw = seed;
    for byte in bytes.iter_mut() {
        draw = draw
            .wrapping_mul(6_364_136_223_846_793_005)
            .wrapping_add(1_442_695_040_888_963_407);
        let [high, ..] = draw.to_be_bytes();
        *byte = high;
    }
}

// The bytes of a span, one by one.
fn lay_plainly(span: Span, from: &[u8], into: &mut [u8])
    ensures { length into.new ≡ length into.old }
{
    let start = span.off as usize;
    let end = start + span.len as usize;
    let mut at = 0usize;
    for byte in into.iter_mut() {
        if at >= start && at < end {
            *byte = from.get(at).copied().unwrap_or(0);
        }
        at = at.wrapping_add(1);
    }
}

// Drawn bytes of a block of this size, the same for a seed.
fn drawn(alloc: Global, size: u32, seed: u64) -> Result<Vec<u8>, Fail>
    ensures { IfOk result (λ v. length v.items ≡ size) }
{
    let mut bytes = vec![in alloc; 0u8; size as usize]?;
    fill(&mut bytes, seed);
    Ok(bytes)
}

// Whether these are the runs of a patch, each with as many bytes as it is long.
fn has_runs(patch: &Patch, wanted: &[Span]) -> bool {
    let mut left = wanted.iter();
    for (span, bytes) in patch.spans() {
        if bytes.len() != span.len as usize || left.next() != Some(&span) {
            return false;
        }
    }
    left.next().is_none()
}

// A write of two spans and a later one of one, laid over a block, has the bytes that a loop over them lays, and these runs.
fn lays(
    rt: &impl Abort,
    alloc: Global,
    size: u32,
    first: Span,
    second: Span,
    later: Span,
    runs: &[Span],
) -> Result<(), Fail>
    requires size { IsTrue (is_block_size size) }
    requires first { first.off + first.len ≤ size }
    requires second { second.off + second.len ≤ size }
    requires later { later.off + later.len ≤ size }
{
    let mut block = drawn(alloc, size, 3)?;
    let mut wanted = drawn(alloc, size, 3)?;
    let one = drawn(alloc, size, 7)?;
    let two = drawn(alloc, size, 11)?;
    let mut spans = SpanList::empty(alloc);
    spans.push(first)?;
    spans.push(second)?;
    let mut patch = Patch::blank(alloc, size)?;
    patch.set(&one, &spans);
    let mut next = Patch::blank(alloc, size)?;
    next.set_spans(&two, [later].as_slice());
    patch.then(&next);
    patch.over(&mut block);
    lay_plainly(first, &one, &mut wanted);
    lay_plainly(second, &one, &mut wanted);
    lay_plainly(later, &two, &mut wanted);
    same(rt, block.as_slice(), wanted.as_slice());
    same(rt, has_runs(&patch, runs), true);
    Ok(())
}

fn span(off: u16, len: u16) -> Span
    ensures off { result.off ≡ off }
    ensures len { result.len ≡ len }
{
    Span { off, len }
}

// Blocks of at most 256 bytes.
fn later_bytes_stand_in_small_blocks(rt: &impl Abort, alloc: Global) -> Result<(), Fail> {
    let runs = [span(0, 1), span(30, 3), span(63, 1)];
    lays(rt, alloc, 64, span(0, 1), span(63, 1), span(30, 3), &runs)?;
    let runs = [span(10, 118)];
    lays(
        rt,
        alloc,
        128,
        span(10, 54),
        span(100, 28),
        span(64, 36),
        &runs,
    )?;
    let runs = [span(0, 256)];
    lays(
        rt,
        alloc,
        256,
        span(0, 256),
        span(31, 1),
        span(63, 2),
        &runs,
    )?;
    Ok(())
}

#[test]
fn later_bytes_stand_and_runs_are_maximal(rt: HostRuntime) -> Result<(), Fail> {
    let alloc = rt.alloc();
    later_bytes_stand_in_small_blocks(&rt, alloc)?;
    let runs = [span(63, 3)];
    lays(
        &rt,
        alloc,
        512,
        span(63, 1),
        span(65, 1),
        span(64, 1),
        &runs,
    )?;
    let runs = [span(64, 64), span(1023, 1)];
    lays(
        &rt,
        alloc,
        1024,
        span(64, 32),
        span(96, 32),
        span(1023, 1),
        &runs,
    )?;
    let runs = [span(5, 1), span(7, 1)];
    lays(&rt, alloc, 2048, span(0, 0), span(5, 1), span(7, 1), &runs)?;
    let runs = [span(0, 64), span(4032, 64)];
    lays(
        &rt,
        alloc,
        4096,
        span(4095, 1),
        span(4032, 64),
        span(0, 64),
        &runs,
    )?;
    Ok(())
}

#[test]
fn no_span_is_the_whole_block(rt: HostRuntime) -> Result<(), Fail> {
    let alloc = rt.alloc();
    let mut patch = Patch::blank(alloc, 64)?;
    let mut block = vec![in alloc; 5u8; 64]?;
    patch.over(&mut block);
    same(&rt, block.as_slice(), [5; 64].as_slice());
    patch.set(&[9; 64], &SpanList::empty(alloc));
    patch.over(&mut block);
    same(&rt, block.as_slice(), [9; 64].as_slice());
    patch.clear();
    same(&rt, patch.spans().next().is_none(), true);
    patch.set_spans(&[7; 64], [span(60, 4)].as_slice());
    patch.over(&mut block);
    same(&rt, (block[59], block[60], block[63]), (9, 7, 7));
    Ok(())
}
