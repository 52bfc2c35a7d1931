// What the accesses of a transaction touch.
ghost use Rattle.std.specs.{Prelude.{◌≡◌, ℕ, ◌<◌, ◌≤◌, Bool, IsTrue, IfOk, List, OnOk, OnErr, drop, length, map, slice_index_or}, List.{All, AllByRecursion, list_any}};
ghost use Rattle.iso_model.specs.{declared.access.Access.Access, declared.access.Kind.Kind, declared.access.Kind.TheVariants.{Read, Write}, Geometry.is_block_size};
ghost use Rattle.tx_table.specs.{declared.rows.Row.Row, Touching.{AreCovered, ArePlacesTouched, IsFolded, IsTouched}, Work.{access_of, AreRows, IsRow}};

use crate::rows::Row;
use byte_marks::{Marks, Touched};
use iso_model::{Kind, Memory, Span};
use std::alloc::Global;

// How many rows are added in their own order at most: to sort them would cost more.
const FEW: usize = 16;

// The bytes of its block that a row covers.
#[inline(never)]
fn covered_bytes(alloc: Global, row: &Row, size: u32) -> Result<Marks, Memory>
    requires size { IsTrue (is_block_size size) }
    requires row { IsRow size row.now }
    ensures { IfOk result (AreCovered size row.now) }
{
    if row.count == 0 {
        let whole = Span {
            off: 0,
            len: size as u16,
        };
        return Ok(Marks::of(alloc, whole));
    }
    let mut marks = Marks::of(alloc, row.spans[0]);
    for at in 1..row.count {
        marks.add(row.spans[at])?;
    }
    Ok(marks)
}

// Adds these bytes, which a row covers, to what is read or what is written. Without memory both stay as they are.
#[inline(always)]
fn put_bytes(
    row: &Row,
    size: u32,
    marks: Marks,
    reads: &mut Touched,
    writes: &mut Touched,
) -> Result<(), Memory>
    requires { AreCovered size row.now marks }
    ensures reads { OnOk result (IsTouched size Read row.now reads.old reads.new) }
    ensures writes { OnOk result (IsTouched size Write row.now writes.old writes.new) }
    ensures err { OnErr result ((reads.new ≡ reads.old) × (writes.new ≡ writes.old)) }
{
    match row.kind {
        Kind::Read => reads.put(row.block, marks)?,
        Kind::Write => writes.put(row.block, marks)?,
    }
    Ok(())
}

// Adds the bytes that a row covers to what is read or what is written. Without memory both stay as they are.
fn touch(
    alloc: Global,
    row: &Row,
    size: u32,
    reads: &mut Touched,
    writes: &mut Touched,
) -> Result<(), Memory>
    requires size { IsTrue (is_block_size size) }
    requires row { IsRow size row.now }
    ensures reads { OnOk result (IsTouched size Read row.now reads.old reads.new) }
    ensures writes { OnOk result (IsTouched size Write row.now writes.old writes.new) }
    ensures err { OnErr result ((reads.new ≡ reads.old) × (writes.new ≡ writes.old)) }
{
    // The marks of most rows are made where they are handed over.
    if row.count == 1 {
        return put_bytes(row, size, Marks::of(alloc, row.spans[0]), reads, writes);
    }
    let marks = covered_bytes(alloc, row, size)?;
    put_bytes(row, size, marks, reads, writes)
}

// Adds the bytes that the rows from a place on cover to what is read and what is written, in the order of the rows, and says
// how many are in it then: without memory the first ones.
fn fold_in_turn(
    alloc: Global,
    rows: &[Row],
    from: usize,
    size: u32,
    blocks: u32,
    reads: &mut Touched,
    writes: &mut Touched,
) -> usize
    requires within { from ≤ length rows.now }
    requires size { IsTrue (is_block_size size) }
    requires rows { AreRows size blocks rows.now }
    ensures least { from ≤ result }
    ensures within { result ≤ length rows.now }
    ensures reads { IsFolded size blocks Read (map access_of rows.now) from result reads.old reads.new }
    ensures writes { IsFolded size blocks Write (map access_of rows.now) from result writes.old writes.new }
{
    for at in from..rows.len() {
        if let Err(_) = touch(alloc, &rows[at], size, reads, writes) {
            return at;
        }
    }
    rows.len()
}

// The rows from a place on, by the order of their blocks: each with its place.
fn by_block(alloc: Global, rows: &[Row], from: usize) -> Result<Vec<(u32, usize)>, Memory>
    requires { from ≤ length rows.now }
    ensures inside { IfOk result (λ order. All (λ e. e.1 < length rows.now) order.items) }
    ensures all { IfOk result (λ order. (d : Row) → (test : Row → Bool) → list_any (λ e. test (slice_index_or rows.now e.1 d)) order.items ≡ list_any test (drop from rows.now)) }
{
    let mut order = Vec::with_capacity(alloc, rows.len() - from)?;
    for at in from..rows.len() {
        order.push((rows[at].block, at))?;
    }
    order.sort_unstable();
    Ok(order)
}

// Adds the bytes that the rows at these places cover, so that those of later blocks come after the others.
fn fold_places(
    alloc: Global,
    rows: &[Row],
    order: &[(u32, usize)],
    size: u32,
    reads: &mut Touched,
    writes: &mut Touched,
) -> Result<(), Memory>
    requires size { IsTrue (is_block_size size) }
    requires rows { AllByRecursion (IsRow size) rows.now }
    requires inside { All (λ e. e.1 < length rows.now) order.now }
    ensures reads { OnOk result (ArePlacesTouched size Read rows.now order.now reads.old reads.new) }
    ensures writes { OnOk result (ArePlacesTouched size Write rows.now order.now writes.old writes.new) }
{
    for entry in order {
        touch(alloc, &rows[entry.1], size, reads, writes)?;
    }
    Ok(())
}

/// Adds the bytes that the rows from a place on cover to what is read and what is written, and says how many rows are in it
/// then: without memory the first ones, or none. Many rows are sorted by their blocks before, so that no set has to make room.
pub fn fold(
    alloc: Global,
    rows: &[Row],
    from: usize,
    size: u32,
    blocks: u32,
    reads: &mut Touched,
    writes: &mut Touched,
) -> usize
    requires within { from ≤ length rows.now }
    requires size { IsTrue (is_block_size size) }
    requires rows { AreRows size blocks rows.now }
    ensures whole { from ≡ length rows.now → result ≡ length rows.now }
    ensures within { result ≤ length rows.now }
    ensures reads { IsFolded size blocks Read (map access_of rows.now) from result reads.old reads.new }
    ensures writes { IsFolded size blocks Write (map access_of rows.now) from result writes.old writes.new }
{
    if rows.len() - from <= FEW {
        return fold_in_turn(alloc, rows, from, size, blocks, reads, writes);
    }
    let Ok(order) = by_block(alloc, rows, from) else {
        return from;
    };
    if let Err(_) = fold_places(alloc, rows, order.as_slice(), size, reads, writes) {
        reads.clear();
        writes.clear();
        return 0;
    }
    rows.len()
}

/// Takes the rows from a place on out of what is touched, and says how many are in it then.
pub fn reopen_touched(
    folded: usize,
    last: usize,
    reads: &mut Touched,
    writes: &mut Touched,
) -> usize
    ensures few { result ≤ last }
    ensures none_there { folded ≤ last → result ≡ folded }
    ensures reads { (size blocks : ℕ) (kind : Kind) (accesses : List Access) → IsFolded size blocks kind accesses folded result reads.old reads.new }
    ensures writes { (size blocks : ℕ) (kind : Kind) (accesses : List Access) → IsFolded size blocks kind accesses folded result writes.old writes.new }
{
    if folded <= last {
        return folded;
    }
    reads.clear();
    writes.clear();
    0
}
