// The steps that calls over a transaction are made of: a read or a write with its marks, and a test of the room.
ghost use Rattle.std.specs.{Prelude.{◌≡◌, ◌<◌, ◌≤◌, OnOk, OnErr, IfErr, Ok, length, slice_index, [], ◌∷◌, true, None}, List.AllByRecursion, Option.ForSome};
ghost use Rattle.iso_model.specs.{Effect.own, Marks.marked, Premises.{block_at, IsSpan}};
ghost use Rattle.store_model.specs.{Cells.block_with, FreeMap.{bit_mark, bit_place}, Stores.{Done, Store, look_access, store_access}};
ghost use Rattle.tx_blocks.specs.{Tx.{mark_refusal, room_of, with_accesses, IsLater, Tx}, Runs.{area_of, AreBytesOf, Behaves, HasRun, HasStored, IsCause}};

use crate::TxBlocks;
use iso_model::Span;
use store_model::{Area, Region, StoreError, TxError};

/// The area of a region of the transaction's blocks.
pub fn area_of<T: TxBlocks>(tx: &T, region: Region) -> Area
    ensures { result ≡ area_of (T.state tx.now) region }
{
    Area {
        size: tx.block_size(),
        start: region.start,
        blocks: region.size,
    }
}

/// Marks a range of the last access, which has fewer than 8 marks. It takes no memory.
pub fn mark<T: TxBlocks>(tx: &mut T, span: Span)
    requires { mark_refusal (T.state tx.old) span.off span.len ≡ None }
    ensures marked { T.state tx.new ≡ record (T.state tx.old) { accesses = marked span (T.state tx.old).accesses } }
    ensures device { T.device tx.new ≡ T.device tx.old }
{
    let _ = tx.mark_accessed(span.off, span.len);
}

/// Reads a block under one mark.
///
/// # Errors
///
/// As those of `read_block`, but never `BadBlock`. The transaction is as before.
pub fn look<T: TxBlocks>(tx: &mut T, block: u32, span: Span, into: &mut [u8]) -> Result<(), TxError>
    requires into { length into.old ≡ (T.state tx.old).size }
    requires block { block < (T.state tx.old).blocks }
    requires span { IsSpan (T.state tx.old).size span }
    ensures bytes { OnOk result (ForSome (T.state tx.old).base (λ A. into.new ≡ block_at (own A (T.state tx.old).accesses) block)) }
    ensures read { OnOk result (T.state tx.new ≡ with_accesses (T.state tx.old) (look_access block (span ∷ []) ∷ [])) }
    ensures is_open { OnOk result ((T.state tx.old).is_open ≡ true) }
    ensures kept { OnErr result (T.state tx.new ≡ T.state tx.old) }
    ensures cause { IfErr result (IsCause (T.state tx.new) 1 (T.device tx.old) (T.device tx.new)) }
    ensures later { IsLater (T.device tx.old) (T.device tx.new) }
    ensures passed { OnOk result ((T.device tx.new).faults ≡ (T.device tx.old).faults) }
{
    tx.read_block(block, into)?;
    mark(tx, span);
    Ok(())
}

/// Reads a block without a mark.
///
/// # Errors
///
/// As those of `read_block`, but never `BadBlock`. The transaction is as before.
pub fn look_whole<T: TxBlocks>(tx: &mut T, block: u32, into: &mut [u8]) -> Result<(), TxError>
    requires into { length into.old ≡ (T.state tx.old).size }
    requires block { block < (T.state tx.old).blocks }
    ensures bytes { OnOk result (AreBytesOf (T.state tx.old) block into.new) }
    ensures read { OnOk result (T.state tx.new ≡ with_accesses (T.state tx.old) (look_access block [] ∷ [])) }
    ensures is_open { OnOk result ((T.state tx.old).is_open ≡ true) }
    ensures kept { OnErr result (T.state tx.new ≡ T.state tx.old) }
    ensures cause { IfErr result (IsCause (T.state tx.new) 1 (T.device tx.old) (T.device tx.new)) }
    ensures later { IsLater (T.device tx.old) (T.device tx.new) }
    ensures passed { OnOk result ((T.device tx.new).faults ≡ (T.device tx.old).faults) }
{
    tx.read_block(block, into)?;
    Ok(())
}

/// Goes on only where `count` more accesses fit.
///
/// # Errors
///
/// `TooManyAccesses` exactly where fewer fit.
pub fn reserve<T: TxBlocks>(tx: &T, count: u32) -> Result<(), TxError>
    requires { (T.state tx.now).is_open ≡ true }
    ensures ok { OnOk result (count ≤ room_of (T.state tx.now)) }
    ensures err { IfErr result (λ e. (e ≡ TxError.TooManyAccesses) × (room_of (T.state tx.now) < count)) }
{
    if tx.room() < count {
        return Err(TxError::TooManyAccesses);
    }
    Ok(())
}

/// Writes the bytes of a block that lie in the spans, and the whole block where there is none.
///
/// # Errors
///
/// As those of `write_block`, but never `BadBlock`; where an access fits, `Memory` alone. The transaction is as before.
pub fn store<T: TxBlocks>(
    tx: &mut T,
    block: u32,
    spans: &[Span],
    bytes: &[u8],
) -> Result<(), TxError>
    requires bytes { length bytes.now ≡ (T.state tx.old).size }
    requires block { block < (T.state tx.old).blocks }
    requires spans { AllByRecursion (IsSpan (T.state tx.old).size) spans.now }
    requires few { length spans.now ≤ 8 }
    ensures stored { OnOk result (T.state tx.new ≡ with_accesses (T.state tx.old) (store_access block spans.now bytes.now ∷ [])) }
    ensures kept { OnErr result (T.state tx.new ≡ T.state tx.old) }
    ensures cause { IfErr result (IsCause (T.state tx.new) 1 (T.device tx.old) (T.device tx.new)) }
    ensures room { 0 < room_of (T.state tx.old) → (T.state tx.old).is_open ≡ true → IfErr result (λ e. e ≡ TxError.Memory) }
    ensures device { T.device tx.new ≡ T.device tx.old }
{
    tx.write_block(block, bytes)?;
    for span in spans {
        mark(tx, *span);
    }
    Ok(())
}

/// Writes the byte of a region's map with the bit of a block, as the bytes have it, which are zero but for it then.
///
/// # Errors
///
/// As those of `store`.
pub fn store_bit<T: TxBlocks>(
    tx: &mut T,
    area: Area,
    block: u32,
    map: &mut [u8],
) -> Result<(), TxError>
    requires map { length map.old ≡ area.size }
    requires size { (T.state tx.old).size ≡ area.size }
    requires start { area.start < (T.state tx.old).blocks }
    requires bit { bit_place block < area.size }
    ensures stored { HasStored (store_access area.start (bit_mark block ∷ []) (block_with area.size (bit_place block) (slice_index map.old (bit_place block) ∷ []))) (T.state tx.old) (T.state tx.new) (T.device tx.old) (T.device tx.new) result }
    ensures length { length map.new ≡ area.size }
{
    let at = 64 + (block / 8) as usize;
    let byte = map[at];
    map.fill(0);
    map[at..at + 1].copy_from_slice(&[byte]);
    let span = Span {
        off: at as u16,
        len: 1,
    };
    store(tx, area.start, &[span], map)
}

/// The one write of a store's call, or its last, and the answer that the call has then.
///
/// # Errors
///
/// `Tx`, as those of `store`.
pub fn last_store<T: TxBlocks, R: Copy>(
    tx: &mut T,
    block: u32,
    spans: &[Span],
    bytes: &[u8],
    answer: R,
) -> Result<R, StoreError>
    requires bytes { length bytes.now ≡ (T.state tx.old).size }
    requires block { block < (T.state tx.old).blocks }
    requires spans { AllByRecursion (IsSpan (T.state tx.old).size) spans.now }
    requires few { length spans.now ≤ 8 }
    ensures run { HasRun (Store block spans.now bytes.now (Done (Ok answer))) (T.state tx.old) (T.state tx.new) result }
    ensures behaves { Behaves (T.state tx.old) (T.state tx.new) 1 (T.device tx.old) (T.device tx.new) result }
{
    match store(tx, block, spans, bytes) {
        Ok(()) => Ok(answer),
        Err(e) => Err(StoreError::Tx(e)),
    }
}
