// The writes that take a block into a chain, or out of it.
ghost use Rattle.std.specs.{Prelude.{◌≡◌, ◌+◌, ◌-◌, ◌<◌, ◌≤◌, length, Ok, None, true, [], ◌∷◌, replicate, slice_index}, Int.{w32, to_be_bytes}};
ghost use Rattle.store_model.specs.{Cells.{block_with, next_mark}, FreeMap.{bit_mark, bit_place, clear_bit, map_mark}, HashCalls.{new_block, put_at, AtEnd}, HashRegion.{bucket_of, IsHashArea}, Stores.{store_access, Done, Look, Reserve, Store}};
ghost use Rattle.tx_blocks.specs.Runs.{HasBlock, HasStored};
ghost use Rattle.iso_hash.specs.Walks.{IsPart};

use crate::bucket::{HashedKey, buckets};
use crate::writes::lay_cell;
use iso_alloc::{give_back, lay, lay_alone, map_span, region_of, take_lowest};
use iso_model::Span;
use store_model::{Area, StoreError, TxError};
use tx_blocks::{TxBlocks, look, reserve, store, store_bit};

// The number of a block in four bytes.
fn spelled(number: u32) -> [u8; 4]
    ensures { result ≡ to_be_bytes w32 number }
{
    number.to_be_bytes()
}

// Writes a new block of a bucket, with a key in its first cell.
fn store_new<T: TxBlocks>(
    tx: &mut T,
    key: &HashedKey,
    value: &[u8],
    block: u32,
    position: u32,
    buffer: &mut [u8],
) -> Result<(), TxError>
    requires block { HasBlock IsHashArea (T.state tx.old) key.now.area block buffer.old }
    requires value { length value.now ≤ 32 }
    ensures { HasStored (store_access (key.now.area.start + block) [] (new_block key.now.area.size (bucket_of key.now.area key.now.bytes.now) position key.now.bytes.now value.now)) (T.state tx.old) (T.state tx.new) (T.device tx.old) (T.device tx.new) result }
{
    buffer.fill(0);
    lay(buffer, 4, &spelled(key.bucket));
    lay(buffer, 8, &spelled(position));
    lay_cell(buffer, 0, key.bytes, value);
    store(tx, key.area.start + block, &[], buffer)
}

// The three writes of a put into a new block.
fn grow<T: TxBlocks>(
    tx: &mut T,
    key: &HashedKey,
    value: &[u8],
    block: u32,
    last: u32,
    position: u32,
    buffer: &mut [u8],
) -> Result<(), StoreError>
    requires block { HasBlock IsHashArea (T.state tx.old) key.now.area block buffer.old }
    requires is_open { (T.state tx.old).is_open ≡ true }
    requires last { last < key.now.area.blocks }
    requires value { length value.now ≤ 32 }
    ensures { IsPart (Reserve 3 (Store key.now.area.start (bit_mark block ∷ []) (block_with key.now.area.size (bit_place block) (slice_index buffer.old (bit_place block) ∷ []))
        (Store (key.now.area.start + block) [] (new_block key.now.area.size (bucket_of key.now.area key.now.bytes.now) position key.now.bytes.now value.now)
        (Store (key.now.area.start + last) (next_mark ∷ []) (block_with key.now.area.size 0 (to_be_bytes w32 block)) (Done (Ok tt)))))) (T.state tx.old) (T.state tx.new) 3 (T.device tx.old) (T.device tx.new) result }
{
    if let Err(e) = reserve(tx, 3) {
        return Err(StoreError::Tx(e));
    }
    if let Err(e) = store_bit(tx, key.area, block, buffer) {
        return Err(StoreError::Tx(e));
    }
    if let Err(e) = store_new(tx, key, value, block, position, buffer) {
        return Err(StoreError::Tx(e));
    }
    lay_alone(buffer, 0, &spelled(block));
    let span = Span { off: 0, len: 4 };
    match store(tx, key.area.start + last, &[span], buffer) {
        Ok(()) => Ok(()),
        Err(e) => Err(StoreError::Tx(e)),
    }
}

/// Puts a key into a new block after the last one of its chain.
///
/// # Errors
///
/// - `NoBlocks`: none is free.
/// - `Tx`: the transaction refuses an access. Nothing was written, but where it wants memory between two writes.
pub fn put_block<T: TxBlocks>(
    tx: &mut T,
    key: &HashedKey,
    value: &[u8],
    last: u32,
    position: u32,
    buffer: &mut [u8],
) -> Result<(), StoreError>
    requires last { HasBlock IsHashArea (T.state tx.old) key.now.area last buffer.old }
    requires position { position < key.now.area.blocks }
    requires value { length value.now ≤ 32 }
    ensures { IsPart (put_at key.now.area key.now.bytes.now value.now (AtEnd None last position)) (T.state tx.old) (T.state tx.new) 3 (T.device tx.old) (T.device tx.new) result }
{
    if let Err(e) = look(tx, key.area.start, map_span(key.area.blocks), buffer) {
        return Err(StoreError::Tx(e));
    }
    match take_lowest(buffer, region_of(key.area), buckets(key.area) + 1) {
        Some(block) => grow(tx, key, value, block, last, position + 1, buffer),
        None => Err(StoreError::NoBlocks { need: 1, free: 0 }),
    }
}

// The two writes that give a block back.
fn shrink<T: TxBlocks>(
    tx: &mut T,
    area: Area,
    block: u32,
    before: u32,
    buffer: &mut [u8],
) -> Result<bool, StoreError>
    requires block { HasBlock IsHashArea (T.state tx.old) area block buffer.old }
    requires is_open { (T.state tx.old).is_open ≡ true }
    requires before { before < area.blocks }
    ensures { IsPart (Reserve 2 (Store area.start (bit_mark block ∷ []) (block_with area.size (bit_place block) (slice_index buffer.old (bit_place block) ∷ []))
        (Store (area.start + before) (next_mark ∷ []) (replicate area.size 0) (Done (Ok true))))) (T.state tx.old) (T.state tx.new) 2 (T.device tx.old) (T.device tx.new) result }
{
    if let Err(e) = reserve(tx, 2) {
        return Err(StoreError::Tx(e));
    }
    if let Err(e) = store_bit(tx, area, block, buffer) {
        return Err(StoreError::Tx(e));
    }
    buffer.fill(0);
    let span = Span { off: 0, len: 4 };
    match store(tx, area.start + before, &[span], buffer) {
        Ok(()) => Ok(true),
        Err(e) => Err(StoreError::Tx(e)),
    }
}

/// Gives the last block of a chain back.
///
/// # Errors
///
/// `Tx`: the transaction refuses an access. Nothing was written, but where it wants memory between the two writes.
pub fn del_block<T: TxBlocks>(
    tx: &mut T,
    area: Area,
    block: u32,
    before: u32,
    buffer: &mut [u8],
) -> Result<bool, StoreError>
    requires block { HasBlock IsHashArea (T.state tx.old) area block buffer.old }
    requires before { before < area.blocks }
    ensures { IsPart (Look area.start (map_mark area.blocks) (λ map. None) (λ map none.
        Reserve 2
        (Store area.start (bit_mark block ∷ []) (block_with area.size (bit_place block) (clear_bit (slice_index map (bit_place block)) block ∷ []))
        (Store (area.start + before) (next_mark ∷ []) (replicate area.size 0) (Done (Ok true)))))) (T.state tx.old) (T.state tx.new) 2 (T.device tx.old) (T.device tx.new) result }
{
    if let Err(e) = look(tx, area.start, map_span(area.blocks), buffer) {
        return Err(StoreError::Tx(e));
    }
    give_back(buffer, region_of(area), block);
    shrink(tx, area, block, before, buffer)
}
