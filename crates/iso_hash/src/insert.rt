// The put of a key.
ghost use Rattle.std.specs.Prelude.{◌≡◌, ◌↔◌, ◌+◌, ◌<◌, ◌≤◌, Err, IsFalse, IsTrue, true, IfOk, IfErr, IfSome, OnOk, length};
ghost use Rattle.store_model.specs.{HashCalls.{is_key, is_value, put_at, put_program, AtEnd}, HashRegion.{hash_map, put_op, IsHashArea, IsHashRegion}};
ghost use Rattle.tx_blocks.specs.{Tx.IsLater, Runs.{area_of, HasBlock, HasEnded, IsLocalCall, IsStoreCause, IsUnwritten}};
ghost use Rattle.iso_hash.specs.Walks.{HasBuffer, IsPart, IsSpot};

use crate::bucket::{HashedKey, bucket_of};
use crate::links::put_block;
use crate::walk::{Walked, walk};
use crate::writes::{put_cell, put_value};
use iso_alloc::{buffer, is_key, is_value};
use std::alloc::Global;
use store_model::{Region, Spot, StoreError};
use tx_blocks::{TxBlocks, area_of};

// Puts a key that the walk did not find.
fn put_missing<T: TxBlocks>(
    tx: &mut T,
    key: &HashedKey,
    value: &[u8],
    spare: Option<Spot>,
    last: u32,
    position: u32,
    block: &mut [u8],
) -> Result<(), StoreError>
    requires last { HasBlock IsHashArea (T.state tx.old) key.now.area last block.old }
    requires value { length value.now ≤ 32 }
    requires spare { IfSome spare (IsSpot key.now.area) }
    requires position { position < key.now.area.blocks }
    ensures { IsPart (put_at key.now.area key.now.bytes.now value.now (AtEnd spare last position)) (T.state tx.old) (T.state tx.new) 3 (T.device tx.old) (T.device tx.new) result }
{
    match spare {
        Some(spot) => put_cell(tx, key.area, spot, key.bytes, value, block),
        None => put_block(tx, key, value, last, position, block),
    }
}

// Puts a value at a key, with a buffer for a block.
fn put_with<T: TxBlocks>(
    tx: &mut T,
    key: &HashedKey,
    value: &[u8],
    block: &mut [u8],
) -> Result<(), StoreError>
    requires buffer { HasBuffer (T.state tx.old) key.now.area block.old }
    requires value { is_value value.now ≡ true }
    ensures { IsPart (put_program key.now.area key.now.bytes.now value.now) (T.state tx.old) (T.state tx.new) 3 (T.device tx.old) (T.device tx.new) result }
{
    match walk(tx, key, false, block) {
        Ok(Walked::AtCell { spot, .. }) => put_value(tx, key.area, spot, value, block),
        Ok(
            Walked::AtEnd {
                spare,
                last,
                position,
            },
        ) => put_missing(tx, key, value, spare, last, position, block),
        Err(e) => Err(e),
    }
}

/// Puts a value at a key: the region's map has it then.
///
/// # Errors
///
/// Nothing was written, but where the transaction wants memory between two writes.
/// - `BadKey` exactly where the key does not have 1 to 28 bytes.
/// - `BadValue` exactly where the key is good, and the value has more than 32 bytes.
/// - `NoBlocks`: a block is needed and none is free.
/// - `Broken`: a block of the walk fails a test.
/// - `Memory`: want of memory for a buffer. The transaction is as before.
/// - `Tx`: the transaction refuses an access.
pub fn put<T: TxBlocks>(
    alloc: Global,
    tx: &mut T,
    region: Region,
    key: &[u8],
    value: &[u8],
) -> Result<(), StoreError>
    requires area { IsHashArea (area_of (T.state tx.old) region) }
    requires fits { region.start + region.size ≤ (T.state tx.old).blocks }
    ensures ended { HasEnded (put_program (area_of (T.state tx.old) region) key.now value.now) (T.state tx.old) (T.state tx.new) result }
    ensures local { IfOk result (IsLocalCall (IsHashRegion (area_of (T.state tx.old) region)) (hash_map (area_of (T.state tx.old) region)) (put_op key.now value.now) (T.state tx.old) (T.state tx.new)) }
    ensures bad_key { result ≡ Err StoreError.BadKey ↔ IsFalse (is_key key.now) }
    ensures bad_value { result ≡ Err StoreError.BadValue ↔ (IsTrue (is_key key.now) × IsFalse (is_value value.now)) }
    ensures cause { IfErr result (IsStoreCause (T.state tx.new) 3 (T.device tx.old) (T.device tx.new)) }
    ensures unwritten { IfErr result (IsUnwritten (T.state tx.old) (T.state tx.new) 3) }
    ensures later { IsLater (T.device tx.old) (T.device tx.new) }
    ensures passed { OnOk result ((T.device tx.new).faults ≡ (T.device tx.old).faults) }
{
    if !is_key(key) {
        return Err(StoreError::BadKey);
    }
    if !is_value(value) {
        return Err(StoreError::BadValue);
    }
    let mut block = buffer(alloc, tx.block_size() as usize)?;
    let area = area_of(tx, region);
    let key = HashedKey {
        area,
        bytes: key,
        bucket: bucket_of(area, key),
    };
    put_with(tx, &key, value, &mut block)
}
