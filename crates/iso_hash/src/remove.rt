// The removal of a key. It makes at most two writes, the 2 of the clauses.
ghost use Rattle.std.specs.Prelude.{◌≡◌, ◌↔◌, ◌+◌, ◌<◌, ◌≤◌, Err, IsFalse, IfOk, IfErr, OnOk};
ghost use Rattle.store_model.specs.{HashCalls.{del_program, is_key, is_spent}, HashRegion.{del_op, hash_map, IsHashArea, IsHashRegion}};
ghost use Rattle.tx_blocks.specs.{Tx.IsLater, Runs.{area_of, HasEnded, IsLocalCall, IsStoreCause, IsUnwritten}};
ghost use Rattle.iso_hash.specs.Walks.{HasBuffer, HasKeys, IsPart};

use crate::bucket::{HashedKey, bucket_of, buckets};
use crate::links::del_block;
use crate::walk::{Walked, walk};
use crate::writes::clear_cell;
use iso_alloc::{buffer, cell_count, is_alone, is_key, word_at};
use std::alloc::Global;
use store_model::{Area, Region, Spot, StoreError};
use tx_blocks::{TxBlocks, area_of};

// Whether the block is an overflow block, the last of its chain, and has no other used cell.
fn is_spent(area: Area, spot: Spot, keys: &[u8]) -> bool
    requires { HasKeys area keys.now }
    ensures { result ≡ is_spent area spot keys.now }
{
    buckets(area) < spot.block
        && word_at(keys, 0) == 0
        && is_alone(area.size as usize, keys, spot.cell as usize)
}

// Removes a key, with a buffer for a block.
fn del_with<T: TxBlocks>(tx: &mut T, key: &HashedKey, block: &mut [u8]) -> Result<bool, StoreError>
    requires { HasBuffer (T.state tx.old) key.now.area block.old }
    ensures { IsPart (del_program key.now.area key.now.bytes.now) (T.state tx.old) (T.state tx.new) 2 (T.device tx.old) (T.device tx.new) result }
{
    match walk(tx, key, false, block) {
        Ok(Walked::AtCell { spot, before }) => {
            let end = 64 + 31 * cell_count(key.area.size as usize);
            if is_spent(key.area, spot, &block[..end]) {
                return del_block(tx, key.area, spot.block, before, block);
            }
            clear_cell(tx, key.area, spot, block)
        }
        Ok(Walked::AtEnd { .. }) => Ok(false),
        Err(e) => Err(e),
    }
}

/// Removes a key, and says whether the region's map had it.
///
/// # Errors
///
/// Nothing was written, but where the transaction wants memory between two writes.
/// - `BadKey` exactly where the key does not have 1 to 28 bytes.
/// - `Broken`: a block of the walk fails a test.
/// - `Memory`: want of memory for a buffer. The transaction is as before.
/// - `Tx`: the transaction refuses an access.
pub fn del<T: TxBlocks>(
    alloc: Global,
    tx: &mut T,
    region: Region,
    key: &[u8],
) -> Result<bool, StoreError>
    requires area { IsHashArea (area_of (T.state tx.old) region) }
    requires fits { region.start + region.size ≤ (T.state tx.old).blocks }
    ensures ended { HasEnded (del_program (area_of (T.state tx.old) region) key.now) (T.state tx.old) (T.state tx.new) result }
    ensures local { IfOk result (IsLocalCall (IsHashRegion (area_of (T.state tx.old) region)) (hash_map (area_of (T.state tx.old) region)) (del_op key.now) (T.state tx.old) (T.state tx.new)) }
    ensures bad_key { result ≡ Err StoreError.BadKey ↔ IsFalse (is_key key.now) }
    ensures cause { IfErr result (IsStoreCause (T.state tx.new) 2 (T.device tx.old) (T.device tx.new)) }
    ensures unwritten { IfErr result (IsUnwritten (T.state tx.old) (T.state tx.new) 2) }
    ensures later { IsLater (T.device tx.old) (T.device tx.new) }
    ensures passed { OnOk result ((T.device tx.new).faults ≡ (T.device tx.old).faults) }
{
    if !is_key(key) {
        return Err(StoreError::BadKey);
    }
    let mut block = buffer(alloc, tx.block_size() as usize)?;
    let area = area_of(tx, region);
    let key = HashedKey {
        area,
        bytes: key,
        bucket: bucket_of(area, key),
    };
    del_with(tx, &key, &mut block)
}
