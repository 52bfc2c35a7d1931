// The look-up of a key.
ghost use Rattle.std.specs.Prelude.{◌≡◌, ◌≢◌, ◌↔◌, ◌+◌, ◌<◌, ◌≤◌, Err, IsFalse, IfOk, IfErr, OnOk, length};
ghost use Rattle.store_model.specs.{HashCalls.{get_program, is_key}, HashRegion.{get_op, hash_map, IsHashArea, IsHashRegion}};
ghost use Rattle.tx_blocks.specs.{Tx.IsLater, Runs.{area_of, HasEnded, HasRead, IsLocalCall, IsStoreCause}};
ghost use Rattle.iso_hash.specs.Walks.{HasBuffer, OnlyReads};

use crate::bucket::{HashedKey, bucket_of};
use crate::walk::{Walked, walk};
use iso_alloc::{buffer, cell_count, is_key, is_part, piece, spelled};
use iso_model::{Bytes, Items};
use std::alloc::Global;
use store_model::{Region, StoreError};
use tx_blocks::{TxBlocks, area_of};

// The value of a key, with buffers for a block and for the value.
fn get_with<T: TxBlocks>(
    tx: &mut T,
    key: &HashedKey,
    block: &mut [u8],
    room: Vec<u8>,
) -> Result<Option<Bytes>, StoreError>
    requires buffer { HasBuffer (T.state tx.old) key.now.area block.old }
    requires room { length room.items ≡ 32 }
    ensures ended { HasEnded (get_program key.now.area key.now.bytes.now) (T.state tx.old) (T.state tx.new) result }
    ensures local { IfOk result (IsLocalCall (IsHashRegion key.now.area) (hash_map key.now.area) (get_op key.now.bytes.now) (T.state tx.old) (T.state tx.new)) }
    ensures leaves { OnlyReads (T.state tx.old) (T.state tx.new) (T.device tx.old) (T.device tx.new) result }
    ensures known { IfErr result (λ e. e ≢ StoreError.BadKey) }
{
    match walk(tx, key, true, block) {
        Ok(Walked::AtCell { spot, .. }) => {
            let at = 64 + 31 * cell_count(key.area.size as usize) + 33 * spot.cell as usize;
            let part = piece(block, at, 33);
            if !is_part(part, 32) {
                return Err(StoreError::Broken {
                    block: key.area.start + spot.block,
                });
            }
            Ok(Some(Items::of(spelled(part, room))))
        }
        Ok(Walked::AtEnd { .. }) => Ok(None),
        Err(e) => Err(e),
    }
}

/// The value of a key, and none where the region's map has none. It writes nothing.
///
/// # Errors
///
/// - `BadKey` exactly where the key does not have 1 to 28 bytes.
/// - `Broken`: a block of the walk or the value part fails a test.
/// - `Memory`: want of memory for a buffer. The transaction is as before.
/// - `Tx`: the transaction refuses an access, or wants memory.
pub fn get<T: TxBlocks>(
    alloc: Global,
    tx: &mut T,
    region: Region,
    key: &[u8],
) -> Result<Option<Bytes>, StoreError>
    requires area { IsHashArea (area_of (T.state tx.old) region) }
    requires fits { region.start + region.size ≤ (T.state tx.old).blocks }
    ensures ended { HasEnded (get_program (area_of (T.state tx.old) region) key.now) (T.state tx.old) (T.state tx.new) result }
    ensures local { IfOk result (IsLocalCall (IsHashRegion (area_of (T.state tx.old) region)) (hash_map (area_of (T.state tx.old) region)) (get_op key.now) (T.state tx.old) (T.state tx.new)) }
    ensures reads { HasRead (T.state tx.old) (T.state tx.new) }
    ensures bad_key { result ≡ Err StoreError.BadKey ↔ IsFalse (is_key key.now) }
    ensures cause { IfErr result (IsStoreCause (T.state tx.new) 1 (T.device tx.old) (T.device tx.new)) }
    ensures later { IsLater (T.device tx.old) (T.device tx.new) }
    ensures passed { OnOk result ((T.device tx.new).faults ≡ (T.device tx.old).faults) }
{
    if !is_key(key) {
        return Err(StoreError::BadKey);
    }
    let mut block = buffer(alloc, tx.block_size() as usize)?;
    let room = buffer(alloc, 32)?;
    let area = area_of(tx, region);
    let key = HashedKey {
        area,
        bytes: key,
        bucket: bucket_of(area, key),
    };
    get_with(tx, &key, &mut block, room)
}
