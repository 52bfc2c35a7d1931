// The walk over the blocks of a chain.
ghost use Rattle.std.specs.Prelude.{◌≡◌, ◌<◌, ◌^◌, IfOk, IfSome};
ghost use Rattle.iso_model.specs.Effect.{or_else};
ghost use Rattle.store_model.specs.{HashCalls.spot_in};
ghost use Rattle.iso_hash.specs.Walks.{HasBuffer, HasWalked, IsInside, OnlyReads};

use crate::bucket::{HashedKey, is_linked, last_position};
use iso_alloc::{cell_count, cell_with, unused_cell, word_at};
use iso_model::Span;
use store_model::{Spot, StoreError};
use tx_blocks::{TxBlocks, look, mark};

/// Where a walk ends: at the key's cell, with the block before it in the chain (0 where there is none); or past the last block of
/// the chain, with its first unused cell, the last block and its position.
#[derive(Clone, Copy)]
pub enum Walked {
    AtCell {
        spot: Spot,
        before: u32,
    },
    AtEnd {
        spare: Option<Spot>,
        last: u32,
        position: u32,
    },
}

// The first unused cell so far.
fn first_spare(spare: Option<Spot>, block: u32, unused: Option<usize>) -> Option<Spot>
    requires { IfSome unused (λ cell. cell < 2 ^ 32) }
    ensures { result ≡ or_else spare (spot_in block unused) }
{
    if spare.is_some() {
        return spare;
    }
    match unused {
        Some(cell) => Some(Spot {
            block,
            cell: cell as u32,
        }),
        None => None,
    }
}

/// Walks to the cell that has the key, and writes nothing.
///
/// # Errors
///
/// - `Broken`: a block of the chain fails a test, or the chain does not end where it must.
/// - `Tx`: the transaction refuses a read.
pub fn walk<T: TxBlocks>(
    tx: &mut T,
    key: &HashedKey,
    with_value: bool,
    buffer: &mut [u8],
) -> Result<Walked, StoreError>
    requires { HasBuffer (T.state tx.old) key.now.area buffer.old }
    ensures walked { HasWalked key.now.area key.now.bytes.now with_value (T.state tx.old) (T.state tx.new) buffer.new result }
    ensures inside { IfOk result (IsInside key.now.area) }
    ensures leaves { OnlyReads (T.state tx.old) (T.state tx.new) (T.device tx.old) (T.device tx.new) result }
{
    let size = key.area.size as usize;
    let end = 64 + 31 * cell_count(size);
    let mut block = 1 + key.bucket;
    let mut before = 0;
    let mut spare = None;
    for position in 0..last_position(key.area) + 1 {
        let keys_mark = Span {
            off: 0,
            len: end as u16,
        };
        if let Err(e) = look(tx, key.area.start + block, keys_mark, buffer) {
            return Err(StoreError::Tx(e));
        }
        let keys = &buffer[..end];
        if !is_linked(key.area, key.bucket, position, keys) {
            return Err(StoreError::Broken {
                block: key.area.start + block,
            });
        }
        if let Some(cell) = cell_with(size, key.bytes, keys) {
            if with_value {
                let value_mark = Span {
                    off: (end + 33 * cell) as u16,
                    len: 33,
                };
                mark(tx, value_mark);
            }
            let spot = Spot {
                block,
                cell: cell as u32,
            };
            return Ok(Walked::AtCell { spot, before });
        }
        spare = first_spare(spare, block, unused_cell(size, keys));
        let next = word_at(keys, 0);
        if next == 0 {
            return Ok(Walked::AtEnd {
                spare,
                last: block,
                position,
            });
        }
        before = block;
        block = next;
    }
    Err(StoreError::Broken {
        block: key.area.start + block,
    })
}
