// The writes that puts and removals are made of.
ghost use Rattle.std.specs.Prelude.{◌≡◌, ◌+◌, ◌*◌, ◌<◌, ◌≤◌, length, Ok, true, [], ◌∷◌, replicate};
ghost use Rattle.store_model.specs.{Cells.{block_with, cell_count, key_mark, keys_end, value_mark, value_part}, HashCalls.with_cell, Stores.{Done, Store}};
ghost use Rattle.iso_hash.specs.Walks.{FitCell, HasSpot, IsPart, IsSize};

use iso_alloc::{cell_count, lay, lay_alone, spell, value_part};
use iso_model::Span;
use store_model::{Area, Spot, StoreError};
use tx_blocks::{TxBlocks, last_store, store};

/// Puts the key part and the value part of a cell in place.
pub fn lay_cell(into: &mut [u8], cell: usize, key: &[u8], value: &[u8])
    requires size { IsSize (length into.old) }
    requires cell { cell < cell_count (length into.old) }
    requires fits { FitCell key.now value.now }
    ensures { into.new ≡ with_cell (length into.old) cell key.now value.now into.old }
{
    let end = 64 + 31 * cell_count(into.len());
    let mut key_part = [0u8; 31];
    spell(&mut key_part, key);
    lay(into, 64 + 31 * cell, &key_part);
    lay(into, end + 33 * cell, &value_part(value));
}

/// Writes the value of a cell that has the key.
///
/// # Errors
///
/// `Tx`: the transaction refuses the write.
pub fn put_value<T: TxBlocks>(
    tx: &mut T,
    area: Area,
    spot: Spot,
    value: &[u8],
    buffer: &mut [u8],
) -> Result<(), StoreError>
    requires spot { HasSpot (T.state tx.old) area spot buffer.old }
    requires value { length value.now ≤ 32 }
    ensures { IsPart (Store (area.start + spot.block) (value_mark area.size spot.cell ∷ []) (block_with area.size (keys_end area.size + 33 * spot.cell) (value_part value.now)) (Done (Ok tt)))
        (T.state tx.old) (T.state tx.new) 1 (T.device tx.old) (T.device tx.new) result }
{
    let at = 64 + 31 * cell_count(area.size as usize) + 33 * spot.cell as usize;
    lay_alone(buffer, at, &value_part(value));
    let span = Span {
        off: at as u16,
        len: 33,
    };
    last_store(tx, area.start + spot.block, &[span], buffer, ())
}

// The marks of a cell.
fn cell_marks(size: usize, cell: u32) -> [Span; 2]
    requires size { IsSize size }
    requires cell { cell < cell_count size }
    ensures { result ≡ key_mark cell ∷ value_mark size cell ∷ [] }
{
    let end = 64 + 31 * cell_count(size);
    let key_span = Span {
        off: (64 + 31 * cell as usize) as u16,
        len: 31,
    };
    let value_span = Span {
        off: (end + 33 * cell as usize) as u16,
        len: 33,
    };
    [key_span, value_span]
}

/// Writes key and value of an unused cell.
///
/// # Errors
///
/// `Tx`: the transaction refuses the write.
pub fn put_cell<T: TxBlocks>(
    tx: &mut T,
    area: Area,
    spot: Spot,
    key: &[u8],
    value: &[u8],
    buffer: &mut [u8],
) -> Result<(), StoreError>
    requires spot { HasSpot (T.state tx.old) area spot buffer.old }
    requires fits { FitCell key.now value.now }
    ensures { IsPart (Store (area.start + spot.block) (key_mark spot.cell ∷ value_mark area.size spot.cell ∷ []) (with_cell area.size spot.cell key.now value.now (replicate area.size 0)) (Done (Ok tt)))
        (T.state tx.old) (T.state tx.new) 1 (T.device tx.old) (T.device tx.new) result }
{
    buffer.fill(0);
    lay_cell(buffer, spot.cell as usize, key, value);
    let spans = cell_marks(area.size as usize, spot.cell);
    last_store(tx, area.start + spot.block, &spans, buffer, ())
}

/// Makes a cell zero.
///
/// # Errors
///
/// `Tx`: the transaction refuses the write.
pub fn clear_cell<T: TxBlocks>(
    tx: &mut T,
    area: Area,
    spot: Spot,
    buffer: &mut [u8],
) -> Result<bool, StoreError>
    requires spot { HasSpot (T.state tx.old) area spot buffer.old }
    ensures { IsPart (Store (area.start + spot.block) (key_mark spot.cell ∷ value_mark area.size spot.cell ∷ []) (replicate area.size 0) (Done (Ok true)))
        (T.state tx.old) (T.state tx.new) 1 (T.device tx.old) (T.device tx.new) result }
{
    buffer.fill(0);
    let spans = cell_marks(area.size as usize, spot.cell);
    last_store(tx, area.start + spot.block, &spans, buffer, true)
}
