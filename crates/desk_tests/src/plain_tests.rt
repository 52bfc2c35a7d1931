// A transaction over an array in memory: what it shows, and what it refuses.
ghost use Rattle.std.specs.Prelude.{◌≡◌, IfOk};
ghost use Rattle.plain_tx.specs.Plain.{state_of};

use crate::same::same;
use plain_tx::PlainTx;
use std::alloc::Global;
use std::test::Fail;
use store_model::TxError;
use tx_blocks::TxBlocks;

// Two blocks of 64 bytes.
fn small(alloc: Global) -> Result<PlainTx, Fail>
    ensures { IfOk result (λ t. (state_of t).size ≡ 64) }
{
    Ok(PlainTx::new(alloc, vec![in alloc; 0u8; 128]?, 64))
}

#[test]
fn a_marked_write_is_shown(rt: HostRuntime) -> Result<(), Fail> {
    let mut tx = small(rt.alloc())?;
    let mut block = [7u8; 64];
    same(&rt, tx.write_block(1, &block), Ok(()));
    same(&rt, tx.mark_accessed(3, 2), Ok(()));
    same(&rt, tx.read_block(1, &mut block), Ok(()));
    same(&rt, (block[2], block[3], block[4], block[5]), (0, 7, 7, 0));
    same(&rt, tx.room(), 4094);
    Ok(())
}

#[test]
fn calls_are_refused(rt: HostRuntime) -> Result<(), Fail> {
    let mut tx = small(rt.alloc())?;
    let mut block = [0u8; 64];
    same(&rt, tx.mark_accessed(0, 65), Err(TxError::BadRange));
    same(&rt, tx.mark_accessed(0, 1), Err(TxError::NoAccess));
    same(&rt, tx.read_block(2, &mut block), Err(TxError::BadBlock));
    same(&rt, tx.write_block(2, &block), Err(TxError::BadBlock));
    Ok(())
}
