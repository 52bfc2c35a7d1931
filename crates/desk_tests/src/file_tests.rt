// Calls on files over a transaction on an array in memory.
ghost use Rattle.std.specs.Prelude.{◌≡◌, IfOk};
ghost use Rattle.plain_tx.specs.Plain.{state_of};
ghost use Rattle.desk_tests.specs.Ready.{IsReady};

use crate::same::same;
use iso_fs::{create, write};
use plain_tx::PlainTx;
use std::alloc::Global;
use std::test::Fail;
use store_model::{FsError, FsRegion, Region};

// A tree of 4 blocks, and 60 blocks for the files.
fn place() -> FsRegion
    ensures { result ≡ record { tree = record { start = 0; size = 4 }; files = record { start = 4; size = 60 } } }
{
    FsRegion {
        tree: Region { start: 0, size: 4 },
        files: Region { start: 4, size: 60 },
    }
}

// Sixty-four blocks of zeros.
fn blank(alloc: Global) -> Result<PlainTx, Fail>
    ensures { IfOk result (λ t. IsReady 64 (state_of t)) }
{
    let bytes = vec![in alloc; 0u8; 16384]?;
    Ok(PlainTx::new(alloc, bytes, 256))
}

// `create` in the files of those blocks.
fn create_in(alloc: Global, tx: &mut PlainTx, name: &[u8]) -> Result<(), FsError>
    requires { IsReady 64 (state_of tx.old) }
    ensures { IsReady 64 (state_of tx.new) }
{
    create(alloc, tx, place(), name)
}

// `write` in the files of those blocks.
fn write_in(
    alloc: Global,
    tx: &mut PlainTx,
    name: &[u8],
    off: u32,
    bytes: &[u8],
) -> Result<bool, FsError>
    requires { IsReady 64 (state_of tx.old) }
    ensures { IsReady 64 (state_of tx.new) }
{
    write(alloc, tx, place(), name, off, bytes)
}

// A script has no line for such a write.
#[test]
fn a_write_of_no_bytes_is_refused(rt: HostRuntime) -> Result<(), Fail> {
    let alloc = rt.alloc();
    let mut tx = blank(alloc)?;
    same(&rt, create_in(alloc, &mut tx, b"a"), Ok(()));
    same(
        &rt,
        write_in(alloc, &mut tx, b"a", 0, &[]),
        Err(FsError::BadRange),
    );
    same(
        &rt,
        write_in(alloc, &mut tx, &[], 0, &[]),
        Err(FsError::BadName),
    );
    Ok(())
}
