// An operation on a store by any transaction.
ghost use Rattle.std.specs.Prelude.{◌≡◌, ◌+◌, ◌≤◌, false, true};
ghost use Rattle.iso_fs.specs.Ends.{areas_of};
ghost use Rattle.store_calls.specs.Calls.{AreStoreAreas, HasCalled, Stops, is_empty_scan, store_ended};

use crate::range::scan;
use crate::replies::{done, found, of_store, removed};
use script_model::{Op, Reply, Stop};
use std::alloc::Global;
use store_model::FsRegion;
use tx_blocks::TxBlocks;

/// An operation on the store in these regions; any other one does nothing. What the store refuses, and that no more
/// accesses fit, is a reply.
///
/// # Errors
///
/// The accesses that were made stay.
/// - `Memory`: want of memory.
/// - `Disk`: the disk failed in this call.
/// - `Down`: the disk is down.
pub fn call<T: TxBlocks>(alloc: Global, tx: &mut T, at: FsRegion, op: &Op) -> Result<Reply, Stop>
    requires is_open { (T.state tx.old).is_open ≡ true }
    requires areas { AreStoreAreas op.now (areas_of (T.state tx.old) at) }
    requires fits { at.files.start + at.files.size ≤ (T.state tx.old).blocks }
    requires some { is_empty_scan op.now ≡ false }
    ensures called { HasCalled (store_ended (areas_of (T.state tx.old) at) op.now) (T.state tx.old) (T.state tx.new) result }
    ensures stops { Stops (T.device tx.old) (T.device tx.new) result }
{
    match op {
        Op::HashPut { key, value } => {
            done(of_store(iso_hash::put(alloc, tx, at.files, key.as_slice(), value.as_slice())))
        }
        Op::HashGet { key } => found(of_store(iso_hash::get(alloc, tx, at.files, key.as_slice()))),
        Op::HashDelete { key } => {
            removed(of_store(iso_hash::del(alloc, tx, at.files, key.as_slice())))
        }
        Op::TreePut { key, value } => {
            done(of_store(iso_tree::put(alloc, tx, at.files, key.as_slice(), value.as_slice())))
        }
        Op::TreeGet { key } => found(of_store(iso_tree::get(alloc, tx, at.files, key.as_slice()))),
        Op::TreeDelete { key } => {
            removed(of_store(iso_tree::del(alloc, tx, at.files, key.as_slice())))
        }
        Op::TreeScan { from, to, most } => {
            scan(alloc, tx, at.files, from.as_slice(), to.as_slice(), *most)
        }
        Op::FileNew { name } => done(iso_fs::create(alloc, tx, at, name.as_slice())),
        Op::FileWrite { name, off, bytes } => {
            removed(iso_fs::write(alloc, tx, at, name.as_slice(), *off, bytes.as_slice()))
        }
        Op::FileRead { name, off, len } => {
            found(iso_fs::read(alloc, tx, at, name.as_slice(), *off, *len))
        }
        Op::FileMove { from, to } => {
            removed(iso_fs::rename(alloc, tx, at, from.as_slice(), to.as_slice()))
        }
        Op::FileDelete { name } => removed(iso_fs::remove(alloc, tx, at, name.as_slice())),
        _ => Ok(Reply::NotInTx),
    }
}
