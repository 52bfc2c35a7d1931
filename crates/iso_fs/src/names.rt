// The name of a file, and the calls of the tree store, by its area.
ghost use Rattle.std.specs.Prelude.{◌≡◌, ◌≢◌, IsTrue, IfErr, OnErr, true};
ghost use Rattle.store_model.specs.{FileRegion.AreFileAreas, HashCalls.{is_key, is_value}, TreeCalls.{del_program, get_program, put_program}, TreeRegion.IsTreeArea};
ghost use Rattle.tx_blocks.specs.Runs.{HasArea, HasEnded, HasRead, IsUnwritten};
ghost use Rattle.iso_tree.specs.Walks.{TakesNoBlocks};
ghost use Rattle.iso_fs.specs.Ends.{TreeLeaves};

use iso_alloc::region_of;
use iso_model::Bytes;
use iso_tree::{del, get, put};
use std::alloc::Global;
use store_model::{Area, FileAreas, StoreError};
use tx_blocks::TxBlocks;

/// The name of a file, with the areas of the files and of their names.
#[derive(Drop)]
pub struct FileName<'a> {
    pub areas: FileAreas,
    pub bytes: &'a [u8],
    ghost kind: { AreFileAreas areas },
    ghost good: { is_key bytes.now ≡ true },
}

/// The value of a name.
///
/// # Errors
///
/// As those of `iso_tree::get`.
pub fn value_of<T: TxBlocks>(
    alloc: Global,
    tx: &mut T,
    tree: Area,
    name: &[u8],
) -> Result<Option<Bytes>, StoreError>
    requires { HasArea IsTreeArea (T.state tx.old) tree }
    ensures ended { HasEnded (get_program tree name.now) (T.state tx.old) (T.state tx.new) result }
    ensures reads { HasRead (T.state tx.old) (T.state tx.new) }
    ensures leaves { TreeLeaves (T.state tx.new) 1 (T.device tx.old) (T.device tx.new) result }
{
    get(alloc, tx, region_of(tree), name)
}

/// Puts a value at a name.
///
/// # Errors
///
/// As those of `iso_tree::put`.
pub fn put_value<T: TxBlocks>(
    alloc: Global,
    tx: &mut T,
    tree: Area,
    name: &[u8],
    value: &[u8],
) -> Result<(), StoreError>
    requires { HasArea IsTreeArea (T.state tx.old) tree }
    ensures ended { HasEnded (put_program tree name.now value.now) (T.state tx.old) (T.state tx.new) result }
    ensures value { IsTrue (is_key name.now) → IfErr result (λ e. e ≢ StoreError.BadValue → IsTrue (is_value value.now)) }
    ensures unwritten { IfErr result (IsUnwritten (T.state tx.old) (T.state tx.new) 66) }
    ensures leaves { TreeLeaves (T.state tx.new) 66 (T.device tx.old) (T.device tx.new) result }
{
    put(alloc, tx, region_of(tree), name, value)
}

/// Removes a name.
///
/// # Errors
///
/// As those of `iso_tree::del`. Nothing was written.
pub fn remove_name<T: TxBlocks>(
    alloc: Global,
    tx: &mut T,
    tree: Area,
    name: &[u8],
) -> Result<bool, StoreError>
    requires { HasArea IsTreeArea (T.state tx.old) tree }
    ensures ended { HasEnded (del_program tree name.now) (T.state tx.old) (T.state tx.new) result }
    ensures known { IsTrue (is_key name.now) → IfErr result (λ e. (e ≢ StoreError.BadKey) × TakesNoBlocks e) }
    ensures unwritten { OnErr result (HasRead (T.state tx.old) (T.state tx.new)) }
    ensures leaves { TreeLeaves (T.state tx.new) 1 (T.device tx.old) (T.device tx.new) result }
{
    del(alloc, tx, region_of(tree), name)
}
