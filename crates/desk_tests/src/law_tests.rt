ghost use Rattle.std.specs.{Prelude.{◌≡◌, ◌+◌, ◌<◌, ◌≤◌, [], IfOk, Some}, FinMap.insert};
ghost use Rattle.iso_model.specs.Array.{Array};
ghost use Rattle.store_model.specs.{HashRegion.{IsHashArea, IsHashRegion}, TreeRegion.{scan_op, tree_map, IsTreeArea, IsTreeRegion}};
ghost use Rattle.store_laws.specs.Calls.{AreDisjoint};
ghost use Rattle.tx_blocks.specs.Runs.{area_of};

use crate::same::same;
use iso_hash::{get, put};
use iso_model::Bytes;
use iso_tree::scan;
use plain_tx::PlainTx;
use std::alloc::Global;
use std::test::Fail;
use store_model::{PairList, Region, StoreError};
use tx_blocks::TxBlocks;

// What a transaction puts, it gets, over any well-formed region.
fn put_and_get<T: TxBlocks>(
    alloc: Global,
    tx: &mut T,
    region: Region,
    key: &[u8],
    value: &[u8],
) -> Result<Option<Bytes>, StoreError>
    requires area { IsHashArea (area_of (T.state tx.old) region) }
    requires fits { region.start + region.size ≤ (T.state tx.old).blocks }
    ensures { IfOk result (λ r. (A : Array) → (T.state tx.old).base ≡ Some A → (T.state tx.old).accesses ≡ [] → IsHashRegion (area_of (T.state tx.old) region) A → r ≡ Some value.now) }
{
    match put(alloc, tx, region, key, value) {
        Ok(()) => get(alloc, tx, region, key),
        Err(e) => Err(e),
    }
}

#[test]
fn a_transaction_gets_what_it_puts(rt: HostRuntime) -> Result<(), Fail> {
    let bytes = vec![in rt.alloc(); 0u8; 1024]?;
    let mut tx = PlainTx::new(rt.alloc(), bytes, 256);
    let region = Region { start: 1, size: 3 };
    match put_and_get(rt.alloc(), &mut tx, region, b"key", b"value") {
        Ok(Some(found)) => same(&rt, found.as_slice(), b"value".as_slice()),
        _ => return Err(Fail::new("no value")),
    }
    Ok(())
}

// A scan after a put answers as one on the map with the pair, over any well-formed region.
fn put_and_scan<T: TxBlocks>(
    alloc: Global,
    tx: &mut T,
    region: Region,
    pair: (&[u8], &[u8]),
    from: &[u8],
    to: &[u8],
    max: u32,
) -> Result<PairList, StoreError>
    requires area { IsTreeArea (area_of (T.state tx.old) region) }
    requires fits { region.start + region.size ≤ (T.state tx.old).blocks }
    requires max { 0 < max }
    ensures { IfOk result (λ r. (A : Array) → (T.state tx.old).base ≡ Some A → (T.state tx.old).accesses ≡ [] → IsTreeRegion (area_of (T.state tx.old) region) A
        → r ≡ (scan_op from.now to.now max (insert (tree_map (area_of (T.state tx.old) region) A) pair.entry.0.now pair.entry.1.now)).0) }
{
    match iso_tree::put(alloc, tx, region, pair.0, pair.1) {
        Ok(()) => scan(alloc, tx, region, from, to, max),
        Err(e) => Err(e),
    }
}

#[test]
fn a_transaction_scans_what_it_puts(rt: HostRuntime) -> Result<(), Fail> {
    let bytes = vec![in rt.alloc(); 0u8; 1280]?;
    let mut tx = PlainTx::new(rt.alloc(), bytes, 256);
    let region = Region { start: 1, size: 4 };
    let pair = (b"key".as_slice(), b"value".as_slice());
    match put_and_scan(rt.alloc(), &mut tx, region, pair, b"a", b"z", 9) {
        Ok(found) => {
            same(&rt, found.len(), 1);
            match found.get(0) {
                Some((key, value)) => {
                    same(&rt, key.as_slice(), b"key".as_slice());
                    same(&rt, value.as_slice(), b"value".as_slice());
                }
                None => return Err(Fail::new("no pair")),
            }
        }
        Err(_) => return Err(Fail::new("a call was refused")),
    }
    Ok(())
}

// What a transaction puts under a key of a hash store and of a tree store, it gets from each, over any well-formed regions that have
// no block in common.
fn put_and_get_in_both<T: TxBlocks>(
    alloc: Global,
    tx: &mut T,
    hash: Region,
    tree: Region,
    key: &[u8],
    one: &[u8],
    two: &[u8],
) -> Result<(Option<Bytes>, Option<Bytes>), StoreError>
    requires hash_area { IsHashArea (area_of (T.state tx.old) hash) }
    requires hash_fits { hash.start + hash.size ≤ (T.state tx.old).blocks }
    requires tree_area { IsTreeArea (area_of (T.state tx.old) tree) }
    requires tree_fits { tree.start + tree.size ≤ (T.state tx.old).blocks }
    requires disjoint { AreDisjoint (area_of (T.state tx.old) hash) (area_of (T.state tx.old) tree) }
    ensures { IfOk result (λ r. (A : Array) → (T.state tx.old).base ≡ Some A → (T.state tx.old).accesses ≡ [] → IsHashRegion (area_of (T.state tx.old) hash) A
        → IsTreeRegion (area_of (T.state tx.old) tree) A → (r.0 ≡ Some one.now) × (r.1 ≡ Some two.now)) }
{
    if let Err(e) = put(alloc, tx, hash, key, one) {
        return Err(e);
    }
    if let Err(e) = iso_tree::put(alloc, tx, tree, key, two) {
        return Err(e);
    }
    let first = match get(alloc, tx, hash, key) {
        Ok(found) => found,
        Err(e) => return Err(e),
    };
    match iso_tree::get(alloc, tx, tree, key) {
        Ok(second) => Ok((first, second)),
        Err(e) => Err(e),
    }
}

// Whether a value was found, and is this one.
fn is_value(found: &Option<Bytes>, value: &[u8]) -> bool {
    match found {
        Some(bytes) => bytes.as_slice() == value,
        None => false,
    }
}

#[test]
fn both_stores_in_a_transaction_keep_their_own(rt: HostRuntime) -> Result<(), Fail> {
    let bytes = vec![in rt.alloc(); 0u8; 2048]?;
    let mut tx = PlainTx::new(rt.alloc(), bytes, 256);
    let hash = Region { start: 1, size: 3 };
    let tree = Region { start: 4, size: 4 };
    match put_and_get_in_both(rt.alloc(), &mut tx, hash, tree, b"key", b"one", b"two") {
        Ok(found) => {
            same(&rt, is_value(&found.0, b"one"), true);
            same(&rt, is_value(&found.1, b"two"), true);
        }
        Err(_) => return Err(Fail::new("a call was refused")),
    }
    Ok(())
}
