// Calls of the hash store and of the tree store.
ghost use Rattle.std.specs.Prelude.{◌≡◌};
ghost use Rattle.script_model.specs.declared.script.Op.TheVariants.{HashDelete, HashGet, HashPut, TreeDelete, TreeGet, TreePut, TreeScan};
ghost use Rattle.isotope_c.specs.Exports.{Says, Serves};
ghost use Rattle.isotope_c.specs.Told.{IsScanned, found};

use crate::code::{CLOSED, code_of};
use crate::instance::Instance;
use crate::slot::{Slot, alloc_of, is_open, put, take_open};
use crate::told::{hand_over, hand_over_pairs};

/// Puts a value at a key of the hash store.
#[unsafe(no_mangle)]
pub extern "C" fn isotope_c_hash_put(slot: &mut Slot, tx: u64, key: &[u8], value: &[u8]) -> i32
    ensures { Serves slot.old slot.new result tx (HashPut key.now value.now) (Says result) }
{
    if !is_open(slot) {
        return CLOSED;
    }
    let mut instance = take_open(slot);
    let Instance::Open(desk) = &mut *instance else {
        unreachable!()
    };
    let answer = desk.hash_put(tx, key, value);
    put(slot, instance);
    code_of(&answer)
}

/// The value of a key of the hash store. It goes to the front of the slice where it fits, and its length is told in any case.
#[unsafe(no_mangle)]
pub extern "C" fn isotope_c_hash_get(
    slot: &mut Slot,
    tx: u64,
    key: &[u8],
    into: &mut [u8],
    len: &mut u64,
) -> i32
    ensures { Serves slot.old slot.new result tx (HashGet key.now) (λ answer. (result, (into.new, len.new)) ≡ found into.old len.old answer) }
{
    if !is_open(slot) {
        return CLOSED;
    }
    let mut instance = take_open(slot);
    let Instance::Open(desk) = &mut *instance else {
        unreachable!()
    };
    let answer = desk.hash_get(tx, key);
    put(slot, instance);
    hand_over(&answer, into, len)
}

/// Removes a key of the hash store.
#[unsafe(no_mangle)]
pub extern "C" fn isotope_c_hash_delete(slot: &mut Slot, tx: u64, key: &[u8]) -> i32
    ensures { Serves slot.old slot.new result tx (HashDelete key.now) (Says result) }
{
    if !is_open(slot) {
        return CLOSED;
    }
    let mut instance = take_open(slot);
    let Instance::Open(desk) = &mut *instance else {
        unreachable!()
    };
    let answer = desk.hash_delete(tx, key);
    put(slot, instance);
    code_of(&answer)
}

/// Puts a value at a key of the tree store.
#[unsafe(no_mangle)]
pub extern "C" fn isotope_c_tree_put(slot: &mut Slot, tx: u64, key: &[u8], value: &[u8]) -> i32
    ensures { Serves slot.old slot.new result tx (TreePut key.now value.now) (Says result) }
{
    if !is_open(slot) {
        return CLOSED;
    }
    let mut instance = take_open(slot);
    let Instance::Open(desk) = &mut *instance else {
        unreachable!()
    };
    let answer = desk.tree_put(tx, key, value);
    put(slot, instance);
    code_of(&answer)
}

/// The value of a key of the tree store. It goes to the front of the slice where it fits, and its length is told in any case.
#[unsafe(no_mangle)]
pub extern "C" fn isotope_c_tree_get(
    slot: &mut Slot,
    tx: u64,
    key: &[u8],
    into: &mut [u8],
    len: &mut u64,
) -> i32
    ensures { Serves slot.old slot.new result tx (TreeGet key.now) (λ answer. (result, (into.new, len.new)) ≡ found into.old len.old answer) }
{
    if !is_open(slot) {
        return CLOSED;
    }
    let mut instance = take_open(slot);
    let Instance::Open(desk) = &mut *instance else {
        unreachable!()
    };
    let answer = desk.tree_get(tx, key);
    put(slot, instance);
    hand_over(&answer, into, len)
}

/// Removes a key of the tree store.
#[unsafe(no_mangle)]
pub extern "C" fn isotope_c_tree_delete(slot: &mut Slot, tx: u64, key: &[u8]) -> i32
    ensures { Serves slot.old slot.new result tx (TreeDelete key.now) (Says result) }
{
    if !is_open(slot) {
        return CLOSED;
    }
    let mut instance = take_open(slot);
    let Instance::Open(desk) = &mut *instance else {
        unreachable!()
    };
    let answer = desk.tree_delete(tx, key);
    put(slot, instance);
    code_of(&answer)
}

/// The first pairs of the tree store from one key on and before another, at most so many: of each a byte with the key's
/// length, the key, a byte with the value's length, and the value. They go to the front of the slice where they fit, and how
/// many bytes they are is told in any case.
#[unsafe(no_mangle)]
pub extern "C" fn isotope_c_tree_scan(
    slot: &mut Slot,
    tx: u64,
    from: &[u8],
    to: &[u8],
    most: u32,
    into: &mut [u8],
    len: &mut u64,
) -> i32
    ensures { Serves slot.old slot.new result tx (TreeScan from.now to.now most) (λ answer. IsScanned into.old len.old answer (result, (into.new, len.new))) }
{
    if !is_open(slot) {
        return CLOSED;
    }
    let mut instance = take_open(slot);
    let Instance::Open(desk) = &mut *instance else {
        unreachable!()
    };
    let answer = desk.tree_scan(tx, from, to, most);
    put(slot, instance);
    hand_over_pairs(alloc_of(slot), &answer, into, len)
}
