// What transactions read and write.
ghost use Rattle.std.specs.Prelude.{◌≡◌, None, IsSome, pos};
ghost use Rattle.script_model.specs.declared.script.Op.TheVariants.{Fill, Get, Mark, Put, Read, Write};
ghost use Rattle.iso_machine.specs.Answering.{Always};
ghost use Rattle.device_desk.specs.Peeked.{peeked};
ghost use Rattle.isotope_c.specs.Exports.{Says, Serves, Steps, device_in};
ghost use Rattle.isotope_c.specs.Told.{length_asked, shown};

use crate::code::{CLOSED, code_of};
use crate::instance::Instance;
use crate::slot::{Slot, is_open, put, take_open};
use crate::told::show;

/// Reads a whole block into a slice of its length, as the transaction is shown it.
#[unsafe(no_mangle)]
pub extern "C" fn isotope_c_read(slot: &mut Slot, tx: u64, block: u32, into: &mut [u8]) -> i32
    ensures { Serves slot.old slot.new result tx (Read block) (λ answer. (result, into.new) ≡ shown into.old answer) }
{
    if !is_open(slot) {
        return CLOSED;
    }
    let mut instance = take_open(slot);
    let Instance::Open(desk) = &mut *instance else {
        unreachable!()
    };
    let answer = desk.read(tx, block);
    put(slot, instance);
    show(&answer, into)
}

// How many bytes are asked for to fill a slice.
fn length_asked(into: &[u8]) -> u32
    ensures { result ≡ length_asked into.now }
{
    into.len().min(u32::MAX as usize) as u32
}

// Reads so for a slice that is longer than any block.
#[cold]
fn get_long(slot: &mut Slot, tx: u64, block: u32, off: u32, into: &mut [u8]) -> i32
    requires { IsSome (device_in slot.old) }
    ensures { Serves slot.old slot.new result tx (Get block off (length_asked into.old)) (λ answer. (result, into.new) ≡ shown into.old answer) }
{
    let len = length_asked(into);
    let mut instance = take_open(slot);
    let Instance::Open(desk) = &mut *instance else {
        unreachable!()
    };
    let answer = desk.get(tx, block, off, len);
    put(slot, instance);
    show(&answer, into)
}

/// Reads as many bytes of a block as the slice has, from `off` on.
#[unsafe(no_mangle)]
pub extern "C" fn isotope_c_get(
    slot: &mut Slot,
    tx: u64,
    block: u32,
    off: u32,
    into: &mut [u8],
) -> i32
    ensures { Serves slot.old slot.new result tx (Get block off (length_asked into.old)) (λ answer. (result, into.new) ≡ shown into.old answer) }
{
    if !is_open(slot) {
        return CLOSED;
    }
    if into.len() > u32::MAX as usize {
        return get_long(slot, tx, block, off, into);
    }
    let mut instance = take_open(slot);
    let Instance::Open(desk) = &mut *instance else {
        unreachable!()
    };
    let answer = desk.get_into(tx, block, off, into);
    put(slot, instance);
    code_of(&answer)
}

/// Reads as many bytes of a block as the slice has, from `off` on, as the transaction is shown them. It is no access: no conflict
/// comes of it, and it has no limit.
#[unsafe(no_mangle)]
pub extern "C" fn isotope_c_peek(
    slot: &mut Slot,
    tx: u64,
    block: u32,
    off: u32,
    into: &mut [u8],
) -> i32
    ensures closed { device_in slot.old ≡ None → (result ≡ pos 24) × (slot.new ≡ slot.old) }
    ensures peeks { Steps slot.old slot.new Always (λ W. peeked W tx block off (length_asked into.old)) (λ W answer. (result, into.new) ≡ shown into.old answer) }
{
    if !is_open(slot) {
        return CLOSED;
    }
    let mut instance = take_open(slot);
    let Instance::Open(desk) = &mut *instance else {
        unreachable!()
    };
    let len = length_asked(into);
    let answer = desk.peek(tx, block, off, len);
    put(slot, instance);
    show(&answer, into)
}

/// Writes a whole block.
#[unsafe(no_mangle)]
pub extern "C" fn isotope_c_write(slot: &mut Slot, tx: u64, block: u32, bytes: &[u8]) -> i32
    ensures { Serves slot.old slot.new result tx (Write block bytes.now) (Says result) }
{
    if !is_open(slot) {
        return CLOSED;
    }
    let mut instance = take_open(slot);
    let Instance::Open(desk) = &mut *instance else {
        unreachable!()
    };
    let answer = desk.write(tx, block, bytes);
    put(slot, instance);
    code_of(&answer)
}

/// Writes these bytes at `off` of a block.
#[unsafe(no_mangle)]
pub extern "C" fn isotope_c_put(slot: &mut Slot, tx: u64, block: u32, off: u32, bytes: &[u8]) -> i32
    ensures { Serves slot.old slot.new result tx (Put block off bytes.now) (Says result) }
{
    if !is_open(slot) {
        return CLOSED;
    }
    let mut instance = take_open(slot);
    let Instance::Open(desk) = &mut *instance else {
        unreachable!()
    };
    let answer = desk.put(tx, block, off, bytes);
    put(slot, instance);
    code_of(&answer)
}

/// Writes a block full of one byte: the slice has that byte alone.
#[unsafe(no_mangle)]
pub extern "C" fn isotope_c_fill(slot: &mut Slot, tx: u64, block: u32, byte: &[u8]) -> i32
    ensures { Serves slot.old slot.new result tx (Fill block byte.now) (Says result) }
{
    if !is_open(slot) {
        return CLOSED;
    }
    let mut instance = take_open(slot);
    let Instance::Open(desk) = &mut *instance else {
        unreachable!()
    };
    let answer = desk.fill(tx, block, byte);
    put(slot, instance);
    code_of(&answer)
}

/// Adds a mark to the last access: the first mark stands for the whole block, and further ones add to it.
#[unsafe(no_mangle)]
pub extern "C" fn isotope_c_mark(slot: &mut Slot, tx: u64, off: u32, len: u32) -> i32
    ensures { Serves slot.old slot.new result tx (Mark off len) (Says result) }
{
    if !is_open(slot) {
        return CLOSED;
    }
    let mut instance = take_open(slot);
    let Instance::Open(desk) = &mut *instance else {
        unreachable!()
    };
    let answer = desk.mark(tx, off, len);
    put(slot, instance);
    code_of(&answer)
}
