// Calls on files.
ghost use Rattle.std.specs.Prelude.{◌≡◌};
ghost use Rattle.script_model.specs.declared.script.Op.TheVariants.{FileDelete, FileMove, FileNew, FileRead, FileWrite};
ghost use Rattle.isotope_c.specs.Exports.{Says, Serves, TellsSize};
ghost use Rattle.isotope_c.specs.Told.{found, size_told};

use crate::code::{CLOSED, code_of};
use crate::instance::Instance;
use crate::slot::{Slot, is_open, put, take_open};
use crate::told::{hand_over, tell_size};

/// Makes an empty file of this name.
#[unsafe(no_mangle)]
pub extern "C" fn isotope_c_file_new(slot: &mut Slot, tx: u64, name: &[u8]) -> i32
    ensures { Serves slot.old slot.new result tx (FileNew name.now) (Says result) }
{
    if !is_open(slot) {
        return CLOSED;
    }
    let mut instance = take_open(slot);
    let Instance::Open(desk) = &mut *instance else {
        unreachable!()
    };
    let answer = desk.file_new(tx, name);
    put(slot, instance);
    code_of(&answer)
}

/// Writes these bytes at `off` of a file, which grows where they pass its end.
#[unsafe(no_mangle)]
pub extern "C" fn isotope_c_file_write(
    slot: &mut Slot,
    tx: u64,
    name: &[u8],
    off: u32,
    bytes: &[u8],
) -> i32
    ensures { Serves slot.old slot.new result tx (FileWrite name.now off bytes.now) (Says result) }
{
    if !is_open(slot) {
        return CLOSED;
    }
    let mut instance = take_open(slot);
    let Instance::Open(desk) = &mut *instance else {
        unreachable!()
    };
    let answer = desk.file_write(tx, name, off, bytes);
    put(slot, instance);
    code_of(&answer)
}

/// The bytes of a file from `off` on, at most `most`. They go to the front of the slice where they fit, and how many they are is told in any case.
#[unsafe(no_mangle)]
pub extern "C" fn isotope_c_file_read(
    slot: &mut Slot,
    tx: u64,
    name: &[u8],
    off: u32,
    most: u32,
    into: &mut [u8],
    len: &mut u64,
) -> i32
    ensures { Serves slot.old slot.new result tx (FileRead name.now off most) (λ answer. (result, (into.new, len.new)) ≡ found into.old len.old answer) }
{
    if !is_open(slot) {
        return CLOSED;
    }
    let mut instance = take_open(slot);
    let Instance::Open(desk) = &mut *instance else {
        unreachable!()
    };
    let answer = desk.file_read(tx, name, off, most);
    put(slot, instance);
    hand_over(&answer, into, len)
}

/// How many bytes a file has.
#[unsafe(no_mangle)]
pub extern "C" fn isotope_c_file_size(slot: &mut Slot, tx: u64, name: &[u8], size: &mut u64) -> i32
    ensures { TellsSize slot.old slot.new result tx name.now (λ answer. (result, size.new) ≡ size_told size.old answer) }
{
    if !is_open(slot) {
        return CLOSED;
    }
    let mut instance = take_open(slot);
    let Instance::Open(desk) = &mut *instance else {
        unreachable!()
    };
    let answer = desk.file_size(tx, name);
    put(slot, instance);
    tell_size(&answer, size)
}

/// Gives the file of one name another.
#[unsafe(no_mangle)]
pub extern "C" fn isotope_c_file_move(slot: &mut Slot, tx: u64, from: &[u8], to: &[u8]) -> i32
    ensures { Serves slot.old slot.new result tx (FileMove from.now to.now) (Says result) }
{
    if !is_open(slot) {
        return CLOSED;
    }
    let mut instance = take_open(slot);
    let Instance::Open(desk) = &mut *instance else {
        unreachable!()
    };
    let answer = desk.file_move(tx, from, to);
    put(slot, instance);
    code_of(&answer)
}

/// Removes a file.
#[unsafe(no_mangle)]
pub extern "C" fn isotope_c_file_delete(slot: &mut Slot, tx: u64, name: &[u8]) -> i32
    ensures { Serves slot.old slot.new result tx (FileDelete name.now) (Says result) }
{
    if !is_open(slot) {
        return CLOSED;
    }
    let mut instance = take_open(slot);
    let Instance::Open(desk) = &mut *instance else {
        unreachable!()
    };
    let answer = desk.file_delete(tx, name);
    put(slot, instance);
    code_of(&answer)
}
