// Upkeep of a whole image.
ghost use Rattle.script_model.specs.declared.script.Op.TheVariants.{Compact, Trim, Upgrade};
ghost use Rattle.isotope_c.specs.Exports.{Says, Serves};

use crate::code::{CLOSED, code_of};
use crate::instance::Instance;
use crate::slot::{Slot, is_open, put, take_open};

/// Moves the base to the floor, in the other half of the image, which makes room in the log.
#[unsafe(no_mangle)]
pub extern "C" fn isotope_c_compact(slot: &mut Slot) -> i32
    ensures { Serves slot.old slot.new result 0 Compact (Says result) }
{
    if !is_open(slot) {
        return CLOSED;
    }
    let mut instance = take_open(slot);
    let Instance::Open(desk) = &mut *instance else {
        unreachable!()
    };
    let answer = desk.compact();
    put(slot, instance);
    code_of(&answer)
}

/// Does so, and the image gets form 2, in which transactions of either mode may begin.
#[unsafe(no_mangle)]
pub extern "C" fn isotope_c_upgrade(slot: &mut Slot) -> i32
    ensures { Serves slot.old slot.new result 0 Upgrade (Says result) }
{
    if !is_open(slot) {
        return CLOSED;
    }
    let mut instance = take_open(slot);
    let Instance::Open(desk) = &mut *instance else {
        unreachable!()
    };
    let answer = desk.upgrade();
    put(slot, instance);
    code_of(&answer)
}

/// Lets the versions go that no transaction can be shown any more.
#[unsafe(no_mangle)]
pub extern "C" fn isotope_c_trim(slot: &mut Slot) -> i32
    ensures { Serves slot.old slot.new result 0 Trim (Says result) }
{
    if !is_open(slot) {
        return CLOSED;
    }
    let mut instance = take_open(slot);
    let Instance::Open(desk) = &mut *instance else {
        unreachable!()
    };
    let answer = desk.trim();
    put(slot, instance);
    code_of(&answer)
}
