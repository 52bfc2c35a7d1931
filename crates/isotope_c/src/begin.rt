// Transactions that begin.
ghost use Rattle.std.specs.Prelude.{◌≡◌, Option, None, Some, IsSome, pos};
ghost use Rattle.iso_model.specs.declared.access.Mode.{Mode};
ghost use Rattle.iso_machine.specs.Answering.{Always};
ghost use Rattle.script_model.specs.{declared.script.Op.TheVariants.Begin, Step.step};
ghost use Rattle.isotope_c.specs.{Exports.{Steps, device_in}, Told.{begun, mode_named}};

use crate::code::{BAD_MODE, CLOSED};
use crate::instance::Instance;
use crate::slot::{Slot, is_open, put, take_open};
use crate::told::begun;
use iso_model::Mode;

/// The mode that a number stands for: 0 is the image's.
pub(crate) fn mode_named(number: u32) -> Option<Option<Mode>>
    ensures { result ≡ mode_named number }
{
    match number {
        0 => Some(None),
        1 => Some(Some(Mode::Serial)),
        2 => Some(Some(Mode::Snapshot)),
        _ => None,
    }
}

/// A transaction begins, in this mode: 1 serial, 2 snapshot, 0 the image's. Its number is told, and the commit that it is shown.
#[unsafe(no_mangle)]
pub extern "C" fn isotope_c_begin(slot: &mut Slot, mode: u32, tx: &mut u64, at: &mut u64) -> i32
    ensures closed { device_in slot.old ≡ None → (result ≡ pos 24) × (slot.new ≡ slot.old) }
    ensures bad_mode { IsSome (device_in slot.old) → mode_named mode ≡ None → (result ≡ pos 29) × (slot.new ≡ slot.old) }
    ensures begins { (m : Option Mode) → mode_named mode ≡ Some m → Steps slot.old slot.new Always (λ W. step W W.next (Begin m)) (λ W answer. (result, (tx.new, at.new)) ≡ begun W.next tx.old at.old answer) }
{
    if !is_open(slot) {
        return CLOSED;
    }
    let Some(mode) = mode_named(mode) else {
        return BAD_MODE;
    };
    let mut instance = take_open(slot);
    let Instance::Open(desk) = &mut *instance else {
        unreachable!()
    };
    let mut number = 0;
    let answer = desk.begin(mode, &mut number);
    put(slot, instance);
    begun(&answer, number, tx, at)
}
