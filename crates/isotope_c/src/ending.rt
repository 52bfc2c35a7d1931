// Transactions that end.
ghost use Rattle.std.specs.Prelude.{◌≡◌, ◌≢◌, ◌<◌, ◌≤◌, IsSome, length, false, pos, true};
ghost use Rattle.iso_core.specs.declared.group_end.TheConstants.{MAX_GROUP};
ghost use Rattle.iso_model.specs.declared.limits.TheConstants.{MAX_LIVE};
ghost use Rattle.iso_machine.specs.Answering.{Never};
ghost use Rattle.script_model.specs.{declared.script.Op.TheVariants.{Abort, End}, Step.grouped};
ghost use Rattle.device_desk.specs.{Device.Device, Numbers.numbers_step};
ghost use Rattle.queued_disk.specs.declared.queued.QueuedDisk.{QueuedDisk};
ghost use Rattle.isotope_c.specs.{Exports.{EndsWaiting, Says, Serves, Steps, device_in}, Told.{code, ended_of, group_told, waited_told}};

use crate::code::{CLOSED, TOO_MANY, TOO_SMALL, code_of};
use crate::instance::Instance;
use crate::records::Ended;
use crate::slot::{Slot, is_open, put, take_open};
use crate::told::{ended_of, group_told, waited_told};
use iso_model::MAX_LIVE;

/// Ends a transaction: it commits where it has a write and no commit after its begin conflicts with it.
#[unsafe(no_mangle)]
pub extern "C" fn isotope_c_end(slot: &mut Slot, tx: u64, ended: &mut Ended) -> i32
    ensures { Serves slot.old slot.new result tx End (λ answer. (result ≡ code answer) × (ended.new ≡ ended_of answer)) }
{
    if !is_open(slot) {
        return CLOSED;
    }
    let mut instance = take_open(slot);
    let Instance::Open(desk) = &mut *instance else {
        unreachable!()
    };
    let answer = desk.end(tx);
    put(slot, instance);
    *ended = ended_of(&answer);
    code_of(&answer)
}

/// Takes a transaction out, with all that it did.
#[unsafe(no_mangle)]
pub extern "C" fn isotope_c_abort(slot: &mut Slot, tx: u64) -> i32
    ensures { Serves slot.old slot.new result tx Abort (Says result) }
{
    if !is_open(slot) {
        return CLOSED;
    }
    let mut instance = take_open(slot);
    let Instance::Open(desk) = &mut *instance else {
        unreachable!()
    };
    let answer = desk.abort(tx);
    put(slot, instance);
    code_of(&answer)
}

/// Ends these transactions one after the other, with one append for all their commits: a crash leaves none of them or all. There
/// is a place for the end of each.
#[unsafe(no_mangle)]
pub extern "C" fn isotope_c_end_group(slot: &mut Slot, numbers: &[u64], ended: &mut [Ended]) -> i32
    ensures closed { device_in slot.old ≡ None → (result ≡ pos 24) × (slot.new ≡ slot.old) }
    ensures places { IsSome (device_in slot.old) → length numbers.now ≢ length ended.old → (result ≡ pos 28) × (slot.new ≡ slot.old) }
    ensures many { (d : Device QueuedDisk) → device_in slot.old ≡ Some d → d.up ≡ true → length numbers.now ≡ length ended.old → MAX_GROUP < length numbers.now
        → (result ≡ pos 5) × (device_in slot.new ≡ Some d) }
    ensures down { (d : Device QueuedDisk) → device_in slot.old ≡ Some d → d.up ≡ false → length numbers.now ≡ length ended.old → (result ≡ pos 22) × (device_in slot.new ≡ Some d) }
    ensures ends { length numbers.now ≡ length ended.old → length numbers.now ≤ MAX_GROUP
        → Steps slot.old slot.new Never (λ W. grouped (numbers_step W numbers.now)) (λ W answer. (result, ended.new) ≡ group_told ended.old answer) }
{
    if !is_open(slot) {
        return CLOSED;
    }
    if numbers.len() != ended.len() {
        return TOO_SMALL;
    }
    let mut instance = take_open(slot);
    let Instance::Open(desk) = &mut *instance else {
        unreachable!()
    };
    let answer = desk.end_group(numbers);
    put(slot, instance);
    group_told(&answer, ended)
}

/// Ends these transactions one after the other, and answers each as `isotope_c_end` does. Up to 64 of them end with one append and
/// two syncs, where they are different live transactions and the log has room for all. There is a place for the end of each; where
/// one stops, those behind it have the status of the stop, which is the call's too: with 20 they are live as before.
#[unsafe(no_mangle)]
pub extern "C" fn isotope_c_end_waiting(
    slot: &mut Slot,
    numbers: &[u64],
    ended: &mut [Ended],
) -> i32
    ensures closed { device_in slot.old ≡ None → (result ≡ pos 24) × (slot.new ≡ slot.old) }
    ensures places { IsSome (device_in slot.old) → length numbers.now ≢ length ended.old → (result ≡ pos 28) × (slot.new ≡ slot.old) }
    ensures many { IsSome (device_in slot.old) → length numbers.now ≡ length ended.old → MAX_LIVE < length numbers.now → (result ≡ pos 5) × (slot.new ≡ slot.old) }
    ensures ends { length numbers.now ≡ length ended.old → length numbers.now ≤ MAX_LIVE
        → EndsWaiting slot.old slot.new numbers.now (λ replies stop. (result, ended.new) ≡ waited_told ended.old replies stop) }
{
    if !is_open(slot) {
        return CLOSED;
    }
    if numbers.len() != ended.len() {
        return TOO_SMALL;
    }
    if numbers.len() > MAX_LIVE {
        return TOO_MANY;
    }
    let mut instance = take_open(slot);
    let Instance::Open(desk) = &mut *instance else {
        unreachable!()
    };
    let waited = desk.end_waiting(numbers);
    put(slot, instance);
    waited_told(&waited, ended)
}
