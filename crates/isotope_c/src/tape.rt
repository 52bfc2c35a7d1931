// What C does to the file: the writes and syncs on the tape, in order.
ghost use Rattle.std.specs.Prelude.{◌≡◌, None, Some, drop, pos};
ghost use Rattle.device_desk.specs.Device.{Device, disk_under};
ghost use Rattle.queued_disk.specs.{declared.queued.QueuedDisk.QueuedDisk, Queued.tape_of};
ghost use Rattle.isotope_c.specs.{Exports.{HasFailed, HasHandedOn, device_in}, Told.{call_so, calls_told}};

use crate::code::CLOSED;
use crate::instance::Instance;
use crate::records::TapeCall;
use crate::slot::{Slot, is_open, put, take_open};
use device_desk::{fail, hand_on, tape};
use queued_disk::Call;

const WRITE: u64 = 0;

const SYNC: u64 = 1;

const NO_CALL: u64 = 2;

const NO_ROOM: u64 = 28;

fn call_so(what: u64, at: u64, len: u64) -> TapeCall
    ensures { result ≡ call_so what at len }
{
    TapeCall { what, at, len }
}

// Puts the calls into the places, in order, and the bytes of the writes into the slice, one after the other.
fn show_calls(calls: &[Call], places: &mut [TapeCall], into: &mut [u8])
    ensures { (places.new, into.new) ≡ calls_told calls.now places.old into.old }
{
    let Some((place, rest)) = places.split_first_mut() else {
        return;
    };
    let Some((call, others)) = calls.split_first() else {
        *place = call_so(NO_CALL, 0, 0);
        return;
    };
    match call {
        Call::Sync => {
            *place = call_so(SYNC, 0, 0);
            show_calls(others, rest, into)
        }
        Call::Write { at, bytes } => {
            let n = bytes.len();
            if n > into.len() {
                *place = call_so(NO_ROOM, *at as u64, n as u64);
                return;
            }
            *place = call_so(WRITE, *at as u64, n as u64);
            let (front, behind) = into.split_at_mut(n);
            front.copy_from_slice(bytes);
            show_calls(others, rest, behind)
        }
    }
}

// The calls from this one on.
#[tactic(auto, using(std::proofs::lemmas::List::drop_all))]
fn calls_from(calls: &[Call], index: usize) -> &[Call]
    ensures { result.now ≡ drop index calls.now }
{
    if index >= calls.len() {
        return &[];
    }
    calls.split_at(index).1
}

/// Shows the calls of the tape from this one on, in order and none left out, as far as there are places: writes, their bytes one after
/// the other in the slice, and syncs. Behind the last call of the tape stands its end. Where the slice has no room for the bytes of
/// a write no more is shown but how many they are.
#[unsafe(no_mangle)]
pub extern "C" fn isotope_c_calls(
    slot: &mut Slot,
    index: u64,
    places: &mut [TapeCall],
    into: &mut [u8],
) -> i32
    ensures closed { device_in slot.old ≡ None → (result ≡ pos 24) × (slot.new ≡ slot.old) }
    ensures same { (d : Device QueuedDisk) → device_in slot.old ≡ Some d → device_in slot.new ≡ Some d }
    ensures shown { (d : Device QueuedDisk) → device_in slot.old ≡ Some d
        → (result ≡ pos 0) × ((places.new, into.new) ≡ calls_told (drop index (tape_of (disk_under d))) places.old into.old) }
{
    if !is_open(slot) {
        return CLOSED;
    }
    let instance = take_open(slot);
    let Instance::Open(desk) = &*instance else {
        unreachable!()
    };
    show_calls(calls_from(tape(desk), index as usize), places, into);
    put(slot, instance);
    0
}

/// All that is on the tape was done: nothing is on it any more.
#[unsafe(no_mangle)]
pub extern "C" fn isotope_c_handed_on(slot: &mut Slot) -> i32
    ensures closed { device_in slot.old ≡ None → (result ≡ pos 24) × (slot.new ≡ slot.old) }
    ensures done { (d : Device QueuedDisk) → device_in slot.old ≡ Some d → (result ≡ pos 0) × HasHandedOn d slot.new }
{
    if !is_open(slot) {
        return CLOSED;
    }
    let mut instance = take_open(slot);
    let Instance::Open(desk) = &mut *instance else {
        unreachable!()
    };
    hand_on(desk);
    put(slot, instance);
    0
}

/// A call of the tape could not be done: the device is down, each further call is answered so (22), and nothing is on the tape any
/// more.
#[unsafe(no_mangle)]
pub extern "C" fn isotope_c_fail(slot: &mut Slot) -> i32
    ensures closed { device_in slot.old ≡ None → (result ≡ pos 24) × (slot.new ≡ slot.old) }
    ensures done { (d : Device QueuedDisk) → device_in slot.old ≡ Some d → (result ≡ pos 0) × HasFailed d slot.new }
{
    if !is_open(slot) {
        return CLOSED;
    }
    let mut instance = take_open(slot);
    let Instance::Open(desk) = &mut *instance else {
        unreachable!()
    };
    fail(desk);
    put(slot, instance);
    0
}
