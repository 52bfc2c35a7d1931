// What an open image tells of itself.
ghost use Rattle.std.specs.Prelude.{◌≡◌, None, Ok, Some, false, option_map, pos};
ghost use Rattle.iso_model.specs.World.{World, attached};
ghost use Rattle.script_model.specs.{declared.script.Op.TheVariants.Stat, Step.numbers};
ghost use Rattle.queued_disk.specs.{declared.queued.QueuedDisk.QueuedDisk, Queued.state_of};
ghost use Rattle.device_desk.specs.{Device.{Device, StandsAt}, Oldest.oldest_of};
ghost use Rattle.isotope_c.specs.{Exports.{Says, Serves, device_in}, Told.{counts, image_of, mode_number, number_in, room_told}};

use crate::code::{CLOSED, DOWN, NO_TRANSACTION, code_of};
use crate::instance::Instance;
use crate::records::{NewImage, Numbers};
use crate::slot::{Slot, is_open, put, take_open};
use device_desk::Desk;
use iso_model::{Geometry, Mode};
use queued_disk::QueuedDisk;
use script_model::{Reply, Stop};

// The number of a transaction, 0 for none.
fn number_in(number: Option<u64>) -> u64
    ensures { result ≡ number_in number }
{
    match number {
        Some(number) => number,
        None => 0,
    }
}

// Tells the counts that a reply has, with those that it has not.
#[tactic(auto, unfolding(script_model::specs::Step::numbers))]
fn count_reply(reply: &Reply, geometry: &Geometry, oldest: Option<u64>, into: &mut Numbers)
    ensures { (W : World) → reply.now ≡ numbers W → geometry.now ≡ W.geometry → oldest ≡ option_map (λ t. t.number) (oldest_of W) → into.new ≡ counts W }
{
    let Reply::Numbers {
        last,
        base,
        trim,
        live,
        used,
        versions,
    } = reply
    else {
        return;
    };
    *into = Numbers {
        last: *last,
        base: *base,
        trim: *trim,
        versions: *versions,
        oldest: number_in(oldest),
        live: *live,
        used: *used,
        log: geometry.log,
        form: u32::from(geometry.form),
    };
}

// So of an answer, where it is a reply.
fn count(answer: &Result<Reply, Stop>, geometry: &Geometry, oldest: Option<u64>, into: &mut Numbers)
    ensures { (W : World) → answer.now ≡ Ok (numbers W) → geometry.now ≡ W.geometry → oldest ≡ option_map (λ t. t.number) (oldest_of W) → into.new ≡ counts W }
{
    match answer {
        Ok(reply) => count_reply(reply, geometry, oldest, into),
        Err(_) => {}
    }
}

/// The counts of the image.
#[unsafe(no_mangle)]
pub extern "C" fn isotope_c_stat(slot: &mut Slot, numbers: &mut Numbers) -> i32
    ensures serves { Serves slot.old slot.new result 0 Stat (Says result) }
    ensures counts { (d : Device QueuedDisk) (W : World) → device_in slot.old ≡ Some d → StandsAt state_of d W → result ≡ pos 0 → numbers.new ≡ counts W }
{
    if !is_open(slot) {
        return CLOSED;
    }
    let mut instance = take_open(slot);
    let Instance::Open(desk) = &mut *instance else {
        unreachable!()
    };
    let image = desk.geometry();
    let first = desk.oldest();
    let answer = desk.stat();
    put(slot, instance);
    count(&answer, &image, first, numbers);
    code_of(&answer)
}

fn mode_number(mode: Mode) -> u32
    ensures { result ≡ mode_number mode }
{
    match mode {
        Mode::Serial => 1,
        Mode::Snapshot => 2,
    }
}

// Tells the numbers of the image that a desk is on.
fn describe(desk: &Desk<QueuedDisk>, image: &mut NewImage) -> i32
    ensures down { desk.now.up ≡ false → result ≡ pos 22 }
    ensures told { (W : World) → StandsAt state_of desk.now W → (result ≡ pos 0) × (image.new ≡ image_of W.geometry) }
{
    if !desk.is_up() {
        return DOWN;
    }
    let geometry = desk.geometry();
    *image = NewImage {
        block_size: geometry.block,
        blocks: geometry.blocks,
        log: geometry.log,
        mode: mode_number(geometry.mode),
        hash: geometry.hash,
        tree: geometry.tree,
    };
    0
}

/// The numbers of the image.
#[unsafe(no_mangle)]
pub extern "C" fn isotope_c_about(slot: &mut Slot, image: &mut NewImage) -> i32
    ensures closed { device_in slot.old ≡ None → (result ≡ pos 24) × (slot.new ≡ slot.old) }
    ensures same { device_in slot.new ≡ device_in slot.old }
    ensures down { (d : Device QueuedDisk) → device_in slot.old ≡ Some d → d.up ≡ false → result ≡ pos 22 }
    ensures told { (d : Device QueuedDisk) (W : World) → device_in slot.old ≡ Some d → StandsAt state_of d W → (result ≡ pos 0) × (image.new ≡ image_of W.geometry) }
{
    if !is_open(slot) {
        return CLOSED;
    }
    let instance = take_open(slot);
    let Instance::Open(desk) = &*instance else {
        unreachable!()
    };
    let status = describe(desk, image);
    put(slot, instance);
    status
}

// Tells how many accesses a transaction may still make.
fn tell_room(desk: &Desk<QueuedDisk>, tx: u64, accesses: &mut u32) -> i32
    ensures down { desk.now.up ≡ false → result ≡ pos 22 }
    ensures told { (W : World) → StandsAt state_of desk.now W → (result, accesses.new) ≡ room_told accesses.old (attached W tx) }
{
    if !desk.is_up() {
        return DOWN;
    }
    match desk.room(tx) {
        Some(room) => {
            *accesses = room;
            0
        }
        None => NO_TRANSACTION,
    }
}

/// How many accesses a transaction may still make.
#[unsafe(no_mangle)]
pub extern "C" fn isotope_c_room(slot: &mut Slot, tx: u64, accesses: &mut u32) -> i32
    ensures closed { device_in slot.old ≡ None → (result ≡ pos 24) × (slot.new ≡ slot.old) }
    ensures same { device_in slot.new ≡ device_in slot.old }
    ensures down { (d : Device QueuedDisk) → device_in slot.old ≡ Some d → d.up ≡ false → result ≡ pos 22 }
    ensures told { (d : Device QueuedDisk) (W : World) → device_in slot.old ≡ Some d → StandsAt state_of d W → (result, accesses.new) ≡ room_told accesses.old (attached W tx) }
{
    if !is_open(slot) {
        return CLOSED;
    }
    let instance = take_open(slot);
    let Instance::Open(desk) = &*instance else {
        unreachable!()
    };
    let status = tell_room(desk, tx, accesses);
    put(slot, instance);
    status
}
