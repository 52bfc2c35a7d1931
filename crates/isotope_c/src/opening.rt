// Devices that are made, opened and closed. An image is laid into memory piece by piece, so that it is there once.
ghost use Rattle.std.specs.Prelude.{◌≡◌, ◌≢◌, ◌+◌, ◌<◌, ◌≤◌, ℕ, List, None, Some, IsSome, length, pos, replicate};
ghost use Rattle.iso_disk.specs.Disk.{spliced};
ghost use Rattle.iso_model.specs.{declared.access.Geometry.Geometry, Geometry.image_size, History.History, Image.Shows};
ghost use Rattle.isotope_c.specs.{Exports.{HasMade, HasOpened, HasRefused, HasReopened, IsEmpty, bytes_in}, Told.{geometry_named, geometry_status}};

use crate::code::{BAD_RANGE, CLOSED, IN_USE, MEMORY, code_of_open};
use crate::images::{refusal_of, valid_geometry};
use crate::instance::{Instance, bytes_of, made, opened, zeros};
use crate::records::{NewImage, Refusal};
use crate::slot::{Slot, alloc_of, is_empty, is_laid, put, take, take_laid};
use iso_image::image_size;
use iso_memdisk::lay;

/// How many bytes such an image has.
#[unsafe(no_mangle)]
pub extern "C" fn isotope_c_size(numbers: &NewImage, size: &mut u64) -> i32
    ensures status { result ≡ geometry_status (geometry_named numbers.now) }
    ensures size { (g : Geometry) → geometry_named numbers.now ≡ Some g → result ≡ pos 0 → size.new ≡ image_size g }
{
    match valid_geometry(numbers) {
        Ok(geometry) => {
            *size = image_size(&geometry);
            0
        }
        Err(status) => status,
    }
}

/// A device on a new image, over a file of so many zeros. What makes it an image is on the tape then.
#[unsafe(no_mangle)]
pub extern "C" fn isotope_c_create(slot: &mut Slot, numbers: &NewImage) -> i32
    ensures in_use { IsSome slot.old.inner.instance → (result ≡ pos 25) × (slot.new ≡ slot.old) }
    ensures refused { IsEmpty slot.old → geometry_status (geometry_named numbers.now) ≢ pos 0 → (result ≡ geometry_status (geometry_named numbers.now)) × (slot.new ≡ slot.old) }
    ensures made { (g : Geometry) → IsEmpty slot.old → geometry_named numbers.now ≡ Some g → result ≡ pos 0 → HasMade slot.new.inner.instance g }
    ensures memory { IsEmpty slot.old → geometry_status (geometry_named numbers.now) ≡ pos 0 → result ≢ pos 0 → (result ≡ pos 20) × IsEmpty slot.new }
{
    if !is_empty(slot) {
        return IN_USE;
    }
    let geometry = match valid_geometry(numbers) {
        Ok(geometry) => geometry,
        Err(status) => return status,
    };
    let Some(instance) = made(alloc_of(slot), &geometry) else {
        return MEMORY;
    };
    put(slot, instance);
    0
}

/// An empty slot gets room for an image of so many bytes, which are zeros.
#[unsafe(no_mangle)]
pub extern "C" fn isotope_c_load(slot: &mut Slot, size: u64) -> i32
    ensures in_use { IsSome slot.old.inner.instance → (result ≡ pos 25) × (slot.new ≡ slot.old) }
    ensures laid { IsEmpty slot.old → result ≡ pos 0 → bytes_in slot.new ≡ Some (replicate size 0) }
    ensures memory { IsEmpty slot.old → result ≢ pos 0 → (result ≡ pos 20) × (slot.new ≡ slot.old) }
{
    if !is_empty(slot) {
        return IN_USE;
    }
    let Ok(bytes) = zeros(alloc_of(slot), size) else {
        return MEMORY;
    };
    let Ok(instance) = Box::new(alloc_of(slot), Instance::Laid(bytes)) else {
        return MEMORY;
    };
    put(slot, instance);
    0
}

// Puts bytes into an image from `at` on, where they lie in it.
fn lay_at(image: &mut Vec<u8>, at: u64, bytes: &[u8]) -> i32
    ensures range { length image.old.items < at + length bytes.now → (result ≡ pos 8) × (image.new.items ≡ image.old.items) }
    ensures laid { at + length bytes.now ≤ length image.old.items → (result ≡ pos 0) × (image.new.items ≡ spliced image.old.items at bytes.now) }
{
    let (size, more) = (image.len() as u64, bytes.len() as u64);
    if at > size || size - at < more {
        return BAD_RANGE;
    }
    lay(image, at as usize, bytes);
    0
}

/// Puts these bytes of a file into the image that is being laid, from `at` on.
#[unsafe(no_mangle)]
pub extern "C" fn isotope_c_lay(slot: &mut Slot, at: u64, bytes: &[u8]) -> i32
    ensures closed { bytes_in slot.old ≡ None → (result ≡ pos 24) × (slot.new ≡ slot.old) }
    ensures range { (b : List ℕ) → bytes_in slot.old ≡ Some b → length b < at + length bytes.now → (result ≡ pos 8) × (bytes_in slot.new ≡ Some b) }
    ensures laid { (b : List ℕ) → bytes_in slot.old ≡ Some b → at + length bytes.now ≤ length b → (result ≡ pos 0) × (bytes_in slot.new ≡ Some (spliced b at bytes.now)) }
{
    if !is_laid(slot) {
        return CLOSED;
    }
    let mut instance = take_laid(slot);
    let Instance::Laid(image) = &mut *instance else {
        unreachable!()
    };
    let status = lay_at(image, at, bytes);
    put(slot, instance);
    status
}

/// Opens the image that was laid. After an error the slot is empty, and it is told why.
#[unsafe(no_mangle)]
pub extern "C" fn isotope_c_open(slot: &mut Slot, why: &mut Refusal) -> i32
    ensures closed { bytes_in slot.old ≡ None → (result ≡ pos 24) × (slot.new ≡ slot.old) }
    ensures opened { (b : List ℕ) → bytes_in slot.old ≡ Some b → result ≡ pos 0 → HasOpened slot.new.inner.instance b }
    ensures refused { (b : List ℕ) → bytes_in slot.old ≡ Some b → result ≢ pos 0 → IsEmpty slot.new × HasRefused b result why.new }

    // What shows a history opens to it, or memory is wanting.
    ensures shown { (b : List ℕ) (g : Geometry) (H : History) (p : ℕ) → bytes_in slot.old ≡ Some b → Shows b g H p → result ≡ pos 0 → HasReopened slot.new.inner.instance g H p }
    ensures opens { (b : List ℕ) (g : Geometry) (H : History) (p : ℕ) → bytes_in slot.old ≡ Some b → Shows b g H p → (result ≢ pos 26) × (result ≢ pos 35) }
{
    if !is_laid(slot) {
        return CLOSED;
    }
    let mut instance = take_laid(slot);
    let alloc = alloc_of(slot);
    let bytes = bytes_of(alloc, &mut instance);
    match opened(alloc, bytes) {
        Ok(open) => {
            *instance = open;
            put(slot, instance);
            0
        }
        Err(error) => {
            *why = refusal_of(error);
            code_of_open(error)
        }
    }
}

/// What is in the slot is gone: a device with its transactions, or an image that was being laid.
#[unsafe(no_mangle)]
pub extern "C" fn isotope_c_close(slot: &mut Slot) -> i32
    ensures closed { IsEmpty slot.old → (result ≡ pos 24) × (slot.new ≡ slot.old) }
    ensures gone { IsSome slot.old.inner.instance → (result ≡ pos 0) × IsEmpty slot.new }
{
    if is_empty(slot) {
        return CLOSED;
    }
    drop(take(slot));
    0
}
