// Desks over new images, and what is done by their tapes.
ghost use Rattle.std.specs.Prelude.{◌≡◌, ℕ, List, IfOk, IsTrue, replicate};
ghost use Rattle.iso_model.specs.Geometry.{image_size, is_valid};
ghost use Rattle.queued_disk.specs.Queued.{state_of};

use device_desk::{Desk, create, hand_on, open, tape};
use iso_image::image_size;
use iso_model::{Geometry, Memory, Mode};
use queued_disk::{Call, QueuedDisk};
use std::alloc::Global;
use test_cores::{change, small, zeros};

// A disk of zeros, as long as such an image.
fn blank(alloc: Global, geometry: &Geometry) -> Result<QueuedDisk, Memory>
    requires { IsTrue (is_valid geometry.now) }
    ensures size { IfOk result (λ d. (state_of d).size ≡ image_size geometry.now) }
    ensures blank { IfOk result (λ d. (c : List ℕ) → (state_of d).now c → c ≡ replicate (state_of d).size 0) }
{
    let bytes = zeros(alloc, image_size(geometry) as usize)?;
    Ok(QueuedDisk::new(alloc, bytes))
}

// A desk over a new image of these numbers, which is still on the tape.
fn desk_on(alloc: Global, geometry: &Geometry) -> Result<Desk<QueuedDisk>, Memory>
    requires { IsTrue (is_valid geometry.now) }
{
    let disk = blank(alloc, geometry)?;
    match create(alloc, disk, geometry) {
        Ok(desk) => Ok(desk),
        Err((_error, _disk)) => Err(Memory),
    }
}

/// A desk over a small image, which is still on the tape, and a file of zeros to do the tape to.
pub(crate) fn new_desk(alloc: Global) -> Result<(Desk<QueuedDisk>, Vec<u8>), Memory> {
    let desk = desk_on(alloc, &small())?;
    let file = zeros(alloc, 1152)?;
    Ok((desk, file))
}

/// A desk over an image with room for files.
pub(crate) fn desk_with_files(alloc: Global) -> Result<Desk<QueuedDisk>, Memory> {
    let geometry = Geometry {
        block: 256,
        blocks: 16,
        log: 8192,
        mode: Mode::Serial,
        hash: 0,
        tree: 4,
        form: 1,
    };
    desk_on(alloc, &geometry)
}

/// A desk over the image that the file holds.
pub(crate) fn reopened(alloc: Global, file: &[u8]) -> Result<Desk<QueuedDisk>, Memory> {
    let bytes = file.to_vec(alloc)?;
    match open(alloc, QueuedDisk::new(alloc, bytes)) {
        Ok(desk) => Ok(desk),
        Err((_error, _disk)) => Err(Memory),
    }
}

// Does a call to the file, or the first bytes of a write.
fn do_call(call: &Call, most: usize, file: &mut Vec<u8>) {
    if let Call::Write { at, bytes } = call {
        let count = most.min(bytes.len());
        change(file, *at, &bytes[..count]);
    }
}

/// Does the first calls of the tape to the file, and the first bytes of the next one.
pub(crate) fn do_front(desk: &Desk<QueuedDisk>, calls: usize, most: usize, file: &mut Vec<u8>) {
    for (i, call) in tape(desk).iter().enumerate() {
        if i < calls {
            do_call(call, call_len(call), file);
        } else if i == calls {
            do_call(call, most, file);
        }
    }
}

// How many bytes a call writes.
fn call_len(call: &Call) -> usize {
    match call {
        Call::Write { bytes, .. } => bytes.len(),
        Call::Sync => 0,
    }
}

/// Does the tape to the file.
pub(crate) fn do_tape(desk: &mut Desk<QueuedDisk>, file: &mut Vec<u8>) {
    let calls = tape(desk).len();
    do_front(desk, calls, 0, file);
    hand_on(desk);
}
