// What no clause says: that calls succeed with ample memory, and which calls of the disk they make. The image has four
// blocks of 64 bytes and logs of 256. Its first half, at byte 64, has records of two commits; its second one, at byte 608,
// is filled with the first of them laid over the base.
ghost use Rattle.std.specs.Prelude.{◌≡◌, ◌⊎◌, ◌<◌, IfOk};
ghost use Rattle.iso_disk.specs.Disk.{IsSettled};
ghost use Rattle.iso_memdisk.specs.MemDisk.{state_of};

use crate::form_tests::same;
use half_switch::{
    FillPlan, SwitchError, choose_half, close_half, fill_half, half_place, open_half,
};
use iso_disk::DiskFault;
use iso_format::HalfHeader;
use iso_memdisk::MemDisk;
use std::alloc::{AllocError, Global};
use test_cores::{small_in, zeros};

/// Two bytes at byte 5 of block 2.
const FIRST: [u8; 30] = [
    1, 1, 0, 0, 0, 0, 0, 1, 0, 0, 0, 10, 0, 0, 0, 0, 0, 0, 0, 1, 0, 0, 0, 2, 0, 5, 0, 2, 171, 205,
];

/// Two bytes at the front of block 0.
const SECOND: [u8; 30] = [
    1, 1, 0, 0, 0, 0, 0, 1, 0, 0, 0, 10, 0, 0, 0, 0, 0, 0, 0, 2, 0, 0, 0, 0, 0, 0, 0, 2, 17, 18,
];

/// The image, with this gate byte of the second half. The call of the disk with this number fails, from 1.
fn image(alloc: Global, gate: u8, failing: u64) -> Result<MemDisk, AllocError>
    ensures size { IfOk result (λ d. (state_of d).size ≡ 1152) }
    ensures settled { IfOk result (λ d. IsSettled (state_of d)) }
{
    let mut bytes = zeros(alloc, 1152)?;
    bytes[608] = gate;
    bytes[352..382].copy_from_slice(&FIRST);
    bytes[382..412].copy_from_slice(&SECOND);
    let mut disk = MemDisk::new(alloc, bytes);
    disk.fail(failing);
    Ok(disk)
}

/// Fills the second half, in this form, with the base at commit 1.
fn compact(alloc: Global, disk: &mut MemDisk, form: u8) -> Result<(), SwitchError>
    requires form { (form ≡ 1) ⊎ (form ≡ 2) }
    requires size { (state_of disk.old).size ≡ 1152 }
    requires settled { IsSettled (state_of disk.old) }
    ensures size { (state_of disk.new).size ≡ 1152 }
{
    let geometry = small_in(form);
    let to = half_place(&geometry, 1);
    if let Err(_) = close_half(disk, &to) {
        return Err(SwitchError::Disk);
    }
    let plan = FillPlan {
        geometry,
        generation: 2,
        old_base: 0,
        base: 1,
        used: 60,
    };
    fill_half(alloc, disk, &half_place(&geometry, 0), &to, &plan)
}

/// Opens the second half.
fn open(disk: &mut MemDisk) -> Result<(), DiskFault>
    requires { (state_of disk.old).size ≡ 1152 }
{
    open_half(disk, &half_place(&small_in(1), 1))
}

/// Thirty-two bytes of the image from a place on.
fn bytes_at(image: &[u8], at: usize) -> [u8; 32] {
    let mut bytes = [0; 32];
    if let Some(found) = image.get(at..at.saturating_add(32)) {
        if found.len() == 32 {
            bytes.copy_from_slice(found);
        }
    }
    bytes
}

/// The header of the second half, and the fronts of the rest of its base's third block and of its log.
fn second_half(alloc: Global, disk: &MemDisk) -> [[u8; 32]; 3] {
    match disk.crash(alloc, 1) {
        Ok(image) => [
            bytes_at(image.as_slice(), 608),
            bytes_at(image.as_slice(), 768),
            bytes_at(image.as_slice(), 896),
        ],
        Err(_) => [[0; 32]; 3],
    }
}

/// What a compaction of the image in this form comes to: its answer, the calls that it made, and the second half then.
fn compacted(
    alloc: Global,
    gate: u8,
    failing: u64,
    form: u8,
) -> Option<(Result<(), SwitchError>, u64, [[u8; 32]; 3])>
    requires { (form ≡ 1) ⊎ (form ≡ 2) }
{
    match image(alloc, gate, failing) {
        Ok(mut disk) => {
            let answer = compact(alloc, &mut disk, form);
            Some((answer, disk.calls(), second_half(alloc, &disk)))
        }
        Err(_) => None,
    }
}

/// The gate and the form of a half.
fn gate_and_form(header: &[u8; 32]) -> [u8; 2] {
    [header[0], header[1]]
}

/// The answer to a compaction of the image, where the call of this number fails, and the calls; and the gate and the form that the second
/// half has then.
fn front_of(
    alloc: Global,
    failing: u64,
    form: u8,
) -> Option<(Result<(), SwitchError>, u64, [u8; 2])>
    requires { (form ≡ 1) ⊎ (form ≡ 2) }
{
    match compacted(alloc, 0, failing, form) {
        Some(told) => {
            let half = told.2;
            let [header, _base, _log] = half;
            let front = gate_and_form(&header);
            Some((told.0, told.1, front))
        }
        None => None,
    }
}

/// The same of one in form 1, and whether the gate is closed.
fn refused(alloc: Global, failing: u64) -> Option<(Result<(), SwitchError>, u64, bool)> {
    match front_of(alloc, failing, 1) {
        Some(told) => {
            let front = told.2;
            Some((told.0, told.1, front[0] == 0))
        }
        None => None,
    }
}

/// The second half, filled with the base at commit 1 and the record of commit 2.
const FILLED: [[u8; 32]; 3] = [
    [
        0, 1, 0, 0, 0, 0, 0, 0, 0, 0, 0, 0, 0, 0, 0, 2, 0, 0, 0, 0, 0, 0, 0, 1, 0, 0, 0, 0, 0, 0,
        0, 0,
    ],
    [
        0, 0, 0, 0, 0, 171, 205, 0, 0, 0, 0, 0, 0, 0, 0, 0, 0, 0, 0, 0, 0, 0, 0, 0, 0, 0, 0, 0, 0,
        0, 0, 0,
    ],
    [
        1, 1, 0, 0, 0, 0, 0, 1, 0, 0, 0, 10, 0, 0, 0, 0, 0, 0, 0, 2, 0, 0, 0, 0, 0, 0, 0, 2, 17,
        18, 0, 0,
    ],
];

/// The answers to a compaction of the image and to an opening of the second half behind it, where the call of this number fails; the calls
/// of both; and the gate of the half then.
fn opened(
    alloc: Global,
    failing: u64,
) -> Option<(Result<(), SwitchError>, Result<(), DiskFault>, u64, u8)> {
    match image(alloc, 0, failing) {
        Ok(mut disk) => {
            let filled = compact(alloc, &mut disk, 1);
            let answer = open(&mut disk);
            let gate = second_half(alloc, &disk)[0][0];
            Some((filled, answer, disk.calls(), gate))
        }
        Err(_) => None,
    }
}

#[test]
fn the_second_half_is_filled_and_opened(rt: HostRuntime) {
    let alloc = rt.alloc();
    same(&rt, compacted(alloc, 0, 0, 1), Some((Ok(()), 7, FILLED)));
    // an open gate is shut first
    same(&rt, compacted(alloc, 1, 0, 1), Some((Ok(()), 9, FILLED)));
    // and an upgrade writes the new form
    same(&rt, front_of(alloc, 0, 2), Some((Ok(()), 7, [0, 2])));
    same(&rt, opened(alloc, 0), Some((Ok(()), Ok(()), 9, 1)));
}

#[test]
fn each_call_that_fails_is_told(rt: HostRuntime) {
    for failing in 1..8 {
        let told = Some((Err(SwitchError::Disk), failing, true));
        same(&rt, refused(rt.alloc(), failing), told);
    }
    // the gate is written, and not stable
    let opening = Some((Ok(()), Err(DiskFault), 9, 1));
    same(&rt, opened(rt.alloc(), 9), opening);
}

fn header(gate: u8, generation: u64) -> HalfHeader {
    HalfHeader {
        gate,
        form: 1,
        generation,
        base: 0,
        clean: true,
    }
}

/// The gates and generations of two halves, and which one is current.
const CHOICES: &[((u8, u64), (u8, u64), Option<u8>)] = &[
    ((1, 3), (1, 4), Some(1)),
    ((1, 4), (1, 3), Some(0)),
    ((1, 3), (1, 3), Some(0)),
    ((1, 3), (0, 4), Some(0)),
    ((2, 3), (1, 2), Some(1)),
    ((2, 3), (0, 4), None),
];

#[test]
fn the_later_of_the_open_halves_is_chosen(rt: HostRuntime) {
    for (first, second, half) in CHOICES {
        let found = choose_half(&header(first.0, first.1), &header(second.0, second.1));
        same(&rt, (*first, *second, found), (*first, *second, *half));
    }
}
