// What no clause says: that calls succeed with ample memory, and which calls of the disk they make. The log is at byte
// 16 of a disk of zeros; each record puts two bytes at byte 5 of block 2, and has 30 bytes.
ghost use Rattle.std.specs.Prelude.{◌≡◌, ◌⊎◌, ◌+◌, ◌<◌, ◌≤◌, ◌++◌, [], OnOk, IfOk, IsTrue};
ghost use Rattle.iso_model.specs.{Geometry.is_valid, Image.spell};
ghost use Rattle.iso_memdisk.specs.MemDisk.{state_of};
ghost use Rattle.recover_tests.specs.{Ready.IsReady, Records.put};
ghost use Rattle.test_cores.specs.Small.{small};

use crate::form_tests::same;
use iso_format::RecordBuffer;
use iso_log::{Log, LogError, ReadAhead};
use iso_memdisk::MemDisk;
use iso_model::{Geometry, LAST, Memory};
use std::alloc::{AllocError, Global};
use std::test::Fail;
use test_cores::{change, small, small_in, zeros};

const PLACE: u64 = 16;

/// The record of a commit, after those of the buffer.
fn push_put(buffer: &mut RecordBuffer, number: u64) -> Result<(), Memory>
    requires parts { buffer.old.parts ≡ [] }
    requires number { number ≤ LAST }
    ensures { OnOk result (buffer.new ≡ record { records = buffer.old.records ++ spell 1 1 number put; parts = [] }) }
{
    buffer.push_part(2, 5, &[0xab, 0xcd])?;
    buffer.finish(number, 1)
}

/// A disk of zeros with a log of `room` bytes.
fn blank(alloc: Global, room: u32) -> Result<MemDisk, AllocError>
    requires { 1 ≤ room }
    ensures { IfOk result (λ d. IsReady small (record { place = 16; room = room; used = 0; last = 0 }) (state_of d)) }
{
    let bytes = zeros(alloc, 16 + room as usize)?;
    Ok(MemDisk::new(alloc, bytes))
}

/// Appends the record of one commit.
fn append_one(alloc: Global, log: &mut Log, disk: &mut MemDisk) -> Result<u64, LogError>
    requires ready { IsReady small log.old (state_of disk.old) }
    requires below { log.old.last < LAST }
    ensures ready { OnOk result (IsReady small log.new (state_of disk.new)) }
    ensures last { OnOk result (log.new.last ≡ log.old.last + 1) }
    ensures size { (state_of disk.new).size ≡ (state_of disk.old).size }
{
    let Ok(mut buffer) = RecordBuffer::new(alloc) else {
        return Err(LogError::Memory);
    };
    if let Err(_) = push_put(&mut buffer, log.last() + 1) {
        return Err(LogError::Memory);
    }
    log.append(disk, buffer.with_closed_gate())
}

/// Appends the records of two commits as a group.
fn append_two(alloc: Global, log: &mut Log, disk: &mut MemDisk) -> Result<u64, LogError>
    requires ready { IsReady small log.old (state_of disk.old) }
    requires below { log.old.last + 2 ≤ LAST }
    ensures ready { OnOk result (IsReady small log.new (state_of disk.new)) }
    ensures last { OnOk result (log.new.last ≡ log.old.last + 2) }
    ensures size { (state_of disk.new).size ≡ (state_of disk.old).size }
{
    let Ok(mut buffer) = RecordBuffer::new(alloc) else {
        return Err(LogError::Memory);
    };
    if let Err(_) = push_put(&mut buffer, log.last() + 1) {
        return Err(LogError::Memory);
    }
    if let Err(_) = push_put(&mut buffer, log.last() + 2) {
        return Err(LogError::Memory);
    }
    log.append_group(disk, buffer.with_closed_gate())
}

/// How many records the log on the disk has.
fn count_told(
    alloc: Global,
    disk: &mut MemDisk,
    geometry: &Geometry,
    room: u32,
) -> Result<u64, LogError>
    requires valid { IsTrue (is_valid geometry.now) }
    requires some { 1 ≤ room }
    requires fits { 16 + room ≤ (state_of disk.old).size }
{
    let mut log = Log::start(PLACE, room, 0);
    let mut ahead = ReadAhead::new(alloc, 1 << 20);
    for _ in 0..room {
        let size = match log.find_ahead(disk, geometry, &mut ahead) {
            Ok(Some(size)) => size,
            Ok(None) => return Ok(log.last()),
            Err(error) => return Err(error),
        };
        log.pass(&mut ahead, size);
    }
    Ok(log.last())
}

/// The same over the bytes of an image.
fn count_in(alloc: Global, image: Vec<u8>, geometry: &Geometry, room: u32) -> Result<u64, LogError>
    requires valid { IsTrue (is_valid geometry.now) }
    requires some { 1 ≤ room }
{
    if image.len() < 16 + room as usize {
        return Err(LogError::Disk);
    }
    let mut disk = MemDisk::new(alloc, image);
    count_told(alloc, &mut disk, geometry, room)
}

/// What appending one record, and another one, comes to: each place and the calls by then, the bytes of the log that are used and free and
/// its last number behind the first, and how many records are told.
fn appended_in(
    alloc: Global,
    disk: &mut MemDisk,
) -> Option<([(u64, u64); 2], (u32, u32, u64), Result<u64, LogError>)>
    requires { IsReady small (record { place = 16; room = 100; used = 0; last = 0 }) (state_of disk.old) }
{
    let mut log = Log::start(PLACE, 100, 0);
    let Ok(first) = append_one(alloc, &mut log, disk) else {
        return None;
    };
    let calls = disk.calls();
    let grown = (log.used(), log.free(), log.last());
    let Ok(second) = append_one(alloc, &mut log, disk) else {
        return None;
    };
    let places = [(first, calls), (second, disk.calls())];
    Some((places, grown, count_told(alloc, disk, &small(), 100)))
}

#[test]
fn a_record_is_one_write_and_a_gate(rt: HostRuntime) -> Result<(), Fail> {
    let mut disk = blank(rt.alloc(), 100)?;
    let found = appended_in(rt.alloc(), &mut disk);
    let wanted = ([(16, 4), (46, 8)], (30, 70, 1), Ok(2));
    same(&rt, found, Some(wanted));
    Ok(())
}

/// What a group of two comes to: its place, the calls, the bytes that are used and the last number.
type Grown = (u64, u64, u32, u64);

/// What is found by a scan with no piece that is read ahead: the size of a first record and the closed gate behind it, and the bytes that it
/// puts; and the calls by the first of them.
type Found = (Result<Option<u32>, LogError>, u64, [u8; 2]);

/// A group of two that fills its log but for a byte, what one more record is refused for, what a scan finds then, and how many records are
/// told.
fn filled_in(
    alloc: Global,
    disk: &mut MemDisk,
) -> Option<(Grown, Result<u64, LogError>, Found, Result<u64, LogError>)>
    requires { IsReady small (record { place = 16; room = 61; used = 0; last = 0 }) (state_of disk.old) }
{
    let mut log = Log::start(PLACE, 61, 0);
    let Ok(place) = append_two(alloc, &mut log, disk) else {
        return None;
    };
    let grown = (place, disk.calls(), log.used(), log.last());
    let full = append_one(alloc, &mut log, disk);
    let scan = Log::start(PLACE, 61, 0);
    let mut ahead = ReadAhead::new(alloc, 0);
    let size = scan.find_ahead(disk, &small(), &mut ahead);
    let calls = disk.calls();
    let mut put = [0; 2];
    let _ = scan.read_at(disk, 44, &mut put);
    let told = count_told(alloc, disk, &small(), 61);
    Some((grown, full, (size, calls, put), told))
}

#[test]
fn a_group_costs_what_a_record_costs(rt: HostRuntime) -> Result<(), Fail> {
    let mut disk = blank(rt.alloc(), 61)?;
    let found = filled_in(rt.alloc(), &mut disk);
    let full = LogError::LogFull { need: 31, free: 1 };
    let scan = (Ok(Some(31)), 6, [0xab, 0xcd]);
    same(&rt, found, Some(((16, 4, 60, 2), Err(full), scan, Ok(2))));
    Ok(())
}

/// What a group of two is refused for that is a byte too long, and the calls by then.
fn refused_in(alloc: Global, disk: &mut MemDisk) -> (Result<u64, LogError>, u64)
    requires { IsReady small (record { place = 16; room = 60; used = 0; last = 0 }) (state_of disk.old) }
{
    let mut log = Log::start(PLACE, 60, 0);
    let answer = append_two(alloc, &mut log, disk);
    (answer, disk.calls())
}

#[test]
fn a_log_is_filled_exactly(rt: HostRuntime) -> Result<(), Fail> {
    let mut disk = blank(rt.alloc(), 60)?;
    let full = LogError::LogFull { need: 61, free: 60 };
    same(&rt, refused_in(rt.alloc(), &mut disk), (Err(full), 0));
    Ok(())
}

/// How many of the images of the first six picks tell no record, and how many tell two.
fn told_by_images(alloc: Global, disk: &MemDisk) -> (u32, u32) {
    let mut none = 0u32;
    let mut two = 0u32;
    for pick in 0..6 {
        match image_told(alloc, disk, pick) {
            Ok(0) => none = none.saturating_add(1),
            Ok(2) => two = two.saturating_add(1),
            _ => {}
        }
    }
    (none, two)
}

/// How many records the image of a pick tells.
fn image_told(alloc: Global, disk: &MemDisk, pick: u64) -> Result<u64, LogError> {
    match disk.crash(alloc, pick) {
        Ok(image) => count_in(alloc, image, &small(), 100),
        Err(_) => Err(LogError::Memory),
    }
}

/// The answer to a group of two where each call after `calls` calls fails, the bytes and the last number of the log, and what the
/// images tell.
fn group_behind(
    alloc: Global,
    calls: u64,
) -> Option<(Result<u64, LogError>, (u32, u64), (u32, u32))> {
    match blank(alloc, 100) {
        Ok(mut disk) => {
            let mut log = Log::start(PLACE, 100, 0);
            disk.fuse(calls);
            let answer = append_two(alloc, &mut log, &mut disk);
            let grown = (log.used(), log.last());
            Some((answer, grown, told_by_images(alloc, &disk)))
        }
        Err(_) => None,
    }
}

#[test]
fn a_fault_leaves_all_records_or_none(rt: HostRuntime) {
    for calls in 0..4 {
        let Some((answer, log, (none, two))) = group_behind(rt.alloc(), calls) else {
            same(&rt, calls, 4);
            return;
        };
        let whole = (none.saturating_add(two), two == 0 || calls == 3);
        let wanted = (calls, Err(LogError::Disk), (0, 0), (6, true));
        same(&rt, (calls, answer, log, whole), wanted);
    }
}

/// How many of a thousand records were appended each behind the one before it, the bytes of the log that are free then, the calls, how many
/// records are told, and the calls by then.
fn thousand_in(
    alloc: Global,
    disk: &mut MemDisk,
) -> Option<(u64, u32, u64, Result<u64, LogError>, u64)>
    requires { IsReady small (record { place = 16; room = 30001; used = 0; last = 0 }) (state_of disk.old) }
{
    let mut log = Log::start(PLACE, 30_001, 0);
    let mut behind = 0u64;
    for number in 0..1000 {
        let Ok(place) = append_one(alloc, &mut log, disk) else {
            return None;
        };
        if place == 16 + 30 * number {
            behind = behind.saturating_add(1);
        }
    }
    let (free, calls) = (log.free(), disk.calls());
    let told = count_told(alloc, disk, &small(), 30_001);
    Some((behind, free, calls, told, disk.calls()))
}

#[test]
fn a_thousand_records_are_one_read(rt: HostRuntime) -> Result<(), Fail> {
    let mut disk = blank(rt.alloc(), 30_001)?;
    let found = thousand_in(rt.alloc(), &mut disk);
    same(&rt, found, Some((1000, 1, 4000, Ok(1000), 4001)));
    Ok(())
}

/// The image of a log with `room` bytes, which has the records of a group of two.
fn with_two(alloc: Global, room: u32) -> Option<Vec<u8>>
    requires { 1 ≤ room }
{
    match blank(alloc, room) {
        Ok(mut disk) => {
            let mut log = Log::start(PLACE, room, 0);
            let _ = append_two(alloc, &mut log, &mut disk);
            disk.crash(alloc, 1).ok()
        }
        Err(_) => None,
    }
}

/// How many records such a log tells where one byte is changed.
fn told_with(
    alloc: Global,
    geometry: &Geometry,
    room: u32,
    place: usize,
    value: u8,
) -> Result<u64, LogError>
    requires valid { IsTrue (is_valid geometry.now) }
    requires some { 1 ≤ room }
{
    match with_two(alloc, room) {
        Some(mut image) => {
            change(&mut image, place, &[value]);
            count_in(alloc, image, geometry, room)
        }
        None => Err(LogError::Memory),
    }
}

/// The byte that is changed in a log of 75 bytes, its value, and where and how the record is damaged.
const DAMAGED: &[(usize, u8, u64, u8)] = &[
    (17, 9, 17, 2),
    (17, 2, 17, 2),
    (18, 1, 18, 3),
    (49, 7, 49, 3),
    (23, 0, 20, 4),
    (39, 4, 36, 6),
    (57, 200, 54, 1),
    (65, 5, 58, 8),
    (76, 1, 76, 1),
];

/// The gate that is closed in a log of 100 bytes, and how many records are told.
const CLOSED: &[(usize, u64)] = &[(16, 0), (46, 1), (76, 2)];

#[test]
fn a_log_tells_its_records_up_to_a_closed_gate_or_a_damaged_one(rt: HostRuntime) {
    let alloc = rt.alloc();
    for (place, value, at, cause) in DAMAGED {
        let told = told_with(alloc, &small(), 75, *place, *value);
        let (at, cause) = (*at, *cause);
        let damaged = Err(LogError::Damaged { at, cause });
        same(&rt, (*place, told), (*place, damaged));
    }
    for (gate, count) in CLOSED {
        let told = told_with(alloc, &small(), 100, *gate, 255);
        same(&rt, (*gate, told), (*gate, Ok(*count)));
    }
    // form two has records of either kind
    same(&rt, told_with(alloc, &small_in(2), 100, 17, 2), Ok(2));
}
