// The bytes of a small image, and of a record in its log.
ghost use Rattle.std.specs.Prelude.{◌≡◌, ◌<◌, [], length, IfOk, OnOk};
ghost use Rattle.iso_format.specs.Writing.{LieInAnImage};

use iso_format::{
    FormatError, HalfHeader, PartList, RecordBuffer, SuperError, is_valid, read_half, read_record,
    read_super, record_length, record_window, unclean_place, write_half, write_record, write_super,
};
use iso_model::{Geometry, Memory};
use std::alloc::Global;
use std::fmt::Debug;
use std::process::Abort;
use std::test::Fail;
use test_cores::small;

// Two values that are to be the same. Each test that compared them itself would prove what is printed where they differ.
pub(crate) fn same<T: PartialEq + Debug + Drop>(rt: &impl Abort, found: T, wanted: T) {
    assert_eq!(rt; found, wanted);
}

/// Changes a byte.
fn put(bytes: &mut [u8], place: usize, value: u8) {
    if let Some(byte) = bytes.get_mut(place) {
        *byte = value;
    }
}

/// The parts of the commit of a transaction that put two bytes at byte 5 of block 2.
fn one_put(alloc: Global) -> Result<PartList, Memory>
    ensures { IfOk result LieInAnImage }
{
    let mut parts = PartList::empty(alloc);
    parts.push(2, 5, &[0xab, 0xcd])?;
    Ok(parts)
}

/// The superblock of a small image.
const SUPERBLOCK: [u8; 64] = [
    b'I', b'S', b'O', b'T', b'O', b'P', b'E', b'1', 0, 0, 0, 1, 0, 0, 0, 0x40, 0, 0, 0, 4, 0, 0, 1,
    0, 0, 0, 0, 0, 0, 0, 0, 0, 0, 0, 0, 0, 0, 0, 0, 0, 0, 0, 0, 0, 0, 0, 0, 0, 0, 0, 0, 0, 0, 0, 0,
    0, 0, 0, 0, 0, 0, 0, 0, 1,
];

/// A byte of it that is changed, its value, and what the superblock is refused for.
const REFUSED_SUPERBLOCKS: &[(usize, u8, SuperError)] = &[
    (7, b'2', SuperError::NotIsotope),
    (63, 0, SuperError::NotIsotope),
    (11, 2, SuperError::BadGeometry { field: 1 }),
    (15, 0x41, SuperError::BadGeometry { field: 2 }),
    (19, 0, SuperError::BadGeometry { field: 3 }),
    (22, 0, SuperError::BadGeometry { field: 4 }),
    (24, 2, SuperError::BadGeometry { field: 5 }),
    (27, 1, SuperError::BadGeometry { field: 6 }),
    (62, 1, SuperError::BadGeometry { field: 6 }),
    (31, 3, SuperError::BadGeometry { field: 7 }),
];

/// The record of `one_put` as commit 1, and the closed gate after it.
const RECORD: [u8; 31] = [
    1, 1, 0, 0, 0, 0, 0, 1, 0, 0, 0, 0x0a, 0, 0, 0, 0, 0, 0, 0, 1, 0, 0, 0, 2, 0, 5, 0, 2, 0xab,
    0xcd, 0,
];

#[test]
fn superblocks_of_a_small_image(rt: HostRuntime) {
    let mut bytes = [9; 64];
    write_super(&small(), &mut bytes);
    same(&rt, bytes, SUPERBLOCK);
    same(&rt, read_super(&bytes), Ok(small()));
    for (place, value, error) in REFUSED_SUPERBLOCKS {
        let mut bytes = SUPERBLOCK;
        put(&mut bytes, *place, *value);
        same(&rt, (*place, read_super(&bytes)), (*place, Err(*error)));
    }
}

/// The header of the first half of a new image.
const HEADER: [u8; 32] = [
    1, 1, 0, 0, 0, 0, 0, 0, 0, 0, 0, 0, 0, 0, 0, 1, 0, 0, 0, 0, 0, 0, 0, 0, 0, 0, 0, 0, 0, 0, 0, 0,
];

/// Bytes of it that are changed, and where the first byte is then that is to be zero and is not.
const UNCLEAN: &[(usize, usize, Option<u64>)] = &[
    (0, 0, None),
    (31, 31, Some(31)),
    (7, 31, Some(7)),
];

#[test]
fn first_half_of_a_new_image(rt: HostRuntime) {
    let mut bytes = [9; 32];
    let first = HalfHeader {
        gate: 1,
        form: 1,
        generation: 1,
        base: 0,
        clean: true,
    };
    write_half(&first, &mut bytes);
    same(&rt, bytes, HEADER);
    for (one, other, unclean) in UNCLEAN {
        let mut bytes = HEADER;
        put(&mut bytes, *one, 1);
        put(&mut bytes, *other, 1);
        let clean = unclean.is_none();
        let found = (read_half(&bytes), unclean_place(&bytes));
        same(&rt, found, (HalfHeader { clean, ..first }, *unclean));
    }
}

/// Adds the record of `one_put` as commit 1.
fn push_put(buffer: &mut RecordBuffer) -> Result<(), Memory>
    requires { buffer.old.parts ≡ [] }
    ensures { OnOk result (buffer.new.parts ≡ []) }
{
    buffer.push_part(2, 5, &[0xab, 0xcd])?;
    buffer.finish(1, 1)
}

#[test]
fn record_of_one_put(rt: HostRuntime) -> Result<(), Fail> {
    let parts = one_put(rt.alloc())?;
    // That there is a part follows from this.
    assert_eq!(rt; record_length(&parts), 30);
    let record = write_record(rt.alloc(), 1, 1, &parts)?;
    same(&rt, record.as_slice(), &RECORD[..30]);
    Ok(())
}

/// Five parts in four blocks.
fn five_parts(alloc: Global) -> Result<PartList, Memory>
    ensures lie { IfOk result LieInAnImage }
    ensures some { IfOk result (λ parts. 0 < length parts) }
{
    let mut parts = PartList::empty(alloc);
    parts.push(0, 0, &[1])?;
    parts.push(0, 2, &[2, 3])?;
    parts.push(1, 60, &[4, 5, 6, 7])?;
    parts.push(2, 0, &[8])?;
    parts.push(3, 63, &[9])?;
    Ok(parts)
}

/// These parts: block, offset and bytes.
const FIVE_PARTS: &[(u32, u16, &[u8])] = &[
    (0, 0, &[1]),
    (0, 2, &[2, 3]),
    (1, 60, &[4, 5, 6, 7]),
    (2, 0, &[8]),
    (3, 63, &[9]),
];

/// The number of a record that stands before a closed gate, how many parts it has, and how many of the first of them are these.
fn parts_found(record: &[u8], wanted: &[(u32, u16, &[u8])]) -> Option<(u64, usize, usize)> {
    let Ok(view) = read_record(record, &small(), 9) else {
        return None;
    };
    let mut read = view.parts();
    let (mut count, mut right) = (0usize, 0usize);
    for _ in 0..10 {
        if let Some(part) = read.next() {
            let found = (part.block, part.off, part.bytes);
            if right == count && wanted.get(count).copied() == Some(found) {
                right = count.saturating_add(1);
            }
            count = count.saturating_add(1);
        }
    }
    Some((view.number(), count, right))
}

#[test]
fn record_of_five_parts(rt: HostRuntime) -> Result<(), Fail> {
    let parts = five_parts(rt.alloc())?;
    same(&rt, record_length(&parts), 69);
    let mut record = write_record(rt.alloc(), 9, 1, &parts)?;
    same(&rt, record.len(), 69);
    record.push(0)?;
    same(
        &rt,
        parts_found(record.as_slice(), FIVE_PARTS),
        Some((9, 5, 5)),
    );
    Ok(())
}

fn two_records_behind_one_closed_gate_in(
    rt: &impl Abort,
    buffer: &mut RecordBuffer,
) -> Result<(), Fail>
    requires { buffer.old.parts ≡ [] }
{
    same(rt, buffer.with_closed_gate(), [0].as_slice());
    push_put(buffer)?;
    same(rt, buffer.with_closed_gate(), RECORD.as_slice());
    push_put(buffer)?;
    let both = buffer.with_closed_gate();
    let ends = (both.starts_with(&RECORD[..30]), both.ends_with(&RECORD));
    same(rt, (both.len(), ends), (61, (true, true)));
    buffer.clear();
    same(rt, buffer.with_closed_gate(), [0].as_slice());
    push_put(buffer)?;
    same(rt, buffer.with_closed_gate(), RECORD.as_slice());
    Ok(())
}

#[test]
fn two_records_behind_one_closed_gate(rt: HostRuntime) -> Result<(), Fail> {
    let mut buffer = RecordBuffer::new(rt.alloc())?;
    two_records_behind_one_closed_gate_in(&rt, &mut buffer)
}

/// Geometries that have one number beyond the limits.
const BEYOND: &[(u32, u32, u32, u32, u8)] = &[
    (96, 4, 256, 0, 1),
    (64, 0, 256, 0, 1),
    (64, 16_385, 256, 0, 1),
    (64, 4, 63, 0, 1),
    (64, 4, 67_108_865, 0, 1),
    (64, 4, 256, 3, 1),
    (64, 4, 256, 0, 3),
];

#[test]
fn geometries_within_the_limits(rt: HostRuntime) {
    same(&rt, is_valid(&small()), true);
    for (number, (block, blocks, log, hash, form)) in BEYOND.iter().enumerate() {
        let wrong = Geometry {
            block: *block,
            blocks: *blocks,
            log: *log,
            hash: *hash,
            form: *form,
            ..small()
        };
        same(&rt, (number, is_valid(&wrong)), (number, false));
    }
}

#[test]
fn what_a_refusal_tells(rt: HostRuntime) {
    let short = (
        FormatError::Short(0).number(),
        FormatError::Short(0).offset(),
    );
    let length = (
        FormatError::Length(29).number(),
        FormatError::Length(29).offset(),
    );
    let number = FormatError::Number(12).number();
    same(&rt, (short, length, number), ((1, 0), (7, 29), 8));
}

#[test]
fn parts_of_a_record(rt: HostRuntime) -> Result<(), Fail> {
    let record = read_record(&RECORD, &small(), 1)?;
    let told = (record_window(&RECORD), record.number(), record.kind());
    same(&rt, told, (31, 1, 1));
    let mut parts = record.parts();
    let first = parts.next().ok_or("no part")?;
    let found = (first.block, first.off, first.bytes);
    same(&rt, found, (2, 5, [0xab, 0xcd].as_slice()));
    same(&rt, parts.next().is_none(), true);
    Ok(())
}

/// A byte of the record that is changed, its value, and what the record is refused for.
const REFUSED_RECORDS: &[(usize, u8, FormatError)] = &[
    (1, 2, FormatError::Kind(1)),
    (2, 1, FormatError::NotZero(2)),
    (3, 1, FormatError::NotZero(3)),
    (7, 0, FormatError::Count(4)),
    (7, 2, FormatError::Count(4)),
    (11, 11, FormatError::Short(8)),
    (19, 2, FormatError::Number(12)),
    (23, 4, FormatError::Range(20)),
    (25, 63, FormatError::Range(20)),
    (27, 0, FormatError::Range(20)),
    (27, 1, FormatError::Length(29)),
    (27, 3, FormatError::Length(20)),
];

/// A record whose second part is of an earlier block.
const FALLING: [u8; 39] = [
    1, 1, 0, 0, 0, 0, 0, 2, 0, 0, 0, 0x12, 0, 0, 0, 0, 0, 0, 0, 1, 0, 0, 0, 2, 0, 0, 0, 1, 0xaa, 0,
    0, 0, 1, 0, 0, 0, 1, 0xbb, 0,
];

#[test]
fn records_that_are_refused(rt: HostRuntime) {
    for (place, value, error) in REFUSED_RECORDS {
        let mut bytes = RECORD;
        put(&mut bytes, *place, *value);
        let found = read_record(&bytes, &small(), 1).err();
        same(&rt, (*place, found), (*place, Some(*error)));
    }
    let cut = read_record(&RECORD[..19], &small(), 1).err();
    let falling = read_record(&FALLING, &small(), 1).err();
    let wanted = (Some(FormatError::Short(0)), Some(FormatError::Order(29)));
    same(&rt, (cut, falling), wanted);
}
