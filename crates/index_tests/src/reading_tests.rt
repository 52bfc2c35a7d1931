// What no clause says: that calls succeed with ample memory, and which reads they make. The disk has 512 bytes, each of them
// its place modulo 251.
ghost use Rattle.std.specs.Prelude.{◌≡◌, ◌^◌, ◌<◌, true, length, IfOk};
ghost use Rattle.iso_model.specs.Image.{AreRuns};
ghost use Rattle.iso_memdisk.specs.MemDisk.{state_of};
ghost use Rattle.mv_index.specs.Shown.{AllLie};
ghost use Rattle.test_cores.specs.Small.{small};

use crate::marks_tests::same;
use iso_disk::DiskFault;
use iso_format::{RecordView, read_record};
use iso_memdisk::MemDisk;
use iso_model::Memory;
use mv_index::{MvIndex, Version};
use std::alloc::{AllocError, Global};
use std::test::Fail;
use test_cores::small;
use version_read::{read_block, read_pieces, take_parts};

fn numbers(alloc: Global) -> Result<Vec<u8>, AllocError>
    ensures { IfOk result (λ v. length v.items ≡ 512) }
{
    let mut bytes = vec![in alloc; 0u8; 512]?;
    for at in 0..512 {
        bytes[at] = (at % 251) as u8;
    }
    Ok(bytes)
}

fn disk(alloc: Global) -> Result<MemDisk, AllocError>
    ensures { IfOk result (λ d. (state_of d).size ≡ 512) }
{
    Ok(MemDisk::new(alloc, numbers(alloc)?))
}

// Whether the versions have bytes of a block of 64 that are on the disk.
fn lie(versions: &[Version]) -> bool
    ensures { result ≡ true → AllLie 64 512 versions.now }
{
    for version in versions {
        if version.off > 64 || version.len > 64 - version.off {
            return false;
        }
        if version.place > 400 {
            return false;
        }
    }
    true
}

// The block whose base bytes are at 64.
fn read(disk: &mut MemDisk, versions: &[Version]) -> Result<[u8; 64], DiskFault>
    requires { (state_of disk.old).size ≡ 512 }
    ensures { (state_of disk.new).size ≡ (state_of disk.old).size }
{
    let mut block = [0; 64];
    if !lie(versions) {
        return Err(DiskFault);
    }
    read_block(disk, 64, versions, &mut block)?;
    Ok(block)
}

// Bytes from one of that block up to another, among bytes 255.
fn read_range(
    disk: &mut MemDisk,
    versions: &[Version],
    from: usize,
    to: usize,
) -> Result<[u8; 64], DiskFault>
    requires { (state_of disk.old).size ≡ 512 }
    ensures { (state_of disk.new).size ≡ (state_of disk.old).size }
{
    let mut block = [255; 64];
    if !lie(versions) || from > to || to > 64 {
        return Err(DiskFault);
    }
    read_pieces(disk, 64, versions, from, to, &mut block)?;
    Ok(block)
}

fn version(place: u64, off: u16, len: u16) -> Version {
    Version {
        number: 1,
        place,
        off,
        len,
    }
}

#[test]
fn later_versions_hide_earlier_ones(rt: HostRuntime) -> Result<(), Fail> {
    let mut disk = disk(rt.alloc())?;
    let versions = [version(100, 0, 10), version(200, 3, 2), version(300, 4, 4)];
    let block = read(&mut disk, &versions)?;
    let front = [100, 101, 102, 200, 49, 50, 51, 52, 108, 109, 74, 75];
    for (at, byte) in front.iter().enumerate() {
        same(&rt, (at, block.get(at)), (at, Some(byte)));
    }
    same(&rt, block[63], 127);
    // the four last bytes, the one before them, what is left of the first version on both sides, and the base
    same(&rt, disk.calls(), 5);
    Ok(())
}

#[test]
fn a_whole_version_is_one_read(rt: HostRuntime) -> Result<(), Fail> {
    let mut disk = disk(rt.alloc())?;
    let block = read(&mut disk, &[version(100, 0, 10), version(400, 0, 64)])?;
    same(&rt, (block[0], block[63]), (149, 212));
    same(&rt, disk.calls(), 1);
    let base = read(&mut disk, &[])?;
    same(&rt, (base[0], base[63]), (64, 127));
    same(&rt, disk.calls(), 2);
    Ok(())
}

#[test]
fn a_range_is_its_base_and_what_pieces_have_of_it(rt: HostRuntime) -> Result<(), Fail> {
    let mut disk = disk(rt.alloc())?;
    let pieces = [
        version(100, 0, 10),
        version(200, 12, 4),
        version(300, 20, 10),
    ];
    let block = read_range(&mut disk, &pieces, 5, 22)?;
    let range = [
        255, 105, 106, 107, 108, 109, 74, 75, 200, 201, 202, 203, 80, 81, 82, 83, 49, 50, 255,
    ];
    for (at, byte) in range.iter().enumerate() {
        same(&rt, (at, block.get(4 + at)), (at, Some(byte)));
    }
    same(&rt, disk.calls(), 4);
    // one piece has all of it
    let part = read_range(&mut disk, &pieces[2..], 21, 25)?;
    same(
        &rt,
        (part[20], part[21], part[24], part[25]),
        (255, 50, 53, 255),
    );
    same(&rt, disk.calls(), 5);
    Ok(())
}

#[test]
fn a_read_that_fails_is_told(rt: HostRuntime) -> Result<(), Fail> {
    for number in 1..=2 {
        let mut disk = disk(rt.alloc())?;
        disk.fail(number);
        same(&rt, read(&mut disk, &[version(100, 0, 10)]), Err(DiskFault));
        same(&rt, disk.calls(), number);
    }
    Ok(())
}

// The index of one record whose gate is at this place.
fn index_of(alloc: Global, view: &RecordView<'_>, gate: u64) -> Result<MvIndex, Memory>
    requires runs { AreRuns small view.now.parts }
    requires gate { gate < 2 ^ 32 }
    ensures { IfOk result (λ index. length index ≡ 4) }
{
    let mut count: u32 = 0;
    for _part in view.parts() {
        if count == 100 {
            return Err(Memory);
        }
        count += 1;
    }
    let mut index = MvIndex::empty(alloc, 4)?;
    take_parts(&mut index, view.number(), gate, view)?;
    Ok(index)
}

#[test]
fn parts_are_indexed_where_their_bytes_stand(rt: HostRuntime) -> Result<(), Fail> {
    // record 1: two bytes at byte 3 of block 1, and one at byte 0 of block 2
    let bytes = [
        1, 1, 0, 0, 0, 0, 0, 2, 0, 0, 0, 19, 0, 0, 0, 0, 0, 0, 0, 1, 0, 0, 0, 1, 0, 3, 0, 2, 0xab,
        0xcd, 0, 0, 0, 2, 0, 0, 0, 1, 7, 0,
    ];
    let Ok(view) = read_record(&bytes, &small(), 1) else {
        return Err(Fail::from(Memory));
    };
    let index = index_of(rt.alloc(), &view, 100)?;
    same(&rt, index.count(), 2);
    same(&rt, index.showing(0).len(), 0);
    same(&rt, index.showing(1), [version(128, 3, 2)].as_slice());
    same(&rt, index.showing(2), [version(138, 0, 1)].as_slice());
    Ok(())
}
