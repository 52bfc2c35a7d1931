// What an adopt answers of two sides, and what a mirror does once both have failed.
use crate::asked::same;
use iso_disk::{Disk, Image};
use iso_memdisk::{CallKind, MemDisk};
use mirror_disk::{Mirror, MirrorError};
use std::alloc::{AllocError, Global};
use std::test::Fail;
use top_calls::{Fault, change, faulty};

/// The bytes of one side of a new mirror of eight bytes, which are these.
fn side_of(alloc: Global, bytes: &[u8]) -> Result<Vec<u8>, AllocError> {
    let mut side = vec![in alloc; 0; 64]?;
    change(&mut side, 0, b"ISOMIRR1");
    change(&mut side, 16, &[1]);
    change(&mut side, 31, &[1]);
    side.extend_from_slice(bytes)?;
    Ok(side)
}

/// Why an adopt refused two sides, if it did, and which of them are in use then.
fn adopted(first: MemDisk, second: MemDisk) -> (Option<MirrorError>, (bool, bool)) {
    match Mirror::adopt(first, second) {
        Ok(mirror) => (None, mirror.sides()),
        Err((error, _first, _second)) => (Some(error), (false, false)),
    }
}

#[test]
fn both_sides_are_in_use_behind_an_adopt(rt: HostRuntime) -> Result<(), Fail> {
    let alloc = rt.alloc();
    let first = MemDisk::new(alloc, side_of(alloc, b"one text")?);
    let second = MemDisk::new(alloc, side_of(alloc, b"two text")?);
    same(&rt, adopted(first, second), (None, (true, true)));
    Ok(())
}

#[test]
fn a_side_that_cannot_be_written_is_left_out(rt: HostRuntime) -> Result<(), Fail> {
    let alloc = rt.alloc();
    let first = MemDisk::new(alloc, side_of(alloc, b"one text")?);
    let fault = Fault::OfKind(CallKind::Write, 1);
    let second = faulty(alloc, &side_of(alloc, b"two text")?, fault)?;
    same(&rt, adopted(first, second), (None, (true, false)));
    Ok(())
}

#[test]
fn zeros_are_no_mirror(rt: HostRuntime) -> Result<(), Fail> {
    let alloc = rt.alloc();
    let first = MemDisk::new(alloc, vec![in alloc; 0; 72]?);
    let second = MemDisk::new(alloc, side_of(alloc, b"two text")?);
    let (error, _used) = adopted(first, second);
    same(&rt, error, Some(MirrorError::NotMirror { side: 0 }));
    Ok(())
}

#[test]
fn sides_of_other_lengths_are_refused(rt: HostRuntime) -> Result<(), Fail> {
    let alloc = rt.alloc();
    let first = side_of(alloc, b"one text")?;
    let second = side_of(alloc, b"longer text")?;
    let (error, _used) = adopted(MemDisk::new(alloc, first), MemDisk::new(alloc, second));
    same(
        &rt,
        error,
        Some(MirrorError::SizesDiffer {
            first: 72,
            second: 75,
        }),
    );
    Ok(())
}

#[test]
fn a_broken_mirror_fails_without_asking(rt: HostRuntime) -> Result<(), Fail> {
    let alloc = rt.alloc();
    let first = faulty(alloc, b"", Fault::Behind(3))?;
    let second = faulty(alloc, b"", Fault::Behind(3))?;
    let mut mirror = Mirror::of(first, second);
    same(&rt, mirror.bind("m+", Some(8)).is_ok(), true);
    same(&rt, mirror.sides(), (true, true));
    // What follows rests on this.
    assert_eq!(rt; mirror.size(), 8);
    same(&rt, mirror.write(0, b"text").is_ok(), false);
    same(&rt, mirror.sides(), (false, false));
    let mut text = [0; 4];
    same(&rt, mirror.read(0, &mut text).is_ok(), false);
    same(&rt, mirror.sync().is_ok(), false);
    let (first, second) = mirror.into_sides();
    same(&rt, first.calls(), 4);
    same(&rt, second.calls(), 4);
    Ok(())
}
