ghost use Rattle.std.specs.Prelude.{◌≡◌, ◌<◌, ℕ, IfOk, length};
ghost use Rattle.mv_index.specs.{Moves.AreSplit, Shown.AllLie, Versions.{AreAtMost, versions_in}};

use crate::marks_tests::same;
use counts::Steps;
use iso_model::Memory;
use mv_index::{MvIndex, Version};
use std::alloc::Global;
use std::marker::Brand;
use std::process::Abort;
use std::sync::ledger::{Blank, Ledger};
use std::test::Fail;

/// An index of one block of 64 bytes, and the last number in it.
#[derive(Drop)]
struct OneBlock {
    index: MvIndex,
    last: u64,
    ghost blocks: { length index ≡ 1 },
    ghost most: { AreAtMost last (versions_in index 0) },
}

impl OneBlock {
    fn empty(alloc: Global) -> Result<OneBlock, Fail> {
        Ok(OneBlock {
            index: MvIndex::empty(alloc, 1)?,
            last: 0,
        })
    }

    // Adds a version of `len` bytes from byte `off` on, the first of which lies at this place.
    fn add(
        &mut self,
        rt: &impl Abort,
        number: u64,
        place: u64,
        off: u16,
        len: u16,
    ) -> Result<(), Fail> {
        assert!(rt; number >= self.last && place < 1_000_000);
        assert!(rt; off <= 64 && len <= 64 && self.index.count() < 1000);
        self.index.reserve(0, 1)?;
        self.index.add(
            0,
            Version {
                number,
                place,
                off,
                len,
            },
        );
        self.last = number;
        Ok(())
    }

    fn trim(&mut self, number: u64) -> u64 {
        self.index.trim_to(number)
    }

    // How many versions are at or below the number, and the numbers of the first and the last of them.
    fn found_by<L: Ledger>(&self, blank: Blank, at: u64) -> (usize, u64, u64)
        requires name { blank.name ≡ L.name }
        requires parts { blank.parts ≡ L.parts }
        requires some { 0 < L.parts }
    {
        let mut steps = Steps::<L>::start(blank);
        match self.index.find(0, at, &mut steps) {
            [] => (0, 0, 0),
            [one] => (1, one.number, one.number),
            [first, between @ .., last] => (between.len() + 2, first.number, last.number),
        }
    }

    fn found(&self, at: u64) -> (usize, u64, u64) {
        self.found_by::<Brand>(Blank::new(1), at)
    }

    // How many pieces have a byte of the block from one up to another, and the first bytes of the first and the last of them.
    fn met(&self, rt: &impl Abort, from: u16, to: u16) -> (usize, u16, u16) {
        assert!(rt; from <= to);
        match self.index.showing_in(0, from, to) {
            [] => (0, 0, 0),
            [one] => (1, one.off, one.off),
            [first, between @ .., last] => (between.len() + 2, first.off, last.off),
        }
    }

    // Where the byte is by the pieces. It is in one of them at most.
    fn shown(&self, rt: &impl Abort, at: u16) -> Option<u64> {
        let mut place = None;
        for piece in self.index.showing(0) {
            if piece.off <= at && at - piece.off < piece.len {
                assert!(rt; place.is_none());
                place = Some(piece.place.wrapping_add(u64::from(at - piece.off)));
            }
        }
        place
    }
}

// A block with these versions: the number, the place, the first byte and how many.
fn filled(
    rt: &impl Abort,
    alloc: Global,
    versions: &[(u64, u64, u16, u16)],
) -> Result<OneBlock, Fail> {
    let mut block = OneBlock::empty(alloc)?;
    for (number, place, off, len) in versions {
        block.add(rt, *number, *place, *off, *len)?;
    }
    Ok(block)
}

#[test]
fn finds_the_versions_at_or_below_a_number(rt: HostRuntime) -> Result<(), Fail> {
    for count in [0, 1, 2, 100] {
        let mut block = OneBlock::empty(rt.alloc())?;
        for number in 1..=count {
            block.add(&rt, number, 8 * number, 3, 5)?;
        }
        same(&rt, block.index.count(), count);
        same(&rt, block.found(0), (0, 0, 0));
        for number in 1..=count {
            same(&rt, block.found(number), (number as usize, 1, number));
        }
        same(&rt, block.found(u64::MAX).0, count as usize);
    }
    Ok(())
}

#[test]
fn finds_all_versions_of_one_number(rt: HostRuntime) -> Result<(), Fail> {
    let block = filled(
        &rt,
        rt.alloc(),
        &[
            (2, 100, 0, 1),
            (2, 109, 10, 1),
            (2, 118, 20, 1),
            (5, 200, 0, 1),
            (5, 209, 63, 1),
        ],
    )?;
    same(&rt, block.found(1), (0, 0, 0));
    same(&rt, block.found(2), (3, 2, 2));
    same(&rt, block.found(4), (3, 2, 2));
    same(&rt, block.found(5), (5, 2, 5));
    Ok(())
}

#[test]
fn a_trim_keeps_what_still_shows_one_byte(rt: HostRuntime) -> Result<(), Fail> {
    let mut block = filled(
        &rt,
        rt.alloc(),
        &[(1, 100, 0, 10), (2, 200, 0, 9), (3, 300, 9, 1)],
    )?;
    same(&rt, block.trim(2), 0);
    same(&rt, block.found(9), (3, 1, 3));
    same(&rt, block.trim(3), 1);
    same(&rt, block.index.count(), 2);
    same(&rt, block.found(1), (0, 0, 0));
    same(&rt, block.found(9), (2, 2, 3));
    same(&rt, block.shown(&rt, 8), Some(208));
    same(&rt, block.shown(&rt, 9), Some(300));
    Ok(())
}

#[test]
fn a_trim_drops_up_to_its_number_alone(rt: HostRuntime) -> Result<(), Fail> {
    let all = [
        (1, 100, 0, 64),
        (2, 200, 0, 64),
        (3, 300, 0, 64),
        (4, 400, 0, 64),
        (5, 500, 0, 64),
    ];
    let mut block = filled(&rt, rt.alloc(), &all)?;
    same(&rt, block.trim(0), 0);
    same(&rt, block.trim(3), 2);
    same(&rt, block.found(9), (3, 3, 5));
    same(&rt, block.trim(3), 0);
    same(&rt, block.trim(u64::MAX), 2);
    same(&rt, block.found(9), (1, 5, 5));
    Ok(())
}

#[test]
fn pieces_are_cut_where_later_versions_write(rt: HostRuntime) -> Result<(), Fail> {
    let mut block = filled(
        &rt,
        rt.alloc(),
        &[(1, 100, 0, 10), (2, 200, 3, 2), (3, 300, 4, 4)],
    )?;
    same(&rt, block.index.showing(0).len(), 4);
    for (at, place) in [
        (0, Some(100)),
        (2, Some(102)),
        (3, Some(200)),
        (4, Some(300)),
        (7, Some(303)),
        (8, Some(108)),
        (9, Some(109)),
        (10, None),
    ] {
        same(&rt, (at, block.shown(&rt, at)), (at, place));
    }
    block.add(&rt, 4, 400, 0, 10)?;
    same(&rt, block.index.showing(0).len(), 1);
    same(&rt, block.shown(&rt, 9), Some(409));
    Ok(())
}

#[test]
fn a_version_takes_the_place_of_pieces(rt: HostRuntime) -> Result<(), Fail> {
    let mut block = filled(
        &rt,
        rt.alloc(),
        &[
            (1, 300, 16, 4),
            (2, 100, 0, 4),
            (3, 200, 8, 2),
            (4, 250, 10, 2),
        ],
    )?;
    block.add(&rt, 5, 400, 2, 16)?;
    let offs = [(0, 2, 100), (2, 16, 400), (18, 2, 302)];
    same(&rt, block.index.showing(0).len(), 3);
    for (piece, (off, len, place)) in block.index.showing(0).iter().zip(offs) {
        same(&rt, (piece.off, piece.len, piece.place), (off, len, place));
    }
    Ok(())
}

#[test]
fn a_range_is_met_by_the_pieces_with_a_byte_in_it(rt: HostRuntime) -> Result<(), Fail> {
    let block = filled(
        &rt,
        rt.alloc(),
        &[
            (1, 100, 4, 2),
            (2, 110, 8, 2),
            (3, 120, 12, 2),
            (4, 130, 16, 2),
        ],
    )?;
    same(&rt, block.met(&rt, 0, 64), (4, 4, 16));
    same(&rt, block.met(&rt, 5, 17), (4, 4, 16));
    same(&rt, block.met(&rt, 6, 16), (2, 8, 12));
    same(&rt, block.met(&rt, 9, 10), (1, 8, 8));
    same(&rt, block.met(&rt, 10, 12), (0, 0, 0));
    same(&rt, block.met(&rt, 0, 4), (0, 0, 0));
    same(&rt, block.met(&rt, 18, 64), (0, 0, 0));
    Ok(())
}

#[test]
fn each_block_has_its_own_versions(rt: HostRuntime) -> Result<(), Fail> {
    let mut index = MvIndex::empty(rt.alloc(), 3)?;
    index.reserve(2, 5)?;
    let version = Version {
        number: 7,
        place: 70,
        off: 4095,
        len: 1,
    };
    index.add(2, version);
    same(&rt, index.showing(0).len(), 0);
    same(&rt, index.showing(1).len(), 0);
    same(&rt, index.showing(2), [version].as_slice());
    same(&rt, index.count(), 1);
    same(&rt, index.trim_to(7), 0);
    Ok(())
}

// An index of one block with two versions, before and after the place 150.
fn two(alloc: Global) -> Result<MvIndex, Memory>
    ensures blocks { IfOk result (λ index. length index ≡ 1) }
    ensures split { IfOk result (λ index. (b : ℕ) → AreSplit 150 (versions_in index b)) }
    ensures lie { IfOk result (λ index. (b : ℕ) → AllLie 64 300 (versions_in index b)) }
    ensures count { IfOk result (λ index. length (versions_in index 0) ≡ 2) }
{
    let mut index = MvIndex::empty(alloc, 1)?;
    index.reserve(0, 2)?;
    index.add(
        0,
        Version {
            number: 1,
            place: 100,
            off: 0,
            len: 10,
        },
    );
    index.add(
        0,
        Version {
            number: 2,
            place: 200,
            off: 4,
            len: 4,
        },
    );
    Ok(index)
}

#[test]
fn later_versions_move_alone(rt: HostRuntime) -> Result<(), Fail> {
    let mut index = two(rt.alloc())?;
    same(&rt, index.showing(0).len(), 3);
    same(&rt, index.move_to(150, 1000), 1);
    same(&rt, index.count(), 1);
    let moved = Version {
        number: 2,
        place: 1050,
        off: 4,
        len: 4,
    };
    same(&rt, index.showing(0), [moved].as_slice());
    Ok(())
}

#[test]
fn parts_take_their_bytes_and_eight(rt: HostRuntime) -> Result<(), Fail> {
    let index = two(rt.alloc())?;
    same(&rt, index.bytes_above(0), 30);
    same(&rt, index.bytes_above(1), 12);
    same(&rt, index.bytes_above(2), 0);
    Ok(())
}
