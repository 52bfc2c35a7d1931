// What no clause says of groups: what they are answered with ample memory. An image has four blocks of 64 bytes and logs of 256 bytes.
ghost use Rattle.std.specs.Prelude.{◌≡◌, ◌<◌, IfOk};
ghost use Rattle.iso_memdisk.specs.MemDisk.{state_of};
ghost use Rattle.test_cores.specs.Cores.{HasDone, IsIdle};

use crate::core_tests::{Shown, shows};
use crate::form_tests::same;
use iso_core::{Core, GroupEnd};
use iso_memdisk::MemDisk;
use iso_model::{Clash, CoreError, Geometry, GroupReply, Memory};
use std::alloc::Global;
use std::test::Fail;
use test_cores::{filling, formatted, opened, small};
use tx_table::Work;

/// The work of a transaction that reads block 0 and then fills block 1 with nines.
fn reading(alloc: Global, at: u64, geometry: &Geometry) -> Result<Work, Memory>
    requires size { geometry.now.block ≡ 64 }
    requires inside { 1 < geometry.now.blocks }
    ensures { IfOk result (HasDone geometry.now at) }
{
    let mut work = Work::begin(alloc, at, geometry);
    let mut bytes = [0u8; 64];
    work.reserve(0)?;
    work.read(0, &mut bytes);
    work.reserve(1)?;
    work.write(1, &[9; 64]);
    Ok(work)
}

/// What a group of two is answered: its answer, and the replies of its members.
type Answers = (
    Result<(), CoreError>,
    Option<GroupReply>,
    Option<GroupReply>,
);

/// The answers to a group of two: the first member fills block 0 with sevens, the second block 1 with nines, after a read of block 0.
fn group_of(alloc: Global, core: &mut Core<MemDisk>) -> Result<Answers, Memory>
    requires idle { IsIdle state_of core.old }
{
    let geometry = core.geometry();
    if geometry.block != 64 || geometry.blocks < 2 {
        return Err(Memory);
    }
    let Ok(first) = core.begin(None) else {
        return Err(Memory);
    };
    let Ok(second) = core.begin(None) else {
        return Err(Memory);
    };
    let one = filling(alloc, first.at, &geometry, 0, 7)?;
    let two = reading(alloc, second.at, &geometry)?;
    let mut ends = [
        GroupEnd {
            tx: first.tx,
            work: one,
            reply: None,
        },
        GroupEnd {
            tx: second.tx,
            work: two,
            reply: None,
        },
    ];
    let answer = core.end_group(&mut ends);
    Ok((answer, ends[0].reply, ends[1].reply))
}

/// The same on a disk that is opened, and whether the image shows this then.
fn grouped_on(alloc: Global, disk: MemDisk, shown: Shown) -> Option<(Answers, bool)> {
    match opened(alloc, disk) {
        Ok(mut core) => match group_of(alloc, &mut core) {
            Ok(answers) => Some((answers, shows(alloc, core.into_disk(), shown))),
            Err(_) => None,
        },
        Err(_disk) => None,
    }
}

#[test]
fn a_member_conflicts_with_one_before_it(rt: HostRuntime) -> Result<(), Fail> {
    let alloc = rt.alloc();
    let clash = Clash {
        commit: 1,
        block: 0,
        at: 0,
    };
    let wanted = (
        Ok(()),
        Some(GroupReply::Committed(1)),
        Some(GroupReply::Conflict(clash)),
    );
    let found = grouped_on(alloc, formatted(alloc, &small())?, (1, 0, 1, [7, 0, 0, 0]));
    same(&rt, found, Some((wanted, true)));
    Ok(())
}
