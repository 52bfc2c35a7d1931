// What no clause says of cores: which calls of the disk they make, and that they succeed with ample memory; and what is left where a call
// fails alone, or where the disk stops there. An image has four blocks of 64 bytes and logs of 256 bytes. Only what borrows a disk or a
// core may return early: one that owns it drops it at each of its exits, and each of these drops is proved.
ghost use Rattle.std.specs.Prelude.{IsErrOf};
ghost use Rattle.iso_memdisk.specs.MemDisk.{state_of};
ghost use Rattle.recover_tests.specs.Cores.{IsDown, IsUp};
ghost use Rattle.test_cores.specs.Cores.{IsIdle};

use crate::form_tests::same;
use iso_core::Core;
use iso_memdisk::CallKind::{self, Read, Sync, Write};
use iso_memdisk::MemDisk;
use iso_model::{CoreError, EndReply, Memory};
use iso_recover::{OpenError, open_image};
use std::alloc::Global;
use std::process::Abort;
use std::test::Fail;
use test_cores::{change, ended_on, formatted, opened, small, zeros};

/// The answer to a compaction, or to one with an upgrade. The core is down where it is a fault of the disk.
fn switch(core: &mut Core<MemDisk>, upgrade: bool) -> Result<u64, CoreError>
    requires up { IsUp state_of core.old }
    ensures lost { IsErrOf result CoreError.Disk → IsDown state_of core.new }
{
    if upgrade {
        core.upgrade()
    } else {
        core.compact()
    }
}

/// Whether a core that is down says so, and refuses each call that takes no transaction.
fn refuses_each_call(core: &mut Core<MemDisk>) -> bool
    requires down { IsDown state_of core.old }
{
    let said = core.stat().down;
    let begin = core.begin(None) == Err(CoreError::Down);
    let trim = core.trim() == Err(CoreError::Down);
    let compact = core.compact() == Err(CoreError::Down);
    let upgrade = core.upgrade() == Err(CoreError::Down);
    said && begin && trim && compact && upgrade
}

/// A fault, where what follows it is right.
fn fault_if(right: bool) -> Result<u64, CoreError> {
    if right {
        Err(CoreError::Disk)
    } else {
        Ok(u64::MAX)
    }
}

/// The answer to a switch of a disk that is opened, and the disk. A fault is an answer only where the core then refuses each call.
fn switched_on(alloc: Global, disk: MemDisk, upgrade: bool) -> (Result<u64, CoreError>, MemDisk) {
    match opened(alloc, disk) {
        Ok(mut core) => {
            let answer = match switch(&mut core, upgrade) {
                Err(CoreError::Disk) => fault_if(refuses_each_call(&mut core)),
                other => other,
            };
            (answer, core.into_disk())
        }
        Err(disk) => (Err(CoreError::Down), disk),
    }
}

/// A block, as the last commit left it.
fn block_of(core: &mut Core<MemDisk>, block: u32) -> Option<[u8; 64]>
    requires idle { IsIdle state_of core.old }
{
    let geometry = core.geometry();
    if geometry.block != 64 || block >= geometry.blocks {
        return None;
    }
    let begun = match core.begin(None) {
        Ok(begun) => begun,
        Err(_) => return None,
    };
    let mut bytes = [0u8; 64];
    core.fetch(begun.tx, block, &mut bytes).ok()?;
    Some(bytes)
}

/// The last number, the base number, the form and a block of a disk that is opened, and the disk.
fn seen_on(
    alloc: Global,
    disk: MemDisk,
    block: u32,
) -> (Option<(u64, u64, u8, [u8; 64])>, MemDisk) {
    match opened(alloc, disk) {
        Ok(mut core) => {
            let stat = core.stat();
            let form = core.geometry().form;
            let found = match block_of(&mut core, block) {
                Some(bytes) => Some((stat.last, stat.base, form, bytes)),
                None => None,
            };
            (found, core.into_disk())
        }
        Err(disk) => (None, disk),
    }
}

/// The last number, the base number and the form of an image, and the byte that fills each of its blocks.
pub(crate) type Shown = (u64, u64, u8, [u8; 4]);

/// Whether a disk is opened to this.
pub(crate) fn shows(alloc: Global, disk: MemDisk, (last, base, form, blocks): Shown) -> bool {
    let mut disk = disk;
    let mut all = true;
    for (block, byte) in blocks.iter().enumerate() {
        let (found, back) = seen_on(alloc, disk, block as u32);
        disk = back;
        all = all && found == Some((last, base, form, [*byte; 64]));
    }
    all
}

/// Whether the image that a crash leaves with this pick is opened to this.
fn leaves(alloc: Global, disk: &MemDisk, pick: u64, shown: Shown) -> bool {
    match disk.crash(alloc, pick) {
        Ok(image) => shows(alloc, MemDisk::new(alloc, image), shown),
        Err(_) => false,
    }
}

/// What is done with a disk that is opened.
#[derive(Clone, Copy)]
enum Act {
    /// A transaction that fills a block with one byte.
    Fill(u32, u8),
    Compact,
    Upgrade,
}

/// The number of a commit.
fn number_of(reply: Result<EndReply, CoreError>) -> Result<u64, CoreError> {
    match reply {
        Ok(EndReply::Committed(number)) => Ok(number),
        Ok(_) => Ok(u64::MAX),
        Err(error) => Err(error),
    }
}

/// The answer, and the disk. None where memory is wanting.
fn acted_on(alloc: Global, disk: MemDisk, act: Act) -> Option<(Result<u64, CoreError>, MemDisk)> {
    match act {
        Act::Fill(block, byte) => match ended_on(alloc, disk, block, byte) {
            Ok((reply, disk)) => Some((number_of(reply), disk)),
            Err(_) => None,
        },
        Act::Compact => Some(switched_on(alloc, disk, false)),
        Act::Upgrade => Some(switched_on(alloc, disk, true)),
    }
}

/// Which calls of a disk fail.
#[derive(Clone, Copy)]
enum Failing {
    Never,
    /// The one of this number of a kind, alone.
    Alone(CallKind, u64),
    /// All behind so many.
    Behind(u64),
}

/// The answer on a disk with this image whose calls fail so, and the disk.
fn tried(
    alloc: Global,
    image: &[u8],
    failing: Failing,
    act: Act,
) -> Option<(Result<u64, CoreError>, MemDisk)> {
    match image.to_vec(alloc) {
        Ok(bytes) => {
            let mut disk = MemDisk::new(alloc, bytes);
            match failing {
                Failing::Never => {}
                Failing::Alone(kind, number) => disk.fail_kind(kind, number),
                Failing::Behind(calls) => disk.fuse(calls),
            }
            acted_on(alloc, disk, act)
        }
        Err(_) => None,
    }
}

/// The image that it leaves where nothing fails.
fn image_after(alloc: Global, image: &[u8], act: Act) -> Result<Vec<u8>, Memory> {
    match tried(alloc, image, Failing::Never, act) {
        Some((_answer, disk)) => disk.crash(alloc, 0),
        None => Err(Memory),
    }
}

/// A new image.
pub(crate) fn new_image(alloc: Global) -> Result<Vec<u8>, Memory> {
    match formatted(alloc, &small()) {
        Ok(disk) => disk.crash(alloc, 0),
        Err(memory) => Err(memory),
    }
}

/// One thing that is done with an image: what the image shows before, the calls of the disk, each with its number among those of its
/// kind, and what the image shows after, whose last number is answered.
#[derive(Drop)]
struct Row {
    before: Shown,
    calls: &'static [(CallKind, u64)],
    act: Act,
    after: Shown,
}

/// What an image shows, and what is done with it by the same calls of the disk: the name, the act, and what the image shows after it.
struct Stage {
    before: Shown,
    calls: &'static [(CallKind, u64)],
    acts: &'static [(&'static str, Act, Shown)],
}

/// How many of the calls open the image: it is made stable, and read as far as its records.
const OPENING: usize = 5;

/// A commit behind the opening: the record, behind a closed gate, and then its gate.
const COMMIT: &[(CallKind, u64)] = &[
    (Sync, 1),
    (Read, 1),
    (Read, 2),
    (Read, 3),
    (Read, 4),
    (Write, 1),
    (Sync, 2),
    (Write, 2),
    (Sync, 3),
];

/// A switch to a closed half: its gate, the base and the log of the other half are read; its base, header and records are written; then
/// its gate.
const SWITCH: &[(CallKind, u64)] = &[
    (Sync, 1),
    (Read, 1),
    (Read, 2),
    (Read, 3),
    (Read, 4),
    (Read, 5),
    (Read, 6),
    (Read, 7),
    (Write, 1),
    (Write, 2),
    (Write, 3),
    (Sync, 2),
    (Write, 4),
    (Sync, 3),
];

/// And to an open one, whose gate is closed first.
const SWITCH_WITH_A_CLOSE: &[(CallKind, u64)] = &[
    (Sync, 1),
    (Read, 1),
    (Read, 2),
    (Read, 3),
    (Read, 4),
    (Read, 5),
    (Write, 1),
    (Sync, 2),
    (Read, 6),
    (Read, 7),
    (Write, 2),
    (Write, 3),
    (Write, 4),
    (Sync, 3),
    (Write, 5),
    (Sync, 4),
];

/// An image whose commit 1 filled block 2 with sevens.
const ON_ONE: Stage = Stage {
    before: (1, 0, 1, [0, 0, 7, 0]),
    calls: COMMIT,
    acts: &[("a commit", Act::Fill(1, 9), (2, 0, 1, [0, 9, 7, 0]))],
};

/// One that has a second commit too.
const ON_TWO: Stage = Stage {
    before: (2, 0, 1, [0, 9, 7, 0]),
    calls: SWITCH,
    acts: &[
        ("a compaction", Act::Compact, (2, 2, 1, [0, 9, 7, 0])),
        ("an upgrade", Act::Upgrade, (2, 2, 2, [0, 9, 7, 0])),
    ],
};

/// One whose other half is open: after a compaction.
const ON_COMPACTED: Stage = Stage {
    before: (2, 2, 1, [0, 9, 7, 0]),
    calls: SWITCH_WITH_A_CLOSE,
    acts: &[
        (
            "a compaction to an open half",
            Act::Compact,
            (2, 2, 1, [0, 9, 7, 0]),
        ),
        (
            "an upgrade to an open half",
            Act::Upgrade,
            (2, 2, 2, [0, 9, 7, 0]),
        ),
    ],
};

/// Whether it is answered with its number and makes its calls where nothing fails, and is stable then.
fn is_done(alloc: Global, image: &[u8], row: &Row) -> bool {
    match tried(alloc, image, Failing::Never, row.act) {
        Some((answer, disk)) => {
            let made = disk.calls() == row.calls.len() as u64;
            let stable = leaves(alloc, &disk, 0, row.after);
            answer == Ok(row.after.0) && made && stable && shows(alloc, disk, row.after)
        }
        None => false,
    }
}

/// Whether each image of a crash shows what was before, or what comes after where its gate was written.
fn loses_nothing(alloc: Global, disk: &MemDisk, row: &Row, written: bool) -> bool {
    let left = if written { row.after } else { row.before };
    let mut all = leaves(alloc, disk, 0, row.before) && leaves(alloc, disk, 1, left);
    for pick in 2..6 {
        let old = leaves(alloc, disk, pick, row.before);
        all = all && (old || (written && leaves(alloc, disk, pick, row.after)));
    }
    all
}

/// Whether a failure of the call behind `before` others is answered, is the last call, and loses nothing: neither for those who open an
/// image of a crash, nor for those who go on with the disk.
fn is_harmless(alloc: Global, image: &[u8], row: &Row, before: usize, failing: Failing) -> bool {
    let written = before.saturating_add(1) == row.calls.len();
    let left = if written { row.after } else { row.before };
    // The image is not opened, or the fault is told.
    let wanted = if before < OPENING {
        CoreError::Down
    } else {
        CoreError::Disk
    };
    match tried(alloc, image, failing, row.act) {
        Some((answer, disk)) => {
            let mut disk = disk;
            let made = disk.calls() == (before as u64).saturating_add(1);
            let kept = loses_nothing(alloc, &disk, row, written);
            disk.fuse(u64::MAX);
            answer == Err(wanted) && made && kept && shows(alloc, disk, left)
        }
        None => false,
    }
}

/// How many of the calls fail to no harm, each alone, before the first one that does harm; and the same of stops there.
fn harmless(alloc: Global, image: &[u8], row: &Row) -> (usize, usize) {
    let (mut alone, mut stopped) = (0, 0);
    for (before, (kind, number)) in row.calls.iter().enumerate() {
        let at = Failing::Alone(*kind, *number);
        if alone == before && is_harmless(alloc, image, row, before, at) {
            alone = before.saturating_add(1);
        }
        let behind = Failing::Behind(before as u64);
        if stopped == before && is_harmless(alloc, image, row, before, behind) {
            stopped = before.saturating_add(1);
        }
    }
    (alone, stopped)
}

/// What is done with an image makes its calls, and loses nothing where one of them fails.
fn holds(rt: &impl Abort, alloc: Global, image: &[u8], stage: &Stage) {
    let calls = stage.calls.len();
    for (name, act, after) in stage.acts {
        let row = Row {
            before: stage.before,
            calls: stage.calls,
            act: *act,
            after: *after,
        };
        let found = (is_done(alloc, image, &row), harmless(alloc, image, &row));
        same(rt, (*name, found), (*name, (true, (calls, calls))));
    }
}

#[test]
fn no_failure_in_a_commit_or_a_switch_loses_anything(rt: HostRuntime) -> Result<(), Fail> {
    let alloc = rt.alloc();
    let image = image_after(alloc, &new_image(alloc)?, Act::Fill(2, 7))?;
    holds(&rt, alloc, &image, &ON_ONE);
    let image = image_after(alloc, &image, Act::Fill(1, 9))?;
    holds(&rt, alloc, &image, &ON_TWO);
    let image = image_after(alloc, &image, Act::Compact)?;
    holds(&rt, alloc, &image, &ON_COMPACTED);
    Ok(())
}

#[test]
fn an_image_at_the_last_number_is_worn(rt: HostRuntime) -> Result<(), Fail> {
    let alloc = rt.alloc();
    let mut image = new_image(alloc)?;
    change(&mut image, 80, &[0x7f, 255, 255, 255, 255, 255, 255, 255]);
    let worn = CoreError::Worn {
        at: 9_223_372_036_854_775_807,
    };
    let found = match tried(alloc, &image, Failing::Never, Act::Fill(1, 9)) {
        Some((answer, _disk)) => answer,
        None => Ok(0),
    };
    same(&rt, found, Err(worn));
    Ok(())
}

/// Why a disk is not opened, if it is not, and how many calls of it were made by then.
fn calls_to_open(alloc: Global, disk: MemDisk) -> (Option<OpenError>, u64) {
    match open_image(alloc, disk) {
        Ok(core) => {
            let disk = core.into_disk();
            (None, disk.calls())
        }
        Err((error, disk)) => (Some(error), disk.calls()),
    }
}

#[test]
fn a_refusal_hands_the_disk_back(rt: HostRuntime) -> Result<(), Fail> {
    let alloc = rt.alloc();
    let disk = MemDisk::new(alloc, zeros(alloc, 1152)?);
    let refused = (Some(OpenError::NotIsotope), 2);
    same(&rt, calls_to_open(alloc, disk), refused);
    Ok(())
}
