// Groups over a device in memory, in two threads and in one. The image has four blocks of 64 bytes and logs of 4,096 bytes.
ghost use Rattle.std.specs.Prelude.{◌≡◌, ◌<◌, ◌≤◌, [], length, vec_capacity};
ghost use denote.Param.Send.{IsSync};
ghost use Rattle.iso_memdisk.specs.MemDisk.{state_of};
ghost use Rattle.iso_shared.specs.{Ports.{IsPort, port_view}, TestImage.{small, MayStart}};
ghost use Rattle.handle_pass.specs.Sessions.{device_of};
ghost use Rattle.group_commit.specs.Groups.{AreMembers};

use crate::same::same;
use crate::small_image::core_failing;
use group_commit::commit_group;
use handle_pass::Session;
use iso_core::Core;
use iso_memdisk::MemDisk;
use iso_model::{Clash, CoreError, GroupReply, Label, LabelReplies};
use iso_shared::{Origin, Port, Shared, Tx};
use std::alloc::Global;
use std::marker::Brand;
use std::sync::Wait;
use std::test::Fail;
use std::thread::{Threads, join_mut};

/// A transaction under a label that has written a block, and may have read the first one before.
fn posted<O: Origin, R: Wait>(
    rt: &R,
    session: &mut Session<MemDisk, O>,
    reads: bool,
    block: u32,
    label: Label,
) -> Option<()>
    requires units { 1 < session.old.units }
    requires image { O.start.world.geometry ≡ small }
    ensures device { session.new.device ≡ session.old.device }
{
    session.begin_tx(rt, None).ok()?;
    if reads {
        let mut bytes = [0; 64];
        session.read_block(rt, 0, &mut bytes).ok()?;
    }
    session.write_block(block, &[7; 64]).ok()?;
    session.post_tx(rt, label).ok()
}

/// What is held under the two labels and under one more, place by place. Each look takes one of the port's units.
fn looked<O: Origin, R: Wait>(
    rt: &R,
    shared: &Shared<MemDisk, O>,
    port: &mut Port<MemDisk, O>,
    labels: &[Label; 3],
    members: &mut Vec<Option<Tx<MemDisk, O>>>,
)
    requires port { IsPort shared.now port.old × (16 < (port_view port.old).units) }
    requires members { members.old.items ≡ [] }
    requires room { 3 ≤ vec_capacity members.old }
    ensures port { IsPort shared.now port.new }
    ensures members { AreMembers shared.now O.start members.new.items × (length members.new.items ≡ 3) }
{
    let first = shared.look(rt, port, &labels[0]);
    let second = shared.look(rt, port, &labels[1]);
    let third = shared.look(rt, port, &labels[2]);
    members.push_reserved(first);
    members.push_reserved(second);
    members.push_reserved(third);
}

/// A group of these, through a port that is split off a session and joined back.
fn grouped<O: Origin, R: Wait>(
    rt: &R,
    alloc: Global,
    shared: &Shared<MemDisk, O>,
    session: &mut Session<MemDisk, O>,
    labels: &[Label; 3],
) -> Result<LabelReplies, CoreError>
    requires units { 33 < session.old.units }
    requires device { session.old.device ≡ device_of shared.now }
    ensures device { session.new.device ≡ session.old.device }
{
    let mut members = Vec::new(alloc);
    if let Err(_) = members.reserve(3) {
        members.destroy_empty();
        return Err(CoreError::Memory);
    }
    let mut port = session.split_port();
    looked(rt, shared, &mut port, labels, &mut members);
    let told = commit_group(rt, alloc, shared, &mut port, members);
    session.join_port(port);
    told
}

/// How many replies there are to a group, and the first three.
type Replies = (usize, [Option<Option<GroupReply>>; 3]);

/// What a group was told; the last commit and the live transactions behind it, and whether the device is down.
type Told = (Result<Replies, CoreError>, (u64, u32, bool));

/// The replies by themselves.
fn replies_of(told: Result<LabelReplies, CoreError>) -> Result<Replies, CoreError> {
    match told {
        Ok(replies) => Ok((
            replies.len(),
            [
                replies.get(0).copied(),
                replies.get(1).copied(),
                replies.get(2).copied(),
            ],
        )),
        Err(error) => Err(error),
    }
}

/// Two transactions are put under labels in two threads; then a third session ends them as a group. The second one may read what
/// the first one writes.
fn across<O: Origin + Send + Sync, R: Threads + Wait + Sync>(
    rt: &R,
    first: &mut Session<MemDisk, O>,
    second: &mut Session<MemDisk, O>,
    reads: bool,
) -> Option<()>
    requires first { 1 < first.old.units }
    requires second { 1 < second.old.units }
    requires image { O.start.world.geometry ≡ small }
{
    let (one, two) = join_mut(
        rt,
        &mut || -> Option<()>
            requires { IsSync R.row × (1 < first.now.units) × (O.start.world.geometry ≡ small) }
        { posted(rt, first, false, 0, Label::new(b"a")?) },
        &mut || -> Option<()>
            requires { IsSync R.row × (1 < second.now.units) × (O.start.world.geometry ≡ small) }
        { posted(rt, second, reads, 1, Label::new(b"b")?) },
    );
    one?;
    two
}

/// What the third session is told of the group, and what the device has behind it.
fn ended<O: Origin, R: Wait>(
    rt: &R,
    alloc: Global,
    shared: &Shared<MemDisk, O>,
    session: &mut Session<MemDisk, O>,
) -> Option<Told>
    requires session { (33 < session.old.units) × (session.old.device ≡ device_of shared.now) }
{
    let labels = [Label::new(b"a")?, Label::new(b"zz")?, Label::new(b"b")?];
    let told = replies_of(grouped(rt, alloc, shared, session, &labels));
    let stat = session.stat(rt);
    Some((told, (stat.last, stat.live, stat.down)))
}

/// Both of three sessions over a core.
fn run_across<O: Origin + Send + Sync, R: Threads + Wait + Sync>(
    rt: &R,
    alloc: Global,
    core: Core<MemDisk>,
    reads: bool,
) -> Option<Told>
    requires start { MayStart state_of O.start O.disk core }
{
    match Shared::<MemDisk, O>::new(alloc, core) {
        Err((_memory, _core)) => None,
        Ok((shared, mut port)) => {
            let one = shared.port(&mut port, 1 << 32);
            let two = shared.port(&mut port, 1 << 32);
            let mut first = Session::new(&shared, one);
            let mut second = Session::new(&shared, two);
            let mut third = Session::new(&shared, port);
            let told = match across(rt, &mut first, &mut second, reads) {
                Some(()) => ended(rt, alloc, &shared, &mut third),
                None => None,
            };
            let _ = first.finish(rt);
            let _ = second.finish(rt);
            let _ = third.finish(rt);
            told
        }
    }
}

/// `run_across` over a new core, whose disk fails after `calls` calls.
fn across_threads<R: Threads + Wait + Sync>(
    rt: &R,
    alloc: Global,
    calls: u64,
    reads: bool,
) -> Option<Told> {
    let core = core_failing(alloc, calls).ok()?;
    run_across::<Brand, R>(rt, alloc, core, reads)
}

// What was posted in other threads is committed as a group; a member that read what an earlier one wrote conflicts; and a fault of the disk,
// which makes five calls for a new image, ends all members.
#[test]
fn what_was_posted_in_other_threads_ends_as_a_group(rt: HostRuntime) -> Result<(), Fail> {
    let first = Some(Some(GroupReply::Committed(1)));
    let second = Some(Some(GroupReply::Committed(2)));
    let clash = Some(Some(GroupReply::Conflict(Clash {
        commit: 1,
        block: 0,
        at: 0,
    })));
    let rows: [(u64, bool, Told); 3] = [
        (
            1_000,
            false,
            (Ok((3, [first, Some(None), second])), (2, 0, false)),
        ),
        (
            1_000,
            true,
            (Ok((3, [first, Some(None), clash])), (1, 0, false)),
        ),
        (5, false, (Err(CoreError::Disk), (0, 0, true))),
    ];
    for (number, (calls, reads, wanted)) in rows.iter().enumerate() {
        let found = across_threads(&rt, rt.alloc(), *calls, *reads);
        same(&rt, (number, found), (number, Some(*wanted)));
    }
    Ok(())
}
