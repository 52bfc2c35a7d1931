// A group of which each member is told how it ended, in a port of its own.
ghost use Rattle.std.specs.{Prelude.{◌≡◌, ◌+◌, ◌++◌, ◌<◌, ◌≤◌, List, [], length, Err, IfErr, IfNone, IfOk, IfSome, IsOk, MatchResult, Ok, OnOk, vec_capacity, vec_len}};
ghost use Rattle.iso_core.specs.declared.group_end.TheConstants.{MAX_GROUP};
ghost use Rattle.iso_shared.specs.{Groups.ArePaired, Ports.{IsPort, port_view}};
ghost use Rattle.group_commit.specs.{Each.{IsDealt, IsEndedIn}, Groups.{AreBack, AreLost, AreMembers, AreTxs, HasEnded, HasGrouped, KnowsAll, MadeGroup, found_in, units_all}};

use crate::aborts::abort_found;
use crate::commit::end_all;
use crate::members::{Room, gather, is_found, let_go, make_room};
use iso_disk::Disk;
use iso_model::{CoreError, GroupReply, Memory};
use iso_shared::{Origin, Port, Shared, Tx};
use std::alloc::Global;
use std::sync::Wait;

/// How a member of a group ended, with a port that knows it and has one unit.
pub struct Ended<D: Disk + Drop, O: Origin> {
    pub reply: GroupReply,
    pub port: Port<D, O>,
}

/// Puts each of these replies behind the others, with a port that is split off for it.
fn deal_replies<D: Disk + Drop, O: Origin>(
    shared: &Shared<D, O>,
    port: &mut Port<D, O>,
    replies: &[GroupReply],
    told: &mut Vec<Ended<D, O>>,
)
    requires port { IsPort shared.now port.old }
    requires units { length replies.now < (port_view port.old).units }
    requires room { vec_len told.old + length replies.now ≤ vec_capacity told.old }
    ensures port { IsPort shared.now port.new }
    ensures units { (port_view port.new).units + length replies.now ≡ (port_view port.old).units }
    ensures seen { (port_view port.new).seen ≡ (port_view port.old).seen }
    ensures mine { (port_view port.new).mine ≡ (port_view port.old).mine }
    ensures told { (new : List (Ended D O)) × (told.new.items ≡ told.old.items ++ new) × ArePaired (IsDealt shared.now (port_view port.old).seen) replies.now new }
{
    let Some((reply, rest)) = replies.split_first() else {
        return;
    };
    told.push_reserved(Ended {
        reply: *reply,
        port: shared.port(port, 1),
    });
    deal_replies(shared, port, rest, told);
}

/// Ends a group in one turn, and tells each member how it ended: the port that made the entry splits a port off for each, in
/// their order. Where the group is refused as down, or for want of memory, its members are handed back; after a fault of the
/// disk there is none.
///
/// # Errors
///
/// No member has a reply.
/// - `Down`, `Memory`: each member is handed back as it was.
/// - `Disk`: a fault has ended them, and all commits of the group stand or none.
pub fn end_each<D: Disk + Drop, O: Origin, R: Wait>(
    rt: &R,
    shared: &Shared<D, O>,
    port: &mut Port<D, O>,
    group: Vec<Tx<D, O>>,
    told: &mut Vec<Ended<D, O>>,
) -> Result<(), (CoreError, Option<Vec<Tx<D, O>>>)>
    requires port { IsPort shared.now port.old }
    requires group { AreTxs shared.now O.start group.items }
    requires some { 0 < length group.items }
    requires most { length group.items ≤ MAX_GROUP }
    requires empty { told.old.items ≡ [] }
    requires room { vec_len told.old + length group.items ≤ vec_capacity told.old }
    ensures port { IsPort shared.now port.new }
    ensures ok { OnOk result (ArePaired (IsEndedIn shared.now O.start) group.items told.new.items
        × ((port_view port.new).units + length group.items ≡ units_all (port_view port.old) group.items)) }
    ensures made { OnOk result ((replies : List GroupReply) × MadeGroup O.start (port_view port.old) group.items replies (port_view port.new)) }
    ensures same { IfErr result (λ _. told.new.items ≡ []) }
    ensures gone { IfErr result (λ e. IfNone e.1 (AreLost O.start (port_view port.old) group.items e.0 (port_view port.new))) }
    ensures kept { IfErr result (λ e. IfSome e.1 (λ back. AreBack shared.now O.start (port_view port.old) group.items e.0 back.items (port_view port.new))) }
{
    match shared.end_group(rt, port, group) {
        Ok(replies) => {
            deal_replies(shared, port, replies.as_slice(), told);
            Ok(())
        }
        Err(refused) => Err(refused),
    }
}

/// Room for what `count` members are told.
///
/// # Errors
///
/// Want of memory.
pub fn told_room<D: Disk + Drop, O: Origin>(
    alloc: Global,
    count: usize,
) -> Result<Vec<Ended<D, O>>, Memory>
    ensures { IfOk result (λ v. (v.items ≡ []) × (count ≤ vec_capacity v)) }
{
    let mut told = Vec::new(alloc);
    match told.reserve(count) {
        Ok(()) => Ok(told),
        Err(_) => {
            told.destroy_empty();
            Err(Memory)
        }
    }
}

// Ends a group in one turn, and tells each member. Those that are handed back are aborted.
fn end_told<D: Disk + Drop, O: Origin, R: Wait>(
    rt: &R,
    shared: &Shared<D, O>,
    port: &mut Port<D, O>,
    group: Vec<Tx<D, O>>,
    told: &mut Vec<Ended<D, O>>,
) -> Result<(), CoreError>
    requires port { IsPort shared.now port.old }
    requires group { AreTxs shared.now O.start group.items }
    requires some { 0 < length group.items }
    requires most { length group.items ≤ MAX_GROUP }
    requires empty { told.old.items ≡ [] }
    requires room { vec_len told.old + length group.items ≤ vec_capacity told.old }
    ensures port { IsPort shared.now port.new }
    ensures told { OnOk result (ArePaired (IsEndedIn shared.now O.start) group.items told.new.items) }
    ensures units { OnOk result ((port_view port.new).units + length group.items ≡ units_all (port_view port.old) group.items) }
    ensures did { OnOk result ((replies : List GroupReply) × HasEnded O.start (port_view port.old) group.items (Ok replies) (port_view port.new)) }
    ensures refused { IfErr result (λ e. ((port_view port.new).units ≡ units_all (port_view port.old) group.items) × HasEnded O.start (port_view port.old) group.items (Err e) (port_view port.new)) }
    ensures same { IfErr result (λ _. told.new.items ≡ []) }
    ensures knows { KnowsAll group.items (port_view port.new).seen }
{
    match end_all(rt, shared, port, group) {
        Ok(replies) => {
            deal_replies(shared, port, replies.as_slice(), told);
            Ok(())
        }
        Err(error) => Err(error),
    }
}

/// Ends what was found as one group, in one turn, as `commit_group` does, and tells each member how it ended, by a port of its own. Where
/// nothing was found it asks for no memory.
///
/// # Errors
///
/// As those of `commit_found`.
pub fn commit_each<D: Disk + Drop, O: Origin, R: Wait>(
    rt: &R,
    alloc: Global,
    shared: &Shared<D, O>,
    port: &mut Port<D, O>,
    members: Vec<Option<Tx<D, O>>>,
) -> Result<Vec<Ended<D, O>>, CoreError>
    requires port { IsPort shared.now port.old }
    requires members { AreMembers shared.now O.start members.items }
    requires most { length members.items ≤ MAX_GROUP }
    ensures port { IsPort shared.now port.new }
    ensures told { IfOk result (λ told. ArePaired (IsEndedIn shared.now O.start) (found_in members.items) told.items) }
    ensures units { MatchResult result (λ _. (port_view port.new).units + length (found_in members.items) ≡ units_all (port_view port.old) (found_in members.items)) (λ _. (port_view port.new).units ≡ units_all (port_view port.old) (found_in members.items)) }
    ensures did { MatchResult result (λ _. (replies : List GroupReply) × HasEnded O.start (port_view port.old) (found_in members.items) (Ok replies) (port_view port.new)) (λ e. HasGrouped O.start (port_view port.old) members.items (Err e) (port_view port.new)) }
    ensures none { found_in members.items ≡ [] → IsOk result }
    ensures knows { KnowsAll (found_in members.items) (port_view port.new).seen }
{
    if !is_found(members.as_slice()) {
        let_go(members);
        return Ok(Vec::new(alloc));
    }
    let count = members.len();
    let Ok(mut told) = told_room(alloc, count) else {
        abort_found(rt, shared, port, members);
        return Err(CoreError::Memory);
    };
    let Ok(room) = make_room(alloc, count as u32) else {
        told.destroy_empty();
        abort_found(rt, shared, port, members);
        return Err(CoreError::Memory);
    };
    let Room {
        mut group,
        mut marks,
    } = room;
    gather(members, &mut group, &mut marks);
    match end_told(rt, shared, port, group, &mut told) {
        Ok(()) => Ok(told),
        Err(error) => {
            told.destroy_empty();
            Err(error)
        }
    }
}
