// A group of those transactions that were found under labels.
ghost use Rattle.std.specs.Prelude.{◌≡◌, ◌<◌, ◌≤◌, [], is_some, length, map, IfErr, IfOk, IsOk};
ghost use Rattle.iso_core.specs.declared.group_end.TheConstants.{MAX_GROUP};
ghost use Rattle.iso_shared.specs.Ports.{IsPort, port_view};
ghost use Rattle.group_commit.specs.Groups.{AreMembers, AreTxs, HasEnded, HasGrouped, IsGroupRefusal, KnowsAll, MadeGroup, found_in, marks_of, units_all};

use crate::aborts::{abort_all, abort_found};
use crate::answers::{spread_all, tell_none};
use crate::members::{Room, gather, is_found, let_go, make_room};
use iso_disk::Disk;
use iso_model::{CoreError, GroupReply, LabelReplies, ReplyList, Reserved};
use iso_shared::{Origin, Port, Shared, Tx};
use std::alloc::Global;
use std::sync::Wait;

/// Ends a group in one turn. Those that are handed back are aborted.
pub(crate) fn end_all<D: Disk + Drop, O: Origin, R: Wait>(
    rt: &R,
    shared: &Shared<D, O>,
    port: &mut Port<D, O>,
    group: Vec<Tx<D, O>>,
) -> Result<ReplyList, CoreError>
    requires port { IsPort shared.now port.old }
    requires group { AreTxs shared.now O.start group.items }
    requires some { 0 < length group.items }
    requires most { length group.items ≤ MAX_GROUP }
    ensures port { IsPort shared.now port.new }
    ensures units { (port_view port.new).units ≡ units_all (port_view port.old) group.items }
    ensures did { HasEnded O.start (port_view port.old) group.items result (port_view port.new) }
    ensures made { IfOk result (λ replies. MadeGroup O.start (port_view port.old) group.items replies (port_view port.new)) }
    ensures only { IfErr result IsGroupRefusal }
    ensures told { KnowsAll group.items (port_view port.new).seen }
{
    match shared.end_group(rt, port, group) {
        Ok(replies) => Ok(replies),
        Err((error, back)) => match back {
            None => Err(error),
            Some(txs) => {
                abort_all(rt, shared, port, txs);
                Err(error)
            }
        },
    }
}

/// Ends the transactions that were found under labels as one group, in one turn, and answers each place, in the room for answers that
/// the caller brings: none where nothing was found. Where no transaction was found at all it makes no entry, and asks for no memory.
/// After `Down` and `Memory` they are aborted, and after `Disk` they are gone; whatever comes, the port has their units then.
///
/// # Errors
///
/// - `Down`, `Memory`: the transactions are aborted.
/// - `Disk`: a fault has ended them, and all commits of the group stand or none.
pub fn commit_found<D: Disk + Drop, O: Origin, R: Wait>(
    rt: &R,
    alloc: Global,
    shared: &Shared<D, O>,
    port: &mut Port<D, O>,
    members: Vec<Option<Tx<D, O>>>,
    told: Reserved<Option<GroupReply>>,
) -> Result<LabelReplies, CoreError>
    requires port { IsPort shared.now port.old }
    requires members { AreMembers shared.now O.start members.items }
    requires most { length members.items ≤ MAX_GROUP }
    requires told { (told.items ≡ []) × (length members.items ≤ told.room) }
    ensures port { IsPort shared.now port.new }
    ensures units { (port_view port.new).units ≡ units_all (port_view port.old) (found_in members.items) }
    ensures did { HasGrouped O.start (port_view port.old) members.items result (port_view port.new) }
    ensures places { IfOk result (λ told. map is_some told ≡ marks_of members.items) }
    ensures none { found_in members.items ≡ [] → IsOk result }
    ensures only { IfErr result IsGroupRefusal }
    ensures told { KnowsAll (found_in members.items) (port_view port.new).seen }
{
    if !is_found(members.as_slice()) {
        let answers = tell_none(members.as_slice(), told);
        let_go(members);
        return Ok(answers);
    }
    let Ok(room) = make_room(alloc, members.len() as u32) else {
        abort_found(rt, shared, port, members);
        return Err(CoreError::Memory);
    };
    let Room {
        mut group,
        mut marks,
    } = room;
    gather(members, &mut group, &mut marks);
    let replies = end_all(rt, shared, port, group)?;
    Ok(spread_all(marks.as_slice(), replies.as_slice(), told))
}

/// As `commit_found`, but that it makes the room for the answers itself, before it looks whether there is a transaction.
///
/// # Errors
///
/// As those of `commit_found`, and want of memory for the answers.
pub fn commit_group<D: Disk + Drop, O: Origin, R: Wait>(
    rt: &R,
    alloc: Global,
    shared: &Shared<D, O>,
    port: &mut Port<D, O>,
    members: Vec<Option<Tx<D, O>>>,
) -> Result<LabelReplies, CoreError>
    requires port { IsPort shared.now port.old }
    requires members { AreMembers shared.now O.start members.items }
    requires most { length members.items ≤ MAX_GROUP }
    ensures port { IsPort shared.now port.new }
    ensures units { (port_view port.new).units ≡ units_all (port_view port.old) (found_in members.items) }
    ensures did { HasGrouped O.start (port_view port.old) members.items result (port_view port.new) }
    ensures places { IfOk result (λ told. map is_some told ≡ marks_of members.items) }
    ensures only { IfErr result IsGroupRefusal }
    ensures told { KnowsAll (found_in members.items) (port_view port.new).seen }
{
    let mut told = Reserved::empty(alloc);
    match told.reserve(members.len() as u32) {
        Ok(()) => commit_found(rt, alloc, shared, port, members, told),
        Err(_) => {
            abort_found(rt, shared, port, members);
            Err(CoreError::Memory)
        }
    }
}
