// The end of a group of transactions, in one turn.
ghost use Rattle.std.specs.{Prelude.{◌≡◌, ◌≢◌, ◌⊎◌, ℕ, ◌+◌, ◌<◌, ◌≤◌, IfErr, IfOk, IfSome, IfNone, cond, length, map, vec_capacity, vec_len}, List.AllByRecursion};
ghost use Rattle.iso_core.specs.{declared.group_end.TheConstants.MAX_GROUP, Planned.bare_end};
ghost use Rattle.iso_model.specs.declared.core_error.CoreError.TheVariants.{Disk as OfDisk, Down as OfDown, Memory as OfMemory};
ghost use Rattle.iso_shared.specs.declared.entry.Call.TheVariants as TheCall;
ghost use Rattle.iso_shared.specs.{declared.entry.Entry.TheVariants.{EndGroup, Refused}, Groups.{AreEnds, AreJoined, ArePaired, HasRefused, HasTurned, IsBack, IsNote, IsRoom, MadeAt, MadeRefusal, answered, units_of}, Passes.{IsGiven, MayGive}, Ports.{IsPort, IsSameTx, IsTx, MadeAll, port_view, tx_view}, Told.{cause_of, group_entry, members_in, wanting_entry}};

use crate::guarded::{Guarded, Origin, Stamped};
use crate::shared::{Port, Shared};
use crate::told::Told;
use crate::tx::Tx;
use crate::works::{give_works, put_replies, take_works};
use iso_core::GroupEnd;
use iso_disk::Disk;
use iso_model::{CoreError, GroupReply, ReplyList};
use std::alloc::Global;
use std::marker::Brand;
use std::snapshot::Snapshot;
use std::sync::Wait;
use turn_lock::{Names, Pass, Turn};

// Why a group is refused for whose works or replies memory is wanting.
fn wanting(down: bool) -> CoreError
    ensures { result ≡ cond down OfDown OfMemory }
{
    if down {
        CoreError::Down
    } else {
        CoreError::Memory
    }
}

// Room for the works and the replies of `count` members.
fn room_for(alloc: Global, count: usize) -> Option<(Vec<GroupEnd>, Vec<GroupReply>)>
    ensures { IfSome result (λ r. IsRoom count r.0.items (vec_len r.0) (vec_capacity r.0) × IsRoom count r.1.items (vec_len r.1) (vec_capacity r.1)) }
{
    let Ok(ends) = Vec::with_capacity(alloc, count) else {
        return None;
    };
    let Ok(replies) = Vec::with_capacity(alloc, count) else {
        return None;
    };
    Some((ends, replies))
}

impl<D: Disk + Drop, O: Origin> Shared<D, O> {
    // The turn of a group.
    fn end_at_turn<R: Wait>(
        &self,
        rt: &R,
        port: &mut Port<D, O>,
        ends: &mut [GroupEnd],
    ) -> Result<(), CoreError>
        requires { AreEnds self.now O.start port.old ends.old }
        ensures turn { HasTurned self.now port.old port.new result }
        ensures members { map bare_end ends.new ≡ map bare_end ends.old }
        ensures made { (before : ℕ) × (now : ℕ) × MadeAt O.start port.old (group_entry before now ends.new result) port.new }
    {
        let mut turn = self.lock.take(rt, &mut port.pass);
        let guarded = turn.value();
        let before = Snapshot::of(&guarded.core);
        let result = guarded.core.end_group(ends);
        self.give(&mut port.pass, turn, before, Told::EndGroup(ends, result));
        result
    }

    // Gives the turn back, with the entry that `N` names by a group and why it is refused before the core was asked.
    fn give_wanting<N: Names<Stamped>>(
        &self,
        pass: &mut Pass<Guarded<D, O>>,
        turn: Turn<Guarded<D, O>>,
        group: &[Tx<D, O>],
        error: CoreError,
    )
        requires { MayGive D.state O.start O.disk self.now.lock pass.old turn N.entry }
        ensures { IsGiven O.start self.now.lock pass.old pass.new N.entry }
    {
        let _ = group;
        let _ = error;
        self.lock.give::<N>(pass, turn);
    }

    // The turn of a group for whose replies and works memory is wanting.
    fn refuse_at_turn<R: Wait>(
        &self,
        rt: &R,
        port: &mut Port<D, O>,
        group: &[Tx<D, O>],
    ) -> CoreError
        requires { AreJoined self.now O.start port.old group.now }
        ensures turn { HasRefused self.now port.old port.new result }
        ensures made { MadeAt O.start port.old (wanting_entry group.now result) port.new }
    {
        let mut turn = self.lock.take(rt, &mut port.pass);
        let guarded = turn.value();
        let error = wanting(guarded.core.stat().down);
        self.give_wanting::<Brand>(&mut port.pass, turn, group, error);
        error
    }

    // The end of members whose passes were joined into the port. Where it is refused, their works are back.
    fn end_joined<R: Wait>(
        &self,
        rt: &R,
        port: &mut Port<D, O>,
        group: &mut [Tx<D, O>],
    ) -> Result<ReplyList, CoreError>
        requires { AreJoined self.now O.start port.old group.old }
        ensures turn { HasTurned self.now port.old port.new result }
        ensures ok { IfOk result (λ replies. (length replies ≡ length group.old) × MadeAt O.start port.old (EndGroup (answered (members_in group.old) replies)) port.new) }
        ensures err { IfErr result (λ e. MadeRefusal O.start port.old (members_in group.old) e port.new) }
        ensures notes { AllByRecursion (IsNote self.now (port_view port.new).seen) group.new }
        ensures many { length group.new ≡ length group.old }
        ensures back { IfErr result (λ e. e ≢ OfDisk → ArePaired IsSameTx group.old group.new) }
    {
        let Some((mut ends, mut replies)) = room_for(self.alloc, group.len()) else {
            return Err(self.refuse_at_turn(rt, port, group));
        };
        take_works(self.alloc, &self.geometry(), group, &mut ends);
        let handed = ends.as_mut_slice();
        match self.end_at_turn(rt, port, handed) {
            Ok(()) => {
                put_replies(handed, &mut replies);
                Ok(ReplyList::of(replies))
            }
            Err(error) => {
                give_works(group, handed);
                Err(error)
            }
        }
    }

    /// Ends different transactions one after the other, as the core does at this turn, with one append for all their
    /// commits, and answers how each ended, in order. A member that the log has no room or no number for is aborted.
    /// Their passes go to the port, through which the call is made.
    ///
    /// # Errors
    ///
    /// As those of `Core::end_group`.
    /// - `Down`, `Memory`: each is handed back as it was, with one unit.
    /// - `Disk`: there is none any more.
    pub fn end_group<R: Wait>(
        &self,
        rt: &R,
        port: &mut Port<D, O>,
        mut group: Vec<Tx<D, O>>,
    ) -> Result<ReplyList, (CoreError, Option<Vec<Tx<D, O>>>)>
        requires port { IsPort self.now port.old }
        requires group { AllByRecursion (IsTx self.now O.start) group.items }
        requires some { 0 < length group.items }
        requires most { length group.items ≤ MAX_GROUP }
        ensures port { IsPort self.now port.new }
        ensures ok { IfOk result (λ replies. (length replies ≡ length group.items) × ((port_view port.new).units ≡ (port_view port.old).units + units_of group.items)
            × MadeAll O.start (port_view port.old) (map tx_view group.items) (EndGroup (answered (members_in group.items) replies)) (port_view port.new)) }
        ensures gone { IfErr result (λ e. IfNone e.1 ((e.0 ≡ OfDisk) × ((port_view port.new).units ≡ (port_view port.old).units + units_of group.items)
            × ((before : ℕ) × (now : ℕ) × MadeAll O.start (port_view port.old) (map tx_view group.items) (Refused (TheCall.EndGroup (members_in group.items)) (cause_of before now e.0)) (port_view port.new)))) }
        ensures kept { IfErr result (λ e. IfSome e.1 (λ back. ((e.0 ≡ OfDown) ⊎ (e.0 ≡ OfMemory)) × ((port_view port.new).units + length group.items ≡ (port_view port.old).units + units_of group.items)
            × ArePaired (IsBack self.now O.start (port_view port.new).seen) group.items back.items
            × ((before : ℕ) × (now : ℕ) × MadeAll O.start (port_view port.old) (map tx_view group.items) (Refused (TheCall.EndGroup (members_in group.items)) (cause_of before now e.0)) (port_view port.new)))) }
        ensures again { IfErr result (λ e. IfSome e.1 (λ back. AllByRecursion (IsTx self.now O.start) back.items × (units_of back.items ≡ length group.items) × (length back.items ≡ length group.items))) }
    {
        let members = group.as_mut_slice();
        self.join_members(port, members);
        match self.end_joined(rt, port, members) {
            Ok(replies) => {
                self.spend_members(port, group);
                Ok(replies)
            }
            Err(error) => match error {
                CoreError::Disk => {
                    self.spend_members(port, group);
                    Err((CoreError::Disk, None))
                }
                other => {
                    self.split_members(port, members);
                    Err((other, Some(group)))
                }
            },
        }
    }
}
