// Transactions that end as one group where all fit.
ghost use Rattle.std.specs.{Prelude.{◌≡◌, ◌≢◌, ◌+◌, ◌<◌, ◌≤◌, ◌++◌, IfErr, IfSome, Ok, OnOk, false, length, map, take, vec_capacity, vec_len}, Bool.OnTrue, List.AllByRecursion};
ghost use Rattle.iso_core.specs.{declared.group_end.TheConstants.MAX_GROUP, Planned.reply_in};
ghost use Rattle.iso_model.specs.{declared.limits.TheConstants.LAST, Group.group, World.World};
ghost use Rattle.device_desk.specs.{Lent.{HasEnded, StandAt, doing_of, items_at}, Waiting.{Fit, HasTried, told_in}};

use crate::lent::end_lent;
use crate::need::have_room;
use crate::places::{leave, places_of};
use crate::table::Table;
use iso_core::{GroupEnd, MAX_GROUP};
use iso_disk::Disk;
use iso_machine::make_places;
use iso_model::{CoreError, GroupReply, LAST};
use script_model::{Reply, Stop};

/// What an end of its own is answered that ends so.
fn told_in(answer: Option<GroupReply>) -> Reply
    ensures { result ≡ told_in answer }
{
    match answer {
        None => Reply::NotInTx,
        Some(GroupReply::Committed(number)) => Reply::Committed(number),
        Some(GroupReply::ReadOnly) => Reply::ReadOnly,
        Some(GroupReply::Conflict(clash)) => Reply::Conflict(clash),
        Some(GroupReply::Full { need, free }) => Reply::LogFull { need, free },
        Some(GroupReply::Worn) => Reply::Worn,
    }
}

/// Puts the replies of these members behind the others.
fn put_replies(ends: &[GroupEnd], replies: &mut Vec<Reply>)
    requires { vec_len replies.old + length ends.now ≤ vec_capacity replies.old }
    ensures { replies.new.items ≡ replies.old.items ++ map told_in (map reply_in ends.now) }
{
    let Some((end, rest)) = ends.split_first() else {
        return;
    };
    replies.push_reserved(told_in(end.reply));
    put_replies(rest, replies);
}

/// So of the first ones.
fn put_first(ends: &Vec<GroupEnd>, count: usize, replies: &mut Vec<Reply>)
    requires within { count ≤ length ends.now.items }
    requires room { vec_len replies.old + count ≤ vec_capacity replies.old }
    ensures { replies.new.items ≡ replies.old.items ++ map told_in (map reply_in (take count ends.now.items)) }
{
    put_replies(&ends[..count], replies);
}

/// What a group that was not made comes to: without memory its members may end each by itself.
fn tried(error: CoreError) -> Result<bool, Stop>
    ensures memory { error ≡ CoreError.Memory → result ≡ Ok false }
    ensures other { error ≢ CoreError.Memory → result ≡ Err Stop.Disk }
{
    match error {
        CoreError::Memory => Ok(false),
        CoreError::Down
        | CoreError::TooManyTx
        | CoreError::LogFull { .. }
        | CoreError::Disk
        | CoreError::Worn { .. }
        | CoreError::ModeFixed => Err(Stop::Disk),
    }
}

/// How many bytes of the log the records of so many commits may take, if there is a number for each.
fn room_behind(last: u64, used: u32, log: u32, count: usize) -> Option<u64>
    ensures { IfSome result (λ room. (room + used + 1 ≡ log) × (last + count ≤ LAST)) }
{
    let Some(more) = LAST.checked_sub(last) else {
        return None;
    };
    if count as u64 > more {
        return None;
    }
    u64::from(log).checked_sub(u64::from(used) + 1)
}

impl<D: Disk> Table<D> {
    ghost use Rattle.iso_core.specs.Core.{disk_of};
    ghost use Rattle.device_desk.specs.Seats.{IsTableOf};

    /// Whether the log has room for the records of the transactions at these places, and their commits for a number each.
    fn all_fit(&mut self, places: &[usize]) -> bool
        requires stands { (W : World) × IsTableOf D.state self.old W }
        requires places { AllByRecursion (λ i. i < length self.old.live.items) places.now }
        ensures fit { (W : World) → IsTableOf D.state self.old W → OnTrue result (Fit W (items_at places.now W.live)) }
        ensures live { map doing_of self.new.live.items ≡ map doing_of self.old.live.items }
        ensures core { self.new.core ≡ self.old.core }
        ensures ends { self.new.ends ≡ self.old.ends }
    {
        let stat = self.core.stat();
        let geometry = self.core.geometry();
        let Some(room) = room_behind(stat.last, stat.used, geometry.log, places.len()) else {
            return false;
        };
        have_room(&mut self.live, places, room)
    }

    /// The places of the transactions of these numbers, where they may end as a group that has room for each.
    fn places_for(&mut self, numbers: &[u64]) -> Option<Vec<usize>>
        requires { (W : World) × IsTableOf D.state self.old W }
        ensures stand { IfSome result (λ places. StandAt self.new.live.items numbers.now places.items) }
        ensures few { IfSome result (λ places. (0 < length places.items) × (length places.items ≤ MAX_GROUP) × (length places.items ≤ length self.new.ends.items)) }
        ensures fit { (W : World) → IsTableOf D.state self.old W → IfSome result (λ places. Fit W (items_at places.items W.live)) }
        ensures same { (W : World) → IsTableOf D.state self.old W → IsTableOf D.state self.new W }
        ensures core { self.new.core ≡ self.old.core }
    {
        if numbers.len() < 2 || numbers.len() > MAX_GROUP {
            return None;
        }
        let Some(places) = places_of(self.alloc, &self.live, numbers) else {
            return None;
        };
        if !self.all_fit(&places) {
            return None;
        }
        let geometry = self.core.geometry();
        if let Err(_) = make_places(self.alloc, &mut self.ends, numbers.len(), &geometry) {
            return None;
        }
        Some(places)
    }

    /// Ends the transactions of these numbers, which stand at these places, as a group. Without memory nothing is made.
    fn group_at(&mut self, numbers: &[u64], places: &[usize]) -> Result<(), CoreError>
        requires stands { (W : World) × IsTableOf D.state self.old W }
        requires at { StandAt self.old.live.items numbers.now places.now }
        requires few { (0 < length places.now) × (length places.now ≤ MAX_GROUP) × (length places.now ≤ length self.old.ends.items) }
        ensures ended { (W : World) → IsTableOf D.state self.old W
            → HasEnded D.state self.old.core self.new.core W (items_at places.now W.live) (take (length places.now) self.new.ends.items) result }
        ensures ok { (W : World) → IsTableOf D.state self.old W → OnOk result (IsTableOf D.state self.new (group W (items_at places.now W.live)).1) }
        ensures err { (W : World) → IsTableOf D.state self.old W → IfErr result (λ e. e ≢ CoreError.Disk → IsTableOf D.state self.new W) }
        ensures ends { length self.new.ends.items ≡ length self.old.ends.items }
    {
        match end_lent(&mut self.core, &mut self.live, &mut self.ends, 0, places) {
            Ok(()) => {
                leave(&mut self.live, &mut self.spare, numbers);
                Ok(())
            }
            Err(error) => Err(error),
        }
    }

    /// Ends the transactions of these numbers as one group, if they may and each has room, and puts their replies behind the
    /// others. Else, and without memory, nothing is made.
    pub(crate) fn end_together(
        &mut self,
        numbers: &[u64],
        replies: &mut Vec<Reply>,
    ) -> Result<bool, Stop>
        requires stands { (W : World) × IsTableOf D.state self.old W }
        requires room { vec_len replies.old + length numbers.now ≤ vec_capacity replies.old }
        ensures tried { (W : World) → IsTableOf D.state self.old W
            → HasTried (IsTableOf D.state self.new) (D.state (disk_of self.old.core)) (D.state (disk_of self.new.core)) W numbers.now replies.old.items replies.new.items result }
        ensures room { result ≡ Ok false → replies.new ≡ replies.old }
    {
        let Some(places) = self.places_for(numbers) else {
            return Ok(false);
        };
        match self.group_at(numbers, &places) {
            Ok(()) => {
                put_first(&self.ends, places.len(), replies);
                Ok(true)
            }
            Err(error) => tried(error),
        }
    }
}
