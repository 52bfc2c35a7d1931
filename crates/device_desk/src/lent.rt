// Transactions whose works are lent to a group. They stay in their list, and get their works back behind its end.
ghost use Rattle.std.specs.Prelude.{◌≡◌, ◌+◌, ◌<◌, ◌≤◌, ◌∷◌, ◌++◌, List, [], get_or, length, map, set, take};
ghost use Rattle.iso_core.specs.{declared.group_end.GroupEnd.GroupEnd, declared.group_end.TheConstants.MAX_GROUP, Core.StandsFor, Planned.{AreEach, IsMember, bare_end, reply_in}, Standing.up};
ghost use Rattle.iso_model.specs.World.{Live, World};
ghost use Rattle.device_desk.specs.{declared.seat.Seat.Seat, Lent.{ArePlaces, HasEnded, doing_of, members_with}, Numbers.member_of};

use crate::seat::Seat;
use iso_core::{Core, GroupEnd, MAX_GROUP};
use iso_disk::Disk;
use iso_model::CoreError;
use std::mem;

/// The transaction becomes the member: its work changes places with the one there.
fn lend(seat: &mut Seat, place: &mut GroupEnd)
    ensures place { place.new ≡ member_of seat.old }
    ensures tx { seat.new.tx ≡ seat.old.tx }
{
    place.tx = seat.tx;
    place.reply = None;
    mem::swap(&mut place.work, &mut *seat.work);
}

/// So of the transaction at a place of the list.
fn lend_at(live: &mut [Seat], i: usize, ends: &mut [GroupEnd], count: usize)
    requires seat { i < length live.old }
    requires place { count < length ends.old }
    ensures live { (d : Seat) → (live.new ≡ set live.old i (get_or live.new i d)) × ((get_or live.new i d).tx ≡ (get_or live.old i d).tx) }
    ensures ends { (d : Seat) → take (count + 1) ends.new ≡ take count ends.old ++ member_of (get_or live.old i d) ∷ [] }
{
    lend(&mut live[i], &mut ends[count]);
}

/// The transaction gets its work back. The member's reply stays.
fn take_back(seat: &mut Seat, place: &mut GroupEnd)
    ensures tx { seat.new.tx ≡ seat.old.tx }
    ensures work { seat.new.work.value ≡ place.old.work }
    ensures reply { place.new.reply ≡ place.old.reply }
{
    mem::swap(&mut place.work, &mut *seat.work);
}

/// So of the transaction at a place of the list.
fn take_back_at(live: &mut [Seat], i: usize, ends: &mut [GroupEnd], count: usize)
    requires seat { i < length live.old }
    requires place { count < length ends.old }
    ensures live { (d : Seat) (e : GroupEnd) → (live.new ≡ set live.old i (get_or live.new i d)) × ((get_or live.new i d).tx ≡ (get_or live.old i d).tx)
        × ((get_or live.new i d).work.value ≡ (get_or ends.old count e).work) }
    ensures before { take count ends.new ≡ take count ends.old }
    ensures replies { map reply_in ends.new ≡ map reply_in ends.old }
{
    take_back(&mut live[i], &mut ends[count]);
}

/// Ends the first members as a group.
fn end_first<D: Disk>(
    core: &mut Core<D>,
    ends: &mut [GroupEnd],
    count: usize,
) -> Result<(), CoreError>
    requires ready { (W : World) × (members : List Live) × StandsFor D.state core.old W up × AreEach (IsMember W) (take count ends.old) members }
    requires some { 0 < count }
    requires within { count ≤ length ends.old }
    requires most { count ≤ MAX_GROUP }
    ensures group { (W : World) (members : List Live) → StandsFor D.state core.old W up → AreEach (IsMember W) (take count ends.old) members
        → HasEnded D.state core.old core.new W members (take count ends.new) result }
    ensures members { map bare_end (take count ends.new) ≡ map bare_end (take count ends.old) }
{
    core.end_group(&mut ends[..count])
}

/// Ends the first members and the transactions at these places as a group, each of which lends its work for the time.
pub(crate) fn end_lent<D: Disk>(
    core: &mut Core<D>,
    live: &mut [Seat],
    ends: &mut [GroupEnd],
    count: usize,
    places: &[usize],
) -> Result<(), CoreError>
    requires ready { (W : World) × (members : List Live) × StandsFor D.state core.old W up × AreEach (IsMember W) (members_with (take count ends.old) places.now live.old) members }
    requires places { ArePlaces (length live.old) places.now }
    requires some { 0 < count + length places.now }
    requires within { count + length places.now ≤ length ends.old }
    requires most { count + length places.now ≤ MAX_GROUP }
    ensures group { (W : World) (members : List Live) → StandsFor D.state core.old W up → AreEach (IsMember W) (members_with (take count ends.old) places.now live.old) members
        → HasEnded D.state core.old core.new W members (take (count + length places.now) ends.new) result }
    ensures live { map doing_of live.new ≡ map doing_of live.old }
    ensures before { map bare_end (take count ends.new) ≡ map bare_end (take count ends.old) }
{
    let Some((first, others)) = places.split_first() else {
        return end_first(core, ends, count);
    };
    let i = *first;
    lend_at(live, i, ends, count);
    let ended = end_lent(core, live, ends, count + 1, others);
    take_back_at(live, i, ends, count);
    ended
}
