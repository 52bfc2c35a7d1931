// Transactions that end as a group.
ghost use Rattle.std.specs.Prelude.{◌≡◌, ◌+◌, ◌<◌, ◌≤◌, ◌∷◌, ◌++◌, [], Ok, OnOk, false, length, map, take, true};
ghost use Rattle.iso_core.specs.declared.group_end.TheConstants.{MAX_GROUP};
ghost use Rattle.iso_model.specs.{World.World, Worlds.AreDistinct};
ghost use Rattle.script_model.specs.Step.{grouped};
ghost use Rattle.iso_machine.specs.Answering.{Answers, Never};
ghost use Rattle.device_desk.specs.{Device.{IsRefusedDown, StandsAt, state_at}, Numbers.{HasTaken, member_of, numbers_step}, Seats.live_of};

use crate::desk::Desk;
use crate::seat::{Seat, place_of};
use crate::table::Table;
use iso_core::{GroupEnd, MAX_GROUP};
use iso_disk::Disk;
use iso_machine::{fill_answers, keep_spare, make_places};
use iso_model::{GroupReply, LabelReplies, Memory};
use script_model::{Reply, Stop, refused};
use std::alloc::Global;
use std::mem;
use tx_table::Work;

/// What has the numbers so far. An answer stands for each number, which the group's reply takes the place of where a transaction has
/// it; so many have, and they are the first members.
#[derive(Drop)]
struct Taken {
    answers: Vec<Option<GroupReply>>,
    count: usize,
}

/// Nothing was looked for yet.
fn nothing_taken(alloc: Global) -> Taken
    ensures answers { result.answers.items ≡ [] }
    ensures count { result.count ≡ 0 }
{
    Taken {
        answers: Vec::new(alloc),
        count: 0,
    }
}

/// Puts a transaction into the place of a member. Its work changes places with the one there, whose memory is spare.
fn fill_place(place: &mut GroupEnd, spare: &mut Vec<Box<Work>>, gone: Seat)
    ensures { place.new ≡ member_of gone }
{
    let mut work = gone.work;
    place.tx = gone.tx;
    place.reply = None;
    mem::swap(&mut place.work, &mut *work);
    keep_spare(spare, work);
}

/// Makes a transaction the member behind the first ones.
fn add_member(ends: &mut [GroupEnd], count: usize, spare: &mut Vec<Box<Work>>, gone: Seat)
    requires { count < length ends.old }
    ensures { take (count + 1) ends.new ≡ take count ends.old ++ member_of gone ∷ [] }
{
    fill_place(&mut ends[count], spare, gone);
}

/// Takes the transaction of a number out of the live ones, if there is one.
fn take_member(
    live: &mut Vec<Seat>,
    spare: &mut Vec<Box<Work>>,
    taken: &mut Taken,
    ends: &mut [GroupEnd],
    number: u64,
) -> Result<(), Memory>
    requires distinct { AreDistinct (map live_of live.old.items) }
    requires place { taken.old.count < length ends.old }
    ensures taken { OnOk result (HasTaken (number ∷ []) live.old.items live.new.items taken.old.answers.items taken.new.answers.items (take taken.old.count ends.old) (take taken.new.count ends.new)) }
    ensures count { taken.new.count ≤ taken.old.count + 1 }
{
    taken.answers.reserve(1)?;
    let Some(i) = place_of(live, number) else {
        taken.answers.push_reserved(None);
        return Ok(());
    };
    let gone = live.remove(i);
    taken.answers.push_reserved(Some(GroupReply::Worn));
    add_member(ends, taken.count, spare, gone);
    taken.count += 1;
    Ok(())
}

/// Takes the transactions of these numbers, in their order. One that is named twice is there no more at the second look.
fn take_members(
    live: &mut Vec<Seat>,
    spare: &mut Vec<Box<Work>>,
    taken: &mut Taken,
    ends: &mut [GroupEnd],
    numbers: &[u64],
) -> Result<(), Memory>
    requires distinct { AreDistinct (map live_of live.old.items) }
    requires places { taken.old.count + length numbers.now ≤ length ends.old }
    ensures taken { OnOk result (HasTaken numbers.now live.old.items live.new.items taken.old.answers.items taken.new.answers.items (take taken.old.count ends.old) (take taken.new.count ends.new)) }
    ensures count { taken.new.count ≤ taken.old.count + length numbers.now }
{
    let Some((first, others)) = numbers.split_first() else {
        return Ok(());
    };
    take_member(live, spare, taken, ends, *first)?;
    take_members(live, spare, taken, ends, others)
}

impl<D: Disk> Table<D> {
    ghost use Rattle.iso_core.specs.Core.{disk_of};
    ghost use Rattle.device_desk.specs.Seats.{IsTableOf};

    /// The transactions of these numbers end as a group, in this order.
    pub(crate) fn group(&mut self, numbers: &[u64]) -> Result<Reply, Stop>
        requires stands { (W : World) × IsTableOf D.state self.old W }
        requires most { length numbers.now ≤ MAX_GROUP }
        ensures { (W : World) → IsTableOf D.state self.old W
            → Answers Never (IsTableOf D.state self.new) (D.state (disk_of self.old.core)) (D.state (disk_of self.new.core)) W (grouped (numbers_step W numbers.now)) result }
    {
        let geometry = self.core.geometry();
        if let Err(_) = make_places(self.alloc, &mut self.ends, numbers.len(), &geometry) {
            return Err(Stop::Memory);
        }
        let (live, spare) = (&mut self.live, &mut self.spare);
        let ends = self.ends.as_mut_slice();
        let mut taken = nothing_taken(self.alloc);
        if let Err(_) = take_members(live, spare, &mut taken, ends, numbers) {
            return Err(Stop::Memory);
        }
        if taken.count == 0 {
            return Ok(Reply::Grouped(LabelReplies::of(taken.answers)));
        }
        let members = &mut ends[..taken.count];
        if let Err(error) = self.core.end_group(members) {
            return refused(error);
        }
        let mut answers = taken.answers;
        fill_answers(&mut answers, members);
        Ok(Reply::Grouped(LabelReplies::of(answers)))
    }
}

impl<D: Disk> Desk<D> {
    /// Ends these transactions one after the other, with one append for all their commits: at each moment a crash leaves none of the
    /// commits or all. Each number has its reply, none where no live transaction has it, or where it stood in the list before. A
    /// member that the log has no room or no number for is aborted. After any stop the desk is down.
    ///
    /// # Errors
    ///
    /// More than `MAX_GROUP` numbers are answered by `TooManyTx`, and all is as it was.
    /// - `Memory`: want of memory. No commit is made.
    /// - `Disk`: the disk failed, and all commits of the group stand or none.
    /// - `Down`: the desk is down.
    pub fn end_group(&mut self, numbers: &[u64]) -> Result<Reply, Stop>
        ensures did { (W : World) → StandsAt D.state self.old W → length numbers.now ≤ MAX_GROUP
            → Answers Never (StandsAt D.state self.new) (state_at D.state self.old) (state_at D.state self.new) W (grouped (numbers_step W numbers.now)) result }
        ensures many { self.old.up ≡ true → MAX_GROUP < length numbers.now → (result ≡ Ok Reply.TooManyTx) × (self.new ≡ self.old) }
        ensures down { self.old.up ≡ false → IsRefusedDown self.old self.new result }
    {
        if !self.up {
            return Err(Stop::Down);
        }
        if numbers.len() > MAX_GROUP {
            return Ok(Reply::TooManyTx);
        }
        match self.table.group(numbers) {
            Ok(reply) => Ok(reply),
            Err(why) => {
                self.up = false;
                Err(why)
            }
        }
    }
}
