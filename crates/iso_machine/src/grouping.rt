// Transactions that end as a group.
ghost use Rattle.std.specs.Prelude.{◌≡◌, ◌+◌, ◌<◌, ◌≤◌, ◌∷◌, ◌++◌, [], IsTrue, OnOk, length, map, take};
ghost use Rattle.iso_model.specs.Geometry.{is_block_size};
ghost use Rattle.script_model.specs.{declared.script.Op.TheVariants.Group, Operations.IsOp, Step.step};
ghost use Rattle.iso_machine.specs.{Grouping.{HasTaken, filled, member_of}, Standing.{AreKnown, AreListed}};
ghost use Rattle.iso_core.specs.Planned.{reply_in};

use crate::attached::{Attached, Spot, index_under_label};
use crate::ending::keep_spare;
use crate::finder::Finder;
use crate::machine::Machine;
use iso_core::GroupEnd;
use iso_disk::Disk;
use iso_model::{CoreError, Geometry, GroupReply, Label, LabelReplies, Memory};
use script_model::{Reply, Stop, refused};
use std::alloc::Global;
use std::mem;
use tx_table::Work;

/// What was found under the labels so far. There is an answer for each label, which the group's reply takes the place of where a
/// transaction was found; `count` were found, and they are the first members.
#[derive(Drop)]
struct Taken {
    answers: Vec<Option<GroupReply>>,
    count: usize,
}

/// Nothing was looked for yet.
fn nothing_taken(alloc: Global, labels: usize) -> Taken
    ensures answers { result.answers.items ≡ [] }
    ensures count { result.count ≡ 0 }
{
    let mut answers = Vec::new(alloc);
    // Without memory for all of them the list grows step by step.
    let _ = answers.reserve(labels);
    Taken { answers, count: 0 }
}

/// Makes places for `count` members.
///
/// # Errors
///
/// Want of memory. There may be fewer places.
pub fn make_places(
    alloc: Global,
    ends: &mut Vec<GroupEnd>,
    count: usize,
    geometry: &Geometry,
) -> Result<(), Memory>
    requires { IsTrue (is_block_size geometry.now.block) }
    ensures { OnOk result (count ≤ length ends.new.items) }
{
    while ends.len() < count {
        ends.push(GroupEnd {
            tx: 0,
            work: Work::begin(alloc, 0, geometry),
            reply: None,
        })?;
    }
    Ok(())
}

/// Puts a transaction into the place of a member. Its work changes places with the one there, whose memory is spare.
fn fill_place(place: &mut GroupEnd, spare: &mut Vec<Box<Work>>, gone: Attached)
    ensures { place.new ≡ member_of gone }
{
    let mut work = gone.work;
    place.tx = gone.tx;
    place.reply = None;
    mem::swap(&mut place.work, &mut *work);
    keep_spare(spare, work);
}

/// Makes a transaction the member after the first ones.
fn add_member(ends: &mut [GroupEnd], count: usize, spare: &mut Vec<Box<Work>>, gone: Attached)
    requires { count < length ends.old }
    ensures { take (count + 1) ends.new ≡ take count ends.old ++ member_of gone ∷ [] }
{
    fill_place(&mut ends[count], spare, gone);
}

/// Takes the transaction under a label out of the live ones, if there is one. Without memory nothing is taken.
fn take_member(
    finder: &mut Finder,
    live: &mut Vec<Attached>,
    spare: &mut Vec<Box<Work>>,
    taken: &mut Taken,
    ends: &mut [GroupEnd],
    label: &Label,
) -> Result<(), Memory>
    requires known { AreKnown finder.old live.old.items }
    requires place { taken.old.count < length ends.old }
    ensures taken { OnOk result (HasTaken (label.now ∷ []) live.old.items live.new.items taken.old.answers.items taken.new.answers.items (take taken.old.count ends.old) (take taken.new.count ends.new)) }
    ensures listed { OnOk result (AreListed finder.new live.new.items) }
    ensures count { taken.new.count ≤ taken.old.count + 1 }
{
    taken.answers.reserve(1)?;
    let number = finder.take_label(label);
    let Some(i) = index_under_label(number, live, label) else {
        taken.answers.push_reserved(None);
        return Ok(());
    };
    let gone = live.remove(i);
    taken.answers.push_reserved(Some(GroupReply::Worn));
    add_member(ends, taken.count, spare, gone);
    taken.count += 1;
    Ok(())
}

/// Takes the transactions under the labels, in their order. One that is named twice is there no more at the second look.
fn take_members(
    finder: &mut Finder,
    live: &mut Vec<Attached>,
    spare: &mut Vec<Box<Work>>,
    taken: &mut Taken,
    ends: &mut [GroupEnd],
    labels: &[Label],
) -> Result<(), Memory>
    requires known { AreKnown finder.old live.old.items }
    requires places { taken.old.count + length labels.now ≤ length ends.old }
    ensures taken { OnOk result (HasTaken labels.now live.old.items live.new.items taken.old.answers.items taken.new.answers.items (take taken.old.count ends.old) (take taken.new.count ends.new)) }
    ensures listed { OnOk result (AreListed finder.new live.new.items) }
    ensures count { taken.new.count ≤ taken.old.count + length labels.now }
{
    let Some((first, others)) = labels.split_first() else {
        return Ok(());
    };
    take_member(finder, live, spare, taken, ends, first)?;
    take_members(finder, live, spare, taken, ends, others)
}

/// Puts the members' replies in the place of the answers that are there for them.
pub fn fill_answers(answers: &mut [Option<GroupReply>], ends: &[GroupEnd])
    ensures { answers.new ≡ filled answers.old (map reply_in ends.now) }
{
    let Some((answer, others)) = answers.split_first_mut() else {
        return;
    };
    if answer.is_none() {
        return fill_answers(others, ends);
    }
    let Some((end, rest)) = ends.split_first() else {
        *answer = None;
        return fill_answers(others, ends);
    };
    *answer = end.reply;
    fill_answers(others, rest)
}

/// Puts a member that was not ended under its label again, as far as there is memory.
fn put_member_back(
    finder: &mut Finder,
    live: &mut Vec<Attached>,
    spare: &mut Vec<Box<Work>>,
    member: &mut GroupEnd,
    label: &Label,
) {
    let Some(mut work) = spare.pop() else {
        return;
    };
    mem::swap(&mut member.work, &mut *work);
    let _ = finder.put_label(label, member.tx);
    let _ = live.push(Attached {
        tx: member.tx,
        spot: Spot::Label(label.copy()),
        work,
    });
}

/// Puts members that were not ended under their labels again, as far as there is memory.
fn put_back(
    finder: &mut Finder,
    live: &mut Vec<Attached>,
    spare: &mut Vec<Box<Work>>,
    taken: Taken,
    ends: &mut [GroupEnd],
    labels: &[Label],
) {
    let mut at = 0;
    let mut rest = labels;
    for answer in taken.answers {
        let Some((label, others)) = rest.split_first() else {
            return;
        };
        rest = others;
        if answer.is_some() && at < ends.len() {
            put_member_back(finder, live, spare, &mut ends[at], label);
            at += 1;
        }
    }
}

impl<D: Disk> Machine<D> {
    ghost use Rattle.iso_machine.specs.{Answering.{AnswersFrom, Never}, Standing.IsMachine};

    /// The transactions under the labels end as a group, in the order of the labels. Without memory none of them has ended.
    pub(crate) fn group(&mut self, client: u8, labels: &[Label]) -> Result<Reply, Stop>
        requires stands { IsMachine D.state self.old }
        requires op { IsOp (Group labels.now) }
        ensures { AnswersFrom Never D.state self.old self.new (λ W. step W client (Group labels.now)) result }
    {
        let _ = client;
        let geometry = self.core.geometry();
        if let Err(_) = make_places(self.alloc, &mut self.ends, labels.len(), &geometry) {
            return Err(Stop::Memory);
        }
        let (finder, live, spare) = (&mut self.finder, &mut self.live, &mut self.spare);
        let ends = self.ends.as_mut_slice();
        let mut taken = nothing_taken(self.alloc, labels.len());
        if let Err(_) = take_members(finder, live, spare, &mut taken, ends, labels) {
            put_back(finder, live, spare, taken, ends, labels);
            return Err(Stop::Memory);
        }
        if taken.count == 0 {
            return Ok(Reply::Grouped(LabelReplies::of(taken.answers)));
        }
        let members = &mut ends[..taken.count];
        match self.core.end_group(members) {
            Ok(()) => {}
            Err(CoreError::Memory) => {
                put_back(finder, live, spare, taken, members, labels);
                return Err(Stop::Memory);
            }
            Err(error) => return refused(error),
        }
        let mut answers = taken.answers;
        fill_answers(&mut answers, members);
        Ok(Reply::Grouped(LabelReplies::of(answers)))
    }
}
