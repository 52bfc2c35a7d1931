// How a member of a group ends, after those before it.
ghost use Rattle.std.specs.Prelude.{◌≡◌, ◌<◌, ◌++◌, [], ◌∷◌, true, OnOk, IfOk, map};
ghost use Rattle.iso_model.specs.{Conflict.clash, Group.{ahead, made_by}};
ghost use Rattle.iso_core.specs.{Kept.{SettlesOnly, SpellsOnly}, Planned.{AreNextMembers, HasPlanned, IsAhead, IsJudged, IsNextMember, MayStage, is_commit, unsettled}};

use crate::group_end::GroupEnd;
use crate::kept::Kept;
use crate::plan::{Plan, Staged};
use crate::prepare::spell_as;
use conflict_rule::{Checked, decide};
use counts::Steps;
use iso_format::RecordBuffer;
use iso_model::{Clash, GroupReply, LAST, Memory};
use std::marker::Brand;
use std::sync::ledger::{Blank, Ledger};
use tx_table::Work;
use version_read::PartSpan;

// How a member clashes with the commits that are kept, and with those of the members before it.
fn clash_in<L: Ledger>(blank: Blank, kept: &Kept, plan: &Plan, member: &GroupEnd) -> Option<Clash>
    requires name { blank.name ≡ L.name }
    requires parts { blank.parts ≡ L.parts }
    requires some { 0 < L.parts }
    requires settled { member.now.work.settled ≡ true }
    ensures { (m : IsNextMember kept.now plan.now member.now) → result ≡ clash m.world.geometry (ahead m.world m.more).history m.t.mode m.t.begin m.t.accesses }
{
    let work = &member.work;
    let mut steps = Steps::<L>::start(blank);
    let begun = Checked {
        upto: work.begun_at(),
        clash: None,
    };
    let clash = decide(
        work.mode(),
        &begun,
        work.reads(),
        work.writes(),
        &kept.notes,
        &mut steps,
    );
    let so_far = Checked {
        upto: kept.log.last(),
        clash,
    };
    decide(
        work.mode(),
        &so_far,
        work.reads(),
        work.writes(),
        &plan.notes,
        &mut steps,
    )
}

/// How a member ends, after those of the plan. Where it is the next commit, its record is spelled.
pub(crate) fn judge(kept: &mut Kept, plan: &Plan, member: &GroupEnd) -> Result<GroupReply, Memory>
    requires { IsNextMember kept.old plan.now member.now }
    ensures judged { (m : IsNextMember kept.old plan.now member.now) → IfOk result (IsJudged (ahead m.world m.more) member.now.tx m.t kept.new) }
    ensures same { SpellsOnly kept.old kept.new }
{
    if !member.work.has_write() {
        return Ok(GroupReply::ReadOnly);
    }
    if let Some(clash) = clash_in::<Brand>(Blank::new(1), kept, plan, member) {
        return Ok(GroupReply::Conflict(clash));
    }
    let last = kept.log.last() + plan.staged.len() as u64;
    if last >= LAST {
        return Ok(GroupReply::Worn);
    }
    spell_as(kept, &member.work, last + 1)?;
    let need = kept.buffer.with_closed_gate().len() as u64;
    let free = u64::from(kept.log.free()) - plan.bytes.len() as u64;
    if free < need {
        return Ok(GroupReply::Full { need, free });
    }
    Ok(GroupReply::Committed(last + 1))
}

// The records of a buffer, without the gate after them.
fn records_in(buffer: &RecordBuffer) -> &[u8]
    ensures { result.now ≡ buffer.now.records }
{
    let bytes = buffer.with_closed_gate();
    &bytes[..bytes.len() - 1]
}

fn push_parts(parts: &mut Vec<PartSpan>, more: &[PartSpan]) -> Result<(), Memory>
    ensures { OnOk result (parts.new.items ≡ parts.old.items ++ more.now) }
{
    parts.extend_from_slice(more)?;
    Ok(())
}

fn push_bytes(bytes: &mut Vec<u8>, more: &[u8]) -> Result<(), Memory>
    ensures { OnOk result (bytes.new.items ≡ bytes.old.items ++ more.now) }
{
    bytes.extend_from_slice(more)?;
    Ok(())
}

fn push_staged(staged: &mut Vec<Staged>, at: u64, count: usize) -> Result<(), Memory>
    ensures { OnOk result (staged.new.items ≡ staged.old.items ++ record { at = at; count = count } ∷ []) }
{
    staged.push(Staged { at, count })?;
    Ok(())
}

// Whether the reply is a commit.
fn commits(reply: &GroupReply) -> bool
    ensures { result ≡ is_commit reply.now }
{
    matches!(reply, GroupReply::Committed(_))
}

/// Where the reply is a commit, adds the spelled record to those of the plan, as that of a commit with this work, of which it
/// takes over what was written.
fn stage(
    kept: &mut Kept,
    plan: &mut Plan,
    work: &mut Work,
    reply: &GroupReply,
) -> Result<(), Memory>
    requires { MayStage kept.old plan.old work.old reply.now }
    ensures same { kept.new ≡ kept.old }
    ensures ahead { (m : MayStage kept.old plan.old work.old reply.now) → OnOk result (IsAhead m.world (m.more ++ made_by m.t reply.now) plan.new) }
    ensures work { SettlesOnly work.old work.new }
{
    if !commits(reply) {
        return Ok(());
    }
    let number = kept.log.last() + plan.staged.len() as u64 + 1;
    let at = plan.bytes.len() as u64;
    push_staged(&mut plan.staged, at, kept.parts.len())?;
    push_parts(&mut plan.parts, kept.parts.as_slice())?;
    push_bytes(&mut plan.bytes, records_in(&kept.buffer))?;
    plan.notes.reserve()?;
    let spare = kept.notes.spare_set();
    let writes = work.take_writes(spare);
    plan.notes.add(number, writes);
    Ok(())
}

fn push_reply(replies: &mut Vec<GroupReply>, reply: GroupReply) -> Result<(), Memory>
    ensures { OnOk result (replies.new.items ≡ replies.old.items ++ reply ∷ []) }
{
    replies.push(reply)?;
    Ok(())
}

/// Decides one member more, and adds its reply to the others.
pub(crate) fn plan_member(
    kept: &mut Kept,
    plan: &mut Plan,
    replies: &mut Vec<GroupReply>,
    member: &mut GroupEnd,
) -> Result<(), Memory>
    requires { IsNextMember kept.old plan.old member.old }
    ensures planned { (m : IsNextMember kept.old plan.old member.old) → OnOk result (HasPlanned m.world m.more (m.t ∷ []) plan.new replies.old.items replies.new.items) }
    ensures same { SpellsOnly kept.old kept.new }
    ensures member { unsettled member.new ≡ unsettled member.old }
{
    let reply = judge(kept, plan, member)?;
    stage(kept, plan, &mut member.work, &reply)?;
    push_reply(replies, reply)?;
    Ok(())
}

/// Decides all members in order, each after those before it.
pub(crate) fn plan_members(
    kept: &mut Kept,
    plan: &mut Plan,
    replies: &mut Vec<GroupReply>,
    group: &mut [GroupEnd],
) -> Result<(), Memory>
    requires { AreNextMembers kept.old plan.old group.old }
    ensures planned { (m : AreNextMembers kept.old plan.old group.old) → OnOk result (HasPlanned m.world m.more m.members plan.new replies.old.items replies.new.items) }
    ensures same { SpellsOnly kept.old kept.new }
    ensures members { map unsettled group.new ≡ map unsettled group.old }
{
    let Some((member, rest)) = group.split_first_mut() else {
        return Ok(());
    };
    plan_member(kept, plan, replies, member)?;
    plan_members(kept, plan, replies, rest)
}
