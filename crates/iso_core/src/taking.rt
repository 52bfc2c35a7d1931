// The commits of a group are taken in, once their records are written.
ghost use Rattle.std.specs.{Prelude.{◌≡◌, ◌+◌, ◌++◌, IfOk, OnOk, map}, List.Sorted.{IsNonDecreasingBy, IsPermutation}};
ghost use Rattle.iso_model.specs.{Geometry.log_place, Group.{ahead, leave_all}, Image.written};
ghost use Rattle.mv_index.specs.Placed.{IsIndexOf};
ghost use Rattle.iso_core.specs.{Kept.{Becomes, BecomesTidy, Reserves}, Planned.{HasGrownWith, HasMembers, HasPlan, IsLiveMember, IsReserved, LeavesAll, MayTakeStaged}};

use crate::group_end::GroupEnd;
use crate::kept::Kept;
use crate::leave::leave;
use crate::plan::{Plan, Staged};
use conflict_rule::Notes;
use iso_model::Memory;
use mv_index::MvIndex;
use std::alloc::Global;
use std::mem;
use version_read::{PartSpan, add_parts, reserve_parts};

fn copy_parts(alloc: Global, parts: &[PartSpan]) -> Result<Vec<PartSpan>, Memory>
    ensures { IfOk result (λ copy. copy.items ≡ parts.now) }
{
    let mut copy = Vec::new(alloc);
    copy.extend_from_slice(parts)?;
    Ok(copy)
}

// These parts, by their blocks.
fn sorted_parts(alloc: Global, parts: &[PartSpan]) -> Result<Vec<PartSpan>, Memory>
    ensures same { IfOk result (λ all. IsPermutation parts.now all.items) }
    ensures order { IfOk result (λ all. IsNonDecreasingBy (λ part. part.block) all.items) }
{
    let mut all = copy_parts(alloc, parts)?;
    all.sort_unstable_by_key(|part| part.block);
    Ok(all)
}

/// Takes all memory that the commits of a plan take.
pub(crate) fn reserve_plan(kept: &mut Kept, plan: &Plan) -> Result<(), Memory>
    requires { HasPlan kept.old plan.now }
    ensures reserved { OnOk result (IsReserved plan.now kept.new) }
    ensures rest { Reserves kept.old kept.new }
{
    let all = sorted_parts(kept.alloc, plan.parts.as_slice())?;
    reserve_parts(&mut kept.index, all.as_slice())?;
    kept.notes.reserve_for(&plan.notes)?;
    Ok(())
}

/// Adds the versions of staged records with these parts to the index of a half whose records they follow; the first of them has
/// this number; the gate is that of the first one of all.
fn take_staged(index: &mut MvIndex, number: u64, gate: u64, staged: &[Staged], parts: &[PartSpan])
    requires { MayTakeStaged number gate staged.now parts.now index.old }
    ensures { (m : MayTakeStaged number gate staged.now parts.now index.old)
        → IsIndexOf m.g (m.x.base + 1) (log_place m.g m.x.at) m.upto (m.x.told ++ map (written m.g) m.commits) index.new }
{
    let Some((record, rest)) = staged.split_first() else {
        return;
    };
    let (own, others) = parts.split_at(record.count);
    add_parts(index, number, gate + record.at, own);
    take_staged(index, number + 1, gate, rest, others);
}

/// Takes in the commits of a plan, whose records were appended at a gate. All members are live still.
pub(crate) fn take_plan(kept: &mut Kept, gate: u64, plan: &mut Plan)
    requires { HasGrownWith plan.old kept.old gate }
    ensures { (h : HasGrownWith plan.old kept.old gate) → Becomes kept.old kept.new (ahead h.world h.more) }
{
    let first = kept.log.last() - plan.staged.len() as u64 + 1;
    take_staged(
        &mut kept.index,
        first,
        gate,
        plan.staged.as_slice(),
        plan.parts.as_slice(),
    );
    let notes = mem::replace(&mut plan.notes, Notes::empty(kept.alloc));
    kept.notes.take_all(notes);
}

// Takes all members out, one after the other.
fn leave_each(kept: &mut Kept, group: &[GroupEnd])
    requires { HasMembers IsLiveMember kept.old group.now }
    ensures { LeavesAll kept.old kept.new group.now }
{
    let Some((member, rest)) = group.split_first() else {
        return;
    };
    leave(kept, member.tx);
    leave_each(kept, rest);
}

// Takes all members out. Where no other is live, none is left.
fn leave_all(kept: &mut Kept, group: &[GroupEnd])
    requires { HasMembers IsLiveMember kept.old group.now }
    ensures { LeavesAll kept.old kept.new group.now }
{
    if group.len() == kept.live.len() as usize {
        kept.live.clear();
        return;
    }
    leave_each(kept, group);
}

/// Takes all members out, and the notes that no live transaction needs any more. It takes no memory.
pub(crate) fn leave_members(kept: &mut Kept, group: &[GroupEnd])
    requires { HasMembers IsLiveMember kept.old group.now }
    ensures { (m : HasMembers IsLiveMember kept.old group.now) → BecomesTidy kept.old kept.new (leave_all m.members m.world) }
{
    leave_all(kept, group);
    let floor = kept.live.floor(kept.log.last());
    kept.notes.drop_to(floor);
}
