// The end of a group.
ghost use Rattle.std.specs.Prelude.{◌≡◌, ◌<◌, ◌++◌, true, false, [], ◌∷◌, OnOk, length, map};
ghost use Rattle.iso_model.specs.World.{World};
ghost use Rattle.iso_core.specs.{Kept.{Becomes, IsOf}, Planned.{EndsMembers, HasMembers, IsPlannedFor, IsReady, MayEndGroup, PlansSame, unsettled}};

use crate::append::append;
use crate::group_end::GroupEnd;
use crate::judge::plan_members;
use crate::kept::Kept;
use crate::plan::Plan;
use crate::taking::{leave_members, reserve_plan, take_plan};
use iso_disk::Disk;
use iso_model::{CoreError, GroupReply, Memory};

// Puts a closed gate after records.
fn close(bytes: &mut Vec<u8>) -> Result<(), Memory>
    ensures { OnOk result (bytes.new.items ≡ bytes.old.items ++ 0 ∷ []) }
{
    bytes.push(0)?;
    Ok(())
}

// Whether no member commits.
fn is_bare(plan: &Plan) -> bool
    ensures none { result ≡ true → length plan.now.staged.items ≡ 0 }
    ensures some { result ≡ false → 0 < length plan.now.staged.items }
{
    plan.staged.is_empty()
}

// How many bytes there is room for at first, which the records of most groups do not pass.
const RECORDS: usize = 1024;

// Makes room for what `members` members make.
fn make_room(plan: &mut Plan, replies: &mut Vec<GroupReply>, members: usize) -> Result<(), Memory>
    ensures plan { PlansSame plan.old plan.new }
    ensures replies { replies.new.items ≡ replies.old.items }
{
    replies.reserve(members)?;
    plan.bytes.reserve(RECORDS)?;
    plan.staged.reserve(members)?;
    plan.parts.reserve(members)?;
    plan.notes.reserve_more(members)
}

/// Decides all members, and takes all memory that their commits take. Of the plan and the replies the memory alone is used.
fn prepare_group(
    kept: &mut Kept,
    plan: &mut Plan,
    replies: &mut Vec<GroupReply>,
    ends: &mut [GroupEnd],
) -> Result<(), Memory>
    requires { HasMembers IsReady kept.old ends.old }
    ensures planned { (m : HasMembers IsReady kept.old ends.old) → OnOk result (IsPlannedFor m.world m.members plan.new kept.new replies.new.items) }
    ensures same { (W : World) → IsOf kept.old W → Becomes kept.old kept.new W }
    ensures members { map unsettled ends.new ≡ map unsettled ends.old }
{
    plan.clear(kept.alloc);
    replies.clear();
    make_room(plan, replies, ends.len())?;
    plan_members(kept, plan, replies, ends)?;
    reserve_plan(kept, plan)?;
    close(&mut plan.bytes)?;
    Ok(())
}

/// Ends members whose works are settled, while the core is up: all their commits are in one append, or none. The replies
/// are handed out in order. Of the plan and the replies the memory alone is used. The works are settled no more.
pub(crate) fn end_ready<D: Disk>(
    kept: &mut Kept,
    disk: &mut D,
    plan: &mut Plan,
    replies: &mut Vec<GroupReply>,
    ends: &mut [GroupEnd],
) -> Result<(), CoreError>
    requires { MayEndGroup IsReady (D.state disk.old) kept.old ends.old }
    ensures ends { EndsMembers D.state IsReady (λ told. replies.new.items ≡ told) disk.old disk.new kept.old kept.new ends.old result }
    ensures members { map unsettled ends.new ≡ map unsettled ends.old }
{
    if let Err(_) = prepare_group(kept, plan, replies, ends) {
        return Err(CoreError::Memory);
    }
    if is_bare(plan) {
        leave_members(kept, ends);
        return Ok(());
    }
    match append(&mut kept.log, disk, plan.bytes.as_slice()) {
        Ok(gate) => {
            take_plan(kept, gate, plan);
            leave_members(kept, ends);
            Ok(())
        }
        Err(_) => {
            kept.down = true;
            leave_members(kept, ends);
            Err(CoreError::Disk)
        }
    }
}
