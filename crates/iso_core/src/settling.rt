// The works of a group are settled, and its replies handed out.
ghost use Rattle.std.specs.Prelude.{◌≡◌, ◌<◌, List, [], ◌∷◌, Some, IfNone, IfSome, OnOk, length, map};
ghost use Rattle.iso_model.specs.World.{World, Live};
ghost use Rattle.iso_core.specs.{declared.group_end.GroupEnd.GroupEnd, Planned.{AreEach, IsMember, IsReady, unsettled, without_reply}};

use crate::group_end::GroupEnd;
use iso_model::{GroupReply, Memory};

/// Settles the work of a member.
fn settle_member(member: &mut GroupEnd) -> Result<(), Memory>
    ensures ready { (W : World) (t : Live) → IsMember W member.old t → OnOk result (IsReady W member.new t) }
    ensures same { unsettled member.new ≡ unsettled member.old }
{
    member.work.settle()?;
    let _ = member.work.room();
    Ok(())
}

/// Settles the works of all members.
pub(crate) fn settle_members(ends: &mut [GroupEnd]) -> Result<(), Memory>
    ensures ready { (W : World) (members : List Live) → AreEach (IsMember W) ends.old members → OnOk result (AreEach (IsReady W) ends.new members) }
    ensures same { map unsettled ends.new ≡ map unsettled ends.old }
{
    let Some((member, rest)) = ends.split_first_mut() else {
        return Ok(());
    };
    settle_member(member)?;
    settle_members(rest)
}

// The first reply, and the others.
fn first_reply(replies: &[GroupReply]) -> Option<(GroupReply, &[GroupReply])>
    ensures some { IfSome result (λ x. replies.now ≡ x.0 ∷ x.1.now) }
    ensures none { IfNone result (replies.now ≡ []) }
{
    match replies.split_first() {
        Some((first, rest)) => Some((*first, rest)),
        None => None,
    }
}

fn put_reply(member: &mut GroupEnd, reply: GroupReply)
    ensures { member.new ≡ record member.old { reply = Some reply } }
{
    member.reply = Some(reply);
}

/// Gives each member its reply.
pub(crate) fn put_replies(ends: &mut [GroupEnd], replies: &[GroupReply])
    requires { length ends.old ≡ length replies.now }
    ensures replies { map (λ (m : GroupEnd). m.reply) ends.new ≡ map Some replies.now }
    ensures rest { map without_reply ends.new ≡ map without_reply ends.old }
{
    let Some((first, others)) = first_reply(replies) else {
        return;
    };
    let Some((member, rest)) = ends.split_first_mut() else {
        return;
    };
    put_reply(member, first);
    put_replies(rest, others);
}
