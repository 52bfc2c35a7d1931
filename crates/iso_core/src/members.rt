// The members of a group: their works are settled, they end, and each is told how.
ghost use Rattle.std.specs.Prelude.{◌≡◌, Some, OnErr, map};
ghost use Rattle.iso_core.specs.Planned.{EndsMembers, IsMember, MayEndGroup, bare_end, reply_in, unsettled};

use crate::group::end_ready;
use crate::group_end::GroupEnd;
use crate::kept::Kept;
use crate::plan::Plan;
use crate::settling::{put_replies, settle_members};
use iso_disk::Disk;
use iso_model::{CoreError, GroupReply};

/// Ends members, while the core is up. Of the plan and the replies the memory alone is used.
pub(crate) fn end_members<D: Disk>(
    kept: &mut Kept,
    disk: &mut D,
    plan: &mut Plan,
    replies: &mut Vec<GroupReply>,
    ends: &mut [GroupEnd],
) -> Result<(), CoreError>
    requires { MayEndGroup IsMember (D.state disk.old) kept.old ends.old }
    ensures ends { EndsMembers D.state IsMember (λ told. map reply_in ends.new ≡ map Some told) disk.old disk.new kept.old kept.new ends.old result }
    ensures members { map bare_end ends.new ≡ map bare_end ends.old }
    ensures untold { OnErr result (map unsettled ends.new ≡ map unsettled ends.old) }
{
    if let Err(_) = settle_members(ends) {
        return Err(CoreError::Memory);
    }
    match end_ready(kept, disk, plan, replies, ends) {
        Ok(()) => {
            put_replies(ends, replies.as_slice());
            Ok(())
        }
        Err(error) => Err(error),
    }
}
