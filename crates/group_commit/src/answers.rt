// The answers of a group, place by place.
ghost use Rattle.std.specs.Prelude.{◌≡◌, ◌≤◌, [], length};
ghost use Rattle.group_commit.specs.Groups.{marks_of, spread};

use iso_disk::Disk;
use iso_model::{GroupReply, LabelReplies, Reserved};
use iso_shared::{Origin, Tx};

/// The replies at the places that are marked, and none at the others. It takes no memory.
pub(crate) fn spread_all(
    marks: &[bool],
    replies: &[GroupReply],
    told: Reserved<Option<GroupReply>>,
) -> LabelReplies
    requires empty { told.items ≡ [] }
    requires room { length marks.now ≤ told.room }
    ensures { result ≡ spread marks.now replies.now }
{
    let mut told = told;
    let mut left = marks;
    let mut rest = replies;
    while let Some((mark, others)) = left.split_first() {
        left = others;
        if *mark {
            match rest.split_first() {
                Some((first, more)) => {
                    told.push_within(Some(*first));
                    rest = more;
                }
                None => told.push_within(None),
            }
        } else {
            told.push_within(None);
        }
    }
    told.into_items()
}

/// No reply for each of these places. It takes no memory.
pub(crate) fn tell_none<D: Disk + Drop, O: Origin>(
    members: &[Option<Tx<D, O>>],
    told: Reserved<Option<GroupReply>>,
) -> LabelReplies
    requires empty { told.items ≡ [] }
    requires room { length members.now ≤ told.room }
    ensures { result ≡ spread (marks_of members.now) [] }
{
    let mut told = told;
    let mut left = members;
    while let Some((_, others)) = left.split_first() {
        left = others;
        told.push_within(None);
    }
    told.into_items()
}
