// The works of the members of a group: the core has them for the time of its call.
ghost use Rattle.std.specs.Prelude.{◌≡◌, ◌+◌, ◌≤◌, ◌++◌, length, map, vec_capacity, vec_len};
ghost use Rattle.iso_shared.specs.{Groups.{ArePaired, IsTaken, end_of}, Ports.doing_of, Told.ends_at, States.replies_of};

use crate::guarded::Origin;
use crate::tx::Tx;
use iso_core::GroupEnd;
use iso_disk::Disk;
use iso_model::{Geometry, GroupReply};
use std::alloc::Global;
use std::mem;
use tx_table::Work;

// A work that has done nothing, which takes the place of another one.
fn blank_for(alloc: Global, geometry: &Geometry, work: &Work) -> Work {
    let image = Geometry {
        block: work.block_size(),
        ..*geometry
    };
    Work::begin(alloc, work.begun_at(), &image)
}

fn take_work<D: Disk + Drop, O: Origin>(
    alloc: Global,
    geometry: &Geometry,
    tx: &mut Tx<D, O>,
) -> GroupEnd
    ensures end { result ≡ end_of tx.old }
    ensures tx { IsTaken tx.old tx.new }
{
    let blank = blank_for(alloc, geometry, &tx.work);
    GroupEnd {
        tx: tx.number,
        work: mem::replace(&mut tx.work, blank),
        reply: None,
    }
}

/// Takes the works of all members, after those that were taken.
pub(crate) fn take_works<D: Disk + Drop, O: Origin>(
    alloc: Global,
    geometry: &Geometry,
    group: &mut [Tx<D, O>],
    ends: &mut Vec<GroupEnd>,
)
    requires { vec_len ends.old + length group.old ≤ vec_capacity ends.old }
    ensures ends { ends.new.items ≡ ends.old.items ++ map end_of group.old }
    ensures group { ArePaired IsTaken group.old group.new }
{
    let Some((tx, rest)) = group.split_first_mut() else {
        return;
    };
    ends.push_reserved(take_work(alloc, geometry, tx));
    take_works(alloc, geometry, rest, ends);
}

fn give_work<D: Disk + Drop, O: Origin>(tx: &mut Tx<D, O>, end: &mut GroupEnd)
    ensures tx { IsTaken tx.old tx.new }
    ensures work { doing_of tx.new ≡ end.old.work }
{
    mem::swap(&mut tx.work, &mut end.work);
}

/// Gives all works back.
pub(crate) fn give_works<D: Disk + Drop, O: Origin>(group: &mut [Tx<D, O>], ends: &mut [GroupEnd])
    requires { length group.old ≡ length ends.old }
    ensures group { ArePaired IsTaken group.old group.new }
    ensures works { ArePaired (λ e t. doing_of t ≡ e.work) ends.old group.new }
{
    let Some((tx, rest)) = group.split_first_mut() else {
        return;
    };
    let Some((end, others)) = ends.split_first_mut() else {
        return;
    };
    give_work(tx, end);
    give_works(rest, others);
}

/// Puts the replies of all members after the others.
pub(crate) fn put_replies(ends: &[GroupEnd], replies: &mut Vec<GroupReply>)
    requires { vec_len replies.old + length ends.now ≤ vec_capacity replies.old }
    ensures { replies.new.items ≡ replies.old.items ++ replies_of (ends_at ends.now) }
{
    let Some((end, rest)) = ends.split_first() else {
        return;
    };
    replies.push_reserved(end.reply.unwrap_or(GroupReply::ReadOnly));
    put_replies(rest, replies);
}
