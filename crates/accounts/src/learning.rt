// What a thread learns of the transactions that it gave away, and how it goes on.
ghost use Rattle.std.specs.{Prelude.{◌≡◌, List, length}, List.AllByRecursion};
ghost use Rattle.iso_shared.specs.declared.tx.Tx.{Tx};
ghost use Rattle.handle_pass.specs.Sessions.{device_of};
ghost use mathlib.Core.List.{IsPrefix};
ghost use Rattle.accounts.specs.{Jobs.planned, Kept.{Gains, IsKeptSession, MayBegin}, Learned.{AreTold, IsEnded, IsLearned, told_units}, Made.opening_of};

use crate::account::{Account, Members, Plan, Transfer};
use crate::amounts::Place;
use crate::threads::commit_all;
use group_commit::Ended;
use handle_pass::Session;
use iso_disk::Disk;
use iso_model::{CoreError, GroupReply};
use iso_shared::{Origin, Shared, Tx};
use std::alloc::Global;
use std::sync::Wait;

/// The transfers of these whose transactions were given away, in order. Without memory it has only the first of them.
pub(crate) fn given_of<D: Disk + Drop, O: Origin>(
    alloc: Global,
    transfers: &[Transfer],
    members: &[Option<Tx<D, O>>],
) -> Vec<Transfer> {
    let mut given = Vec::new(alloc);
    let mut rest = members;
    for transfer in transfers {
        let Some((member, others)) = rest.split_first() else {
            return given;
        };
        rest = others;
        if member.is_some() {
            if let Err(_) = given.push(*transfer) {
                return given;
            }
        }
    }
    given
}

// Takes in how a member of a group ended, and answers its reply. The session has the member's unit then, and knows the entry in
// which it is a member with this reply.
fn learn_one<'a, D: Disk + Drop, O: Origin>(
    shared: &Shared<D, O>,
    session: &mut Session<'a, D, O>,
    accounts: &[Account],
    ended: Ended<D, O>,
) -> GroupReply
    requires session { IsKeptSession shared.now (opening_of accounts.now) O.start session.old }
    requires ended { IsEnded shared.now O.start ended }
    ensures session { Gains (opening_of accounts.now) O.start session.old session.new 1 }
    ensures known { IsPrefix session.old.seen session.new.seen }
    ensures reply { result ≡ ended.reply }
    ensures learned { IsLearned shared.now O.start session.new.seen ended }
{
    let _ = shared;
    let _ = accounts;
    let Ended { reply, port } = ended;
    session.join_port(port);
    reply
}

// Counts one member more, and notes its transfer where it clashed. Without memory it is not noted, and so not made again.
fn noted(
    members: Members,
    given: &[Transfer],
    clashed: &mut Vec<Transfer>,
    reply: &GroupReply,
) -> Members {
    if let GroupReply::Conflict(_) = reply {
        if let Some(transfer) = given.get(members.ended as usize) {
            let _ = clashed.push(*transfer);
        }
    }
    let committed = match reply {
        GroupReply::Committed(_) => members.committed.saturating_add(1),
        _ => members.committed,
    };
    Members {
        ended: members.ended.saturating_add(1),
        committed,
        again: members.again,
    }
}

// Takes in how each member of a group ended, in the order in which they were given away, and counts them. The transfers that
// clashed are noted.
fn learn_all<'a, D: Disk + Drop, O: Origin>(
    shared: &Shared<D, O>,
    session: &mut Session<'a, D, O>,
    accounts: &[Account],
    given: &[Transfer],
    clashed: &mut Vec<Transfer>,
    told: Vec<Ended<D, O>>,
) -> Members
    requires session { IsKeptSession shared.now (opening_of accounts.now) O.start session.old }
    requires told { AllByRecursion (IsEnded shared.now O.start) told.items }
    ensures session { Gains (opening_of accounts.now) O.start session.old session.new (length told.items) }
    ensures learned { AllByRecursion (IsLearned shared.now O.start session.new.seen) told.items }
{
    let mut members = Members {
        ended: 0,
        committed: 0,
        again: 0,
    };
    let mut rest = told.into_iter();
    while let Some(ended) = rest.next() {
        let reply = learn_one(shared, session, accounts, ended);
        members = noted(members, given, clashed, &reply);
    }
    rest.destroy_empty();
    members
}

/// The thread that gave transactions away takes in how each of them ended, and goes on: it makes the transfers that clashed again,
/// each in a transaction of its own. Where the group was refused they were aborted, or a fault of the disk has ended them.
pub(crate) fn learn<'a, D: Disk + Drop, O: Origin, R: Wait>(
    rt: &R,
    place: Place,
    shared: &Shared<D, O>,
    session: &mut Session<'a, D, O>,
    plan: &Plan,
    given: Vec<Transfer>,
    told: Result<Vec<Ended<D, O>>, CoreError>,
) -> Result<Members, CoreError>
    requires of { session.old.device ≡ device_of shared.now }
    requires session { MayBegin (planned plan.now) O.start place.region session.old }
    requires told { (txs : List (Tx D O)) × AreTold shared.now O.start txs told }
    ensures { Gains (planned plan.now) O.start session.old session.new (told_units told) }
{
    match told {
        Err(error) => Err(error),
        Ok(told) => {
            let mut clashed = Vec::new(place.alloc);
            let members = learn_all(
                shared,
                session,
                plan.accounts,
                given.as_slice(),
                &mut clashed,
                told,
            );
            let again = commit_all(
                rt,
                place.alloc,
                session,
                place.region,
                plan.accounts,
                clashed.as_slice(),
                plan.most,
            );
            Ok(Members {
                ended: members.ended,
                committed: members.committed,
                again,
            })
        }
    }
}
