// The end of a session's transaction, together with those of other threads.
ghost use Rattle.std.specs.Prelude.{◌≡◌, ◌<◌, ℕ, IsSome, None, Some};
ghost use Rattle.committer.specs.Sides.{IsClient, Rests};
ghost use Rattle.handle_pass.specs.{Handles.TookOver, Held.held_state, Sessions.device_of, Splits.port_units};
ghost use Rattle.committer.specs.{Outcomes.MayEnd, Together.{HasEndedItself, HasEndedWith, IsHandedOut}};

use crate::committer::Committer;
use crate::desk::{Client, Desk};
use crate::ends::{Ends, OfDevice, Outcome, member_reply};
use counts::Steps;
use group_commit::Ended;
use handle_pass::{EndError, Handle, Session};
use iso_disk::Disk;
use iso_model::{CoreError, GroupReply};
use iso_shared::{Origin, Shared, Tx};
use std::marker::Brand;
use std::sync::Wait;
use std::sync::ledger::{Blank, Ledger};

/// Ends the transaction of a session together with those that other threads end at this committer at the same time. The session
/// keeps its places and its units, and knows the entry of the end, which the committer's port made. Who comes alone, as nobody serves and
/// nothing is handed in, ends its own as `Session::end_tx` does: the entry is the session's.
///
/// # Errors
///
/// As those of `Session::end_tx`, and what they leave. A member of a group for which the log has no room, or for which there is no
/// number, is told so in its reply, and is aborted.
/// - `NotInTx`: the session has no transaction.
/// - `Core(Disk)`: there is no transaction any more.
/// - any other `Core`: the session has the transaction as it was.
pub fn end_with<'a, D: Disk + Drop, O: Origin, P: OfDevice<D, O>, R: Wait>(
    rt: &R,
    shared: &Shared<D, O>,
    session: &mut Session<'a, D, O>,
    committer: &Committer<D, O, P>,
    desks: &[Desk<Ends<D, O, P>>],
    desk: &Desk<Ends<D, O, P>>,
    client: &mut Client<Ends<D, O, P>>,
) -> Result<GroupReply, EndError>
    requires device { (P.device ≡ Some shared.now) × (session.old.device ≡ device_of shared.now) }
    requires units { 32 < port_units session.old }
    requires client { IsClient desk.now client.old × Rests client.old }
    ensures client { IsClient desk.now client.new × Rests client.new }
    ensures did { HasEndedWith O.start session.old result session.new }
{
    if let Some(_place) = committer.free_place(desks) {
        return end_by_itself::<Brand, D, O, R>(Blank::new(1), rt, session);
    }
    if session.mode().is_none() {
        return Err(EndError::NotInTx);
    }
    let tx = hand_out(shared, session);
    match committer.end(rt, shared, desks, desk, client, tx) {
        Outcome::Ended(ended) => {
            let Ended { reply, port } = ended;
            session.join_port(port);
            Ok(reply)
        }
        Outcome::Refused(error, tx) => {
            take_back(shared, session, tx);
            Err(EndError::Core(error))
        }
        Outcome::Lost(port) => {
            session.join_port(port);
            Err(EndError::Core(CoreError::Disk))
        }
    }
}

// Ends the transaction of a session by itself, with the ledger of a blank.
fn end_by_itself<'a, L: Ledger, D: Disk + Drop, O: Origin, R: Wait>(
    blank: Blank,
    rt: &R,
    session: &mut Session<'a, D, O>,
) -> Result<GroupReply, EndError>
    requires name { blank.name ≡ L.name }
    requires parts { blank.parts ≡ L.parts }
    requires some { 0 < L.parts }
    ensures { HasEndedItself O.start session.old result session.new }
{
    let mut steps = Steps::<L>::start(blank);
    match session.end_tx(rt, &mut steps) {
        Ok(reply) => Ok(member_reply(reply)),
        Err(error) => Err(error),
    }
}

// The transaction of a session, with one unit. Its places stay with the session.
fn hand_out<'a, D: Disk + Drop, O: Origin>(
    shared: &Shared<D, O>,
    session: &mut Session<'a, D, O>,
) -> Tx<D, O>
    requires device { session.old.device ≡ device_of shared.now }
    requires own { IsSome session.old.own }
    requires units { 32 < port_units session.old }
    ensures out { IsHandedOut shared.now O.start session.old result session.new }
{
    let mut port = session.split_port();
    let Ok(handle) = session.release_tx() else {
        unreachable!()
    };
    let mut tx = handle.into_tx();
    shared.leave_places(&mut port, &mut tx);
    session.join_port(port);
    tx
}

// Gives a session, which has no transaction, one that was handed back.
fn take_back<'a, D: Disk + Drop, O: Origin>(
    shared: &Shared<D, O>,
    session: &mut Session<'a, D, O>,
    tx: Tx<D, O>,
)
    requires device { session.old.device ≡ device_of shared.now }
    requires none { session.old.own ≡ None }
    requires tx { MayEnd shared.now O.start tx }
    ensures { (at : ℕ) × TookOver session.old (held_state tx) at session.new }
{
    let _ = shared;
    match session.takeover_tx(Handle::of(tx)) {
        Ok(_at) => {}
        Err((_, _handle)) => unreachable!(),
    }
}
