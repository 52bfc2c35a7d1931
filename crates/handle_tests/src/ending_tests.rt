// Sessions of one thread that end with nobody.
ghost use Rattle.std.specs.Prelude.{◌≡◌, ◌<◌, Some};
ghost use Rattle.committer.specs.Sides.{IsClient, Rests};
ghost use Rattle.handle_pass.specs.Sessions.{device_of};

use crate::hall::{Clients, Hall, Play, played};
use crate::same::same;
use crate::waiting::UNITS;
use committer::{Client, Committer, Desk, Ends, OfDevice, end_with};
use device_calls::end_now;
use handle_pass::{EndError, Session};
use iso_memdisk::MemDisk;
use iso_model::{CoreError, EndReply, GroupReply};
use iso_shared::{Origin, Port, Shared};
use std::process::Abort;
use std::sync::Wait;
use std::test::Fail;
use test_cores::{small, with_long_logs};

/// What an end with others is answered.
type Answer = Result<GroupReply, EndError>;

/// Fills two blocks with this byte in a new transaction of a session.
pub(crate) fn fill<'a, O: Origin, R: Wait + Abort>(
    rt: &R,
    session: &mut Session<'a, MemDisk, O>,
    blocks: [u32; 2],
    byte: u8,
)
    requires units { 1 < session.old.units }
    requires size { O.start.world.geometry.block ≡ 64 }
    ensures session { (session.new.device ≡ session.old.device) × (session.new.units ≡ session.old.units) }
{
    let [one, other] = blocks;
    let bytes = [byte; 64];
    let begun = session.begin_tx(rt, None).is_ok();
    let written = session.write_block(one, &bytes).is_ok();
    if !begun || !written || session.write_block(other, &bytes).is_err() {
        panic!(rt; "a transaction");
    }
}

/// Ends the transaction of a session at a desk.
pub(crate) fn end<'a, O: Origin, P: OfDevice<MemDisk, O>, R: Wait>(
    rt: &R,
    shared: &Shared<MemDisk, O>,
    session: &mut Session<'a, MemDisk, O>,
    committer: &Committer<MemDisk, O, P>,
    desks: &[Desk<Ends<MemDisk, O, P>>],
    desk: &Desk<Ends<MemDisk, O, P>>,
    client: &mut Client<Ends<MemDisk, O, P>>,
) -> Answer
    requires device { (P.device ≡ Some shared.now) × (session.old.device ≡ device_of shared.now) }
    requires units { session.old.units ≡ 64 }
    requires client { IsClient desk.now client.old × Rests client.old }
    ensures session { (session.new.device ≡ session.old.device) × (session.new.units ≡ session.old.units) }
    ensures client { IsClient desk.now client.new × Rests client.new }
{
    end_with(rt, shared, session, committer, desks, desk, client)
}

/// Two transactions after one another; whether the session has one then; and where it has, whether an upkeep makes room, and the plain
/// end after it.
#[derive(Drop)]
struct Alone;

impl Play for Alone {
    type Told = (Answer, Answer, Option<(bool, Result<EndReply, EndError>)>);

    fn play<O: Origin, P: OfDevice<MemDisk, O>, R: Wait + Abort>(
        &self,
        rt: &R,
        hall: &Hall<'_, O, P>,
        port: &mut Port<MemDisk, O>,
        clients: Clients<O, P>,
    ) -> (
        (Answer, Answer, Option<(bool, Result<EndReply, EndError>)>),
        Clients<O, P>,
    ) {
        let (shared, committer, desks) = (hall.shared, hall.committer, hall.desks);
        let mut clients = clients;
        let mut session = Session::new(shared, shared.port(port, UNITS));
        let (b, mine) = (hall.b, &mut clients.b);
        fill(rt, &mut session, [1, 2], 7);
        let first = end(rt, shared, &mut session, committer, desks, b, mine);
        fill(rt, &mut session, [1, 2], 7);
        let second = end(rt, shared, &mut session, committer, desks, b, mine);
        let again = match session.mode() {
            None => None,
            Some(_) => {
                let compacted = session.compact(rt).is_ok();
                Some((compacted, end_now(rt, &mut session)))
            }
        };
        shared.join(port, session.finish(rt));
        ((first, second, again), clients)
    }
}

// two writes and two syncs of the disk for each
#[test]
fn one_alone_commits(rt: HostRuntime) -> Result<(), Fail> {
    let (told, calls) = played(&rt, rt.alloc(), &with_long_logs(), u64::MAX, &Alone);
    let first = Ok(GroupReply::Committed(1));
    same(&rt, told, (first, Ok(GroupReply::Committed(2)), None));
    same(&rt, calls, 8);
    Ok(())
}

// A record of two whole blocks has 164 bytes, and one byte stays for the next gate. So a log of 256 has room for one.
#[test]
fn one_that_does_not_fit_stays_and_is_ended_again(rt: HostRuntime) -> Result<(), Fail> {
    let (told, _) = played(&rt, rt.alloc(), &small(), u64::MAX, &Alone);
    let first = Ok(GroupReply::Committed(1));
    let full = Err(EndError::Core(CoreError::LogFull {
        need: 165,
        free: 92,
    }));
    let again = Some((true, Ok(EndReply::Committed(2))));
    same(&rt, told, (first, full, again));
    Ok(())
}
