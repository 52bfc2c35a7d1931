// What the threads do.
ghost use Rattle.std.specs.Prelude.{◌≡◌, Some, slice_get};
ghost use denote.Param.Send.{IsSync};
ghost use Rattle.committer.specs.Sides.{IsClient, Rests};
ghost use Rattle.handle_pass.specs.Sessions.{device_of};
ghost use Rattle.iso_shared.specs.Ports.{first_geometry};
ghost use Rattle.commit_load.specs.Seats.{AreSeated, IsSeated};

use crate::load::{Load, MOST_THREADS};
use crate::seats::Worker;
use committer::{Client, Committer, Desk, Ends, OfDevice, end_with};
use device_calls::end_now;
use handle_pass::{EndError, Session};
use iso_disk::Disk;
use iso_model::{EndReply, GroupReply};
use iso_shared::{Origin, Shared};
use std::sync::Wait;
use std::thread::{self, Threads};

/// The units of a session: where it ends with others it splits 32 off.
const UNITS: u64 = 64;

/// How many blocks each thread has of its own.
const OWN: u32 = 4;

/// Where a thread ends its transactions: its desk among all, and who ends those that are handed in.
#[derive(Drop)]
struct Place<'a, D: Disk + Drop, O: Origin, P: OfDevice<D, O>> {
    shared: &'a Shared<D, O>,
    committer: &'a Committer<D, O, P>,
    desks: &'a [Desk<Ends<D, O, P>>],
    desk: &'a Desk<Ends<D, O, P>>,
}

// Writes 16 bytes of a block in a new transaction. Answers whether that is done.
fn has_written<'a, D: Disk + Drop, O: Origin, R: Wait>(
    rt: &R,
    session: &mut Session<'a, D, O>,
    block: u32,
) -> bool
    requires units { session.old.units ≡ 64 }
    requires size { O.start.world.geometry.block ≡ 256 }
    ensures session { (session.new.device ≡ session.old.device) × (session.new.units ≡ session.old.units) }
{
    session.begin_tx(rt, None).is_ok()
        && session.write_block(block, &[7; 256]).is_ok()
        && session.mark_accessed(0, 16).is_ok()
}

// Ends the transaction by itself. Answers whether it has committed.
fn is_committed<'a, D: Disk + Drop, O: Origin, R: Wait>(
    rt: &R,
    session: &mut Session<'a, D, O>,
) -> bool
    ensures session { (session.new.device ≡ session.old.device) × (session.new.units ≡ session.old.units) }
{
    matches!(end_now(rt, session), Ok(EndReply::Committed(_)))
}

// Ends the transaction together with those of other threads.
fn end_together<'a, D: Disk + Drop, O: Origin, P: OfDevice<D, O>, R: Wait>(
    rt: &R,
    place: &Place<'a, D, O, P>,
    session: &mut Session<'a, D, O>,
    client: &mut Client<Ends<D, O, P>>,
) -> Result<GroupReply, EndError>
    requires device { (P.device ≡ Some place.now.shared.now) × (session.old.device ≡ device_of place.now.shared.now) }
    requires units { session.old.units ≡ 64 }
    requires client { IsClient place.now.desk.now client.old × Rests client.old }
    ensures session { (session.new.device ≡ session.old.device) × (session.new.units ≡ session.old.units) }
    ensures client { IsClient place.now.desk.now client.new × Rests client.new }
{
    end_with(
        rt,
        place.shared,
        session,
        place.committer,
        place.desks,
        place.desk,
        client,
    )
}

// The same. Answers whether it has committed.
fn is_committed_together<'a, D: Disk + Drop, O: Origin, P: OfDevice<D, O>, R: Wait>(
    rt: &R,
    place: &Place<'a, D, O, P>,
    session: &mut Session<'a, D, O>,
    client: &mut Client<Ends<D, O, P>>,
) -> bool
    requires device { (P.device ≡ Some place.now.shared.now) × (session.old.device ≡ device_of place.now.shared.now) }
    requires units { session.old.units ≡ 64 }
    requires client { IsClient place.now.desk.now client.old × Rests client.old }
    ensures session { (session.new.device ≡ session.old.device) × (session.new.units ≡ session.old.units) }
    ensures client { IsClient place.now.desk.now client.new × Rests client.new }
{
    let ended = end_together(rt, place, session, client);
    matches!(ended, Ok(GroupReply::Committed(_)))
}

// One transaction, whose session has none after it. Answers whether it has committed.
fn commit<'a, D: Disk + Drop, O: Origin, P: OfDevice<D, O>, R: Wait>(
    rt: &R,
    place: &Place<'a, D, O, P>,
    session: &mut Session<'a, D, O>,
    client: &mut Client<Ends<D, O, P>>,
    together: bool,
    block: u32,
) -> bool
    requires device { (P.device ≡ Some place.now.shared.now) × (session.old.device ≡ device_of place.now.shared.now) }
    requires units { session.old.units ≡ 64 }
    requires size { O.start.world.geometry.block ≡ 256 }
    requires client { IsClient place.now.desk.now client.old × Rests client.old }
    ensures session { (session.new.device ≡ session.old.device) × (session.new.units ≡ session.old.units) }
    ensures client { IsClient place.now.desk.now client.new × Rests client.new }
{
    let mut committed = false;
    if has_written(rt, session, block) {
        committed = if together {
            is_committed_together(rt, place, session, client)
        } else {
            is_committed(rt, session)
        };
    }
    let _ = session.abort_tx(rt);
    committed
}

// All transactions of a thread, on blocks of its own, one after the other. Answers how many have committed.
fn commit_all<'a, D: Disk + Drop, O: Origin, P: OfDevice<D, O>, R: Wait>(
    rt: &R,
    place: &Place<'a, D, O, P>,
    session: &mut Session<'a, D, O>,
    client: &mut Client<Ends<D, O, P>>,
    load: &Load,
    number: usize,
) -> u64
    requires device { (P.device ≡ Some place.now.shared.now) × (session.old.device ≡ device_of place.now.shared.now) }
    requires units { session.old.units ≡ 64 }
    requires size { O.start.world.geometry.block ≡ 256 }
    requires client { IsClient place.now.desk.now client.old × Rests client.old }
    ensures session { (session.new.device ≡ session.old.device) × (session.new.units ≡ session.old.units) }
    ensures client { IsClient place.now.desk.now client.new × Rests client.new }
{
    let first = (number % MOST_THREADS) as u32 * OWN;
    let mut commits: u64 = 0;
    for turn in 0..load.commits {
        let block = first + turn % OWN;
        if commit(rt, place, session, client, load.together, block) {
            commits = commits.saturating_add(1);
        }
    }
    commits
}

// The part of one thread: a session, and all its transactions in it.
fn work<'a, D: Disk + Drop, O: Origin, P: OfDevice<D, O>, R: Wait>(
    rt: &R,
    shared: &'a Shared<D, O>,
    committer: &'a Committer<D, O, P>,
    desks: &'a [Desk<Ends<D, O, P>>],
    load: &Load,
    number: usize,
    worker: &mut Worker<D, O, P>,
)
    requires device { P.device ≡ Some shared.now }
    requires image { (first_geometry shared.now ≡ O.start.world.geometry) × (O.start.world.geometry.block ≡ 256) }
    requires seated { IsSeated shared.now (slice_get desks.now number) worker.old }
    ensures seated { IsSeated shared.now (slice_get desks.now number) worker.new }
{
    let Some(desk) = desks.get(number) else {
        return;
    };
    let place = Place {
        shared,
        committer,
        desks,
        desk,
    };
    let mut session = Session::new(shared, shared.port(&mut worker.port, UNITS));
    worker.commits = commit_all(rt, &place, &mut session, &mut worker.client, load, number);
    shared.join(&mut worker.port, session.finish(rt));
}

/// Has all workers do their part, each in a thread of its own.
pub(crate) fn work_all<
    D: Disk + Drop + Send,
    O: Origin + Send + Sync,
    P: OfDevice<D, O> + Send + Sync,
    R: Threads + Wait + Sync,
>(
    rt: &R,
    shared: &Shared<D, O>,
    committer: &Committer<D, O, P>,
    desks: &[Desk<Ends<D, O, P>>],
    load: &Load,
    workers: &mut [Worker<D, O, P>],
)
    requires device { P.device ≡ Some shared.now }
    requires image { (first_geometry shared.now ≡ O.start.world.geometry) × (O.start.world.geometry.block ≡ 256) }
    requires seated { AreSeated shared.now desks.now workers.old }
    ensures seated { AreSeated shared.now desks.now workers.new }
{
    if workers.is_empty() {
        return;
    }
    let threads = workers.len();
    let each = |number: usize, worker: &mut Worker<D, O, P>|
        requires { IsSync R.row × (P.device ≡ Some shared.now) × (first_geometry shared.now ≡ O.start.world.geometry) × (O.start.world.geometry.block ≡ 256) × IsSeated shared.now (slice_get desks.now number) worker.old }
        ensures { IsSeated shared.entry.now (slice_get desks.entry.now number) worker.new }
    { work(rt, shared, committer, desks, load, number, worker) };
    thread::for_each_mut(rt, workers, threads, &each);
}
