// The desks, and who works at each.
ghost use Rattle.std.specs.Prelude.{◌≡◌, ◌+◌, ◌*◌, ◌<◌, ◌≤◌, [], length, vec_capacity};
ghost use Rattle.iso_shared.specs.Ports.{IsPort, port_view};
ghost use Rattle.commit_load.specs.Seats.{AreSeated, IsWorker};

use committer::{Client, Desk, Ends, OfDevice};
use iso_disk::Disk;
use iso_shared::{Origin, Port, Shared};
use std::alloc::Global;

/// The units of a worker's port.
const UNITS: u64 = 128;

/// A thread's place at a desk, its port, and how many transactions it has committed.
#[derive(Drop)]
pub(crate) struct Worker<D: Disk + Drop, O: Origin, P: OfDevice<D, O>> {
    pub(crate) client: Client<Ends<D, O, P>>,
    pub(crate) port: Port<D, O>,
    pub(crate) commits: u64,
}

/// Makes so many desks, with a worker at each. Answers whether there was memory for all.
#[tactic(auto, using(crate::proofs::Seating::seated_more))]
pub(crate) fn seat_all<D: Disk + Drop, O: Origin, P: OfDevice<D, O>>(
    alloc: Global,
    shared: &Shared<D, O>,
    port: &mut Port<D, O>,
    threads: usize,
    desks: &mut Vec<Desk<Ends<D, O, P>>>,
    workers: &mut Vec<Worker<D, O, P>>,
) -> bool
    requires port { IsPort shared.now port.old }
    requires units { 128 * threads < (port_view port.old).units }
    requires empty { (desks.old.items ≡ []) × (workers.old.items ≡ []) }
    requires room { (threads ≤ vec_capacity desks.old) × (threads ≤ vec_capacity workers.old) }
    ensures port { IsPort shared.now port.new }
    ensures units { (port_view port.new).units + 128 * length desks.new.items ≡ (port_view port.old).units }
    ensures seated { AreSeated shared.now desks.new.items workers.new.items }
{
    while desks.len() < threads {
        let Ok((desk, client)) = Desk::new(alloc) else {
            return false;
        };
        desks.push_reserved(desk);
        workers.push_reserved(Worker {
            client,
            port: shared.port(port, UNITS),
            commits: 0,
        });
    }
    true
}

/// Closes the desks, takes the ports of all workers into this one, and answers how many transactions they have committed.
pub(crate) fn leave_all<D: Disk + Drop, O: Origin, P: OfDevice<D, O>>(
    shared: &Shared<D, O>,
    port: &mut Port<D, O>,
    mut desks: Vec<Desk<Ends<D, O, P>>>,
    mut workers: Vec<Worker<D, O, P>>,
) -> u64
    requires port { IsPort shared.now port.old }
    requires seated { AreSeated shared.now desks.items workers.items }
    ensures port { IsPort shared.now port.new }
    ensures units { (port_view port.new).units ≡ (port_view port.old).units + 128 * length desks.items }
{
    let Some(desk) = desks.pop() else {
        desks.destroy_empty();
        return 0;
    };
    let Some(worker) = workers.pop() else {
        unreachable!()
    };
    let commits = leave(shared, port, desk, worker);
    leave_all(shared, port, desks, workers).saturating_add(commits)
}

// Closes a desk, and takes the port of its worker into this one.
fn leave<D: Disk + Drop, O: Origin, P: OfDevice<D, O>>(
    shared: &Shared<D, O>,
    port: &mut Port<D, O>,
    desk: Desk<Ends<D, O, P>>,
    worker: Worker<D, O, P>,
) -> u64
    requires port { IsPort shared.now port.old }
    requires worker { IsWorker shared.now desk worker }
    ensures port { IsPort shared.now port.new }
    ensures units { (port_view port.new).units ≡ (port_view port.old).units + 128 }
{
    let Worker {
        client,
        port: own,
        commits,
    } = worker;
    desk.close(client);
    shared.join(port, own);
    commits
}
