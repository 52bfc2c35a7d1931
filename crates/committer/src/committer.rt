// The threads that end transactions together: one at a time serves the desks, and the others wait for their outcomes.
ghost use Rattle.std.specs.Prelude.{◌≡◌, IfSome, Some};
ghost use Rattle.committer.specs.Sides.{HasRequest, IsClient, Rests};
ghost use Rattle.iso_shared.specs.Ports.{IsPort, port_view};
ghost use Rattle.iso_shared.specs.declared.tx.Tx.{Tx};
ghost use Rattle.committer.specs.Outcomes.{IsOutcome, MayEnd};
ghost use Rattle.turn_lock.specs.Props.{pass_props};

use crate::desk::{Client, Desk};
use crate::ends::{Ends, OfDevice, Outcome, hand_in, take_outcome};
use crate::gather::{gather, requests};
use crate::serve::serve_all;
use iso_disk::Disk;
use iso_shared::{Origin, Port, Shared, Tx};
use std::alloc::Global;
use std::marker::PhantomData;
use std::sync::{Condvar, Mutex, MutexGuard, Wait};

/// The port through which whoever serves makes the entries, and how many had handed in when one last did.
#[derive(Drop)]
pub(crate) struct Leader<D: Disk + Drop, O: Origin, P: OfDevice<D, O>> {
    port: Port<D, O>,
    alloc: Global,
    last: usize,
    device: PhantomData<P>,
    ghost at: { IfSome P.device (λ d. IsPort d port) × ((port_view port).units ≡ 1) } by { Prim.hlevel pass_props },
}

impl<D: Disk + Drop, O: Origin, P: OfDevice<D, O>> Leader<D, O, P> {
    // Serves these desks once. As all who ended at the last time may be back soon, it waits a little for them.
    fn serve<R: Wait>(&mut self, rt: &R, shared: &Shared<D, O>, desks: &[Desk<Ends<D, O, P>>])
        requires { P.device ≡ Some shared.now }
    {
        self.last = gather(desks, self.last);
        serve_all(rt, self.alloc, shared, &mut self.port, desks);
    }
}

/// Where threads end transactions together. It has a port with one unit, through which the entries are made. Whoever serves looks for a
/// moment whether those who ended last are back, so an end may wait for others, even where their syncs take nothing.
pub struct Committer<D: Disk + Drop, O: Origin, P: OfDevice<D, O>> {
    leader: Mutex<Leader<D, O, P>>,
    // Whether a thread has taken the next service on. The others sleep until it leaves; who ends alone holds the leader without this.
    busy: Mutex<bool>,
    left: Condvar,
}

impl<D: Disk + Drop, O: Origin, P: OfDevice<D, O>> Committer<D, O, P> {
    /// A place over a port that has one unit. Memory for groups comes from the allocator, for each anew.
    pub fn new(alloc: Global, shared: &Shared<D, O>, port: Port<D, O>) -> Committer<D, O, P>
        requires device { P.device ≡ Some shared.now }
        requires port { IsPort shared.now port × ((port_view port).units ≡ 1) }
    {
        let _ = shared;
        Committer {
            leader: Mutex::new(Leader {
                port,
                alloc,
                // as if one alone had ended
                last: 1,
                device: PhantomData,
            }),
            busy: Mutex::new(false),
            left: Condvar::new(),
        }
    }

    /// Gives the port back.
    pub fn close(self, shared: &Shared<D, O>) -> Port<D, O>
        requires device { P.device ≡ Some shared.now }
        ensures { IsPort shared.now result × ((port_view result).units ≡ 1) }
    {
        let _ = shared;
        let Committer {
            leader,
            busy: _,
            left: _,
        } = self;
        let Leader {
            port,
            alloc: _,
            last: _,
            device: _,
        } = leader.into_inner();
        port
    }

    /// The leader, where nobody holds it, nothing is handed in at these desks, and at most one had handed in when somebody last served.
    /// Whoever comes while it is held hands its own in, and serves once it is let go.
    pub(crate) fn free_place(
        &self,
        desks: &[Desk<Ends<D, O, P>>],
    ) -> Option<MutexGuard<'_, Leader<D, O, P>>> {
        if requests(desks) > 0 {
            return None;
        }
        let leader = self.leader.try_lock()?;
        if leader.last > 1 {
            return None;
        }
        Some(leader)
    }

    /// Ends a transaction together with those that other threads end or hand in at these desks: it is handed in, and the outcome is waited
    /// for. The client's own desk is among them; else nobody may serve it, and this waits for ever.
    pub fn end<R: Wait>(
        &self,
        rt: &R,
        shared: &Shared<D, O>,
        desks: &[Desk<Ends<D, O, P>>],
        desk: &Desk<Ends<D, O, P>>,
        client: &mut Client<Ends<D, O, P>>,
        tx: Tx<D, O>,
    ) -> Outcome<D, O>
        requires device { P.device ≡ Some shared.now }
        requires client { IsClient desk.now client.old × Rests client.old }
        requires tx { MayEnd shared.now O.start tx }
        ensures client { IsClient desk.now client.new × Rests client.new }
        ensures outcome { IsOutcome shared.now O.start tx result }
    {
        hand_in(shared, desk, client, tx);
        self.outcome(rt, shared, desks, desk, client)
    }

    /// Waits for the outcome of the transaction that a client has handed in at its desk, which is among these; else it may wait for ever.
    /// While nobody serves these desks it does so itself: what is handed in there, up to the most of a group, is ended as one group, and
    /// each alone where it is alone, or where the log has no room for all of them or memory is wanting for the group.
    pub fn outcome<R: Wait>(
        &self,
        rt: &R,
        shared: &Shared<D, O>,
        desks: &[Desk<Ends<D, O, P>>],
        desk: &Desk<Ends<D, O, P>>,
        client: &mut Client<Ends<D, O, P>>,
    ) -> Outcome<D, O>
        requires device { P.device ≡ Some shared.now }
        requires client { IsClient desk.now client.old }
        requires request { (t : Tx D O) × HasRequest client.old t }
        ensures client { IsClient desk.now client.new × Rests client.new }
        ensures outcome { (t : Tx D O) → HasRequest client.old t → IsOutcome shared.now O.start t result }
    {
        for _ in rt.forever() {
            if let Some(outcome) = take_outcome(shared, desk, client) {
                return outcome;
            }
            if self.comes_to_serve(rt) {
                self.serve(rt, shared, desks);
            }
        }
        unreachable!()
    }

    // Whether nobody serves, so that the caller is to do it; else it waits until who serves leaves.
    fn comes_to_serve<R: Wait>(&self, rt: &R) -> bool {
        let mut busy = self.busy.lock(rt);
        if *busy {
            self.left.wait(rt, busy);
            return false;
        }
        *busy = true;
        true
    }

    // Serves these desks once, and leaves.
    fn serve<R: Wait>(&self, rt: &R, shared: &Shared<D, O>, desks: &[Desk<Ends<D, O, P>>])
        requires { P.device ≡ Some shared.now }
    {
        let mut leader = self.leader.lock(rt);
        leader.serve(rt, shared, desks);
        drop(leader);
        self.leave(rt);
    }

    // Whoever waits then looks for its outcome, and one of those that have none serves next.
    fn leave<R: Wait>(&self, rt: &R) {
        *self.busy.lock(rt) = false;
        self.left.notify_all();
    }
}
