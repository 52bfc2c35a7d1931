// The turn lock as this crate sees it: each entry is stamped, as its turn ends, with the moment that the disk has come to, and views
// are of the entries alone.
ghost use Rattle.std.specs.Prelude.{◌≡◌, ◌<◌, [], IfErr, IfOk, IsSome, length, option_to_list};
ghost use Rattle.turn_lock.specs.{Lists.places, Lock.lock_id, Numbers.AreHeld, Views.fresh};
ghost use Rattle.iso_shared.specs.{Passes.{HasJoined, IsGiven, IsSplit, MayGive, TakesTurn}, Ports.{IsIdle, IsOf}, Standing.StandsAt, Turns.{moments, view}};

use crate::guarded::{Guarded, Origin, Stamped};
use iso_disk::Disk;
use iso_model::{LAST, Memory};
use std::alloc::Global;
use std::sync::Wait;
use turn_lock::{Names, Pass, Turn, TurnLock};

/// A turn lock round a core and its labels.
#[derive(Drop)]
pub struct Turns<D: Disk + Drop, O: Origin> {
    lock: TurnLock<Guarded<D, O>>,
}

impl<D: Disk + Drop, O: Origin> Turns<D, O> {
    // A lock round a core that represents the empty list, and the first pass, which has all units.
    pub(crate) fn new(
        alloc: Global,
        value: Guarded<D, O>,
    ) -> Result<(Turns<D, O>, Pass<Guarded<D, O>>), (Memory, Guarded<D, O>)>
        requires { StandsAt D.state O.start O.disk value.core value.rack [] [] }
        ensures ok { IfOk result (λ r. IsIdle r.0 r.1 × (view r.1 ≡ fresh)) }
        ensures err { IfErr result (λ e. e.1 ≡ value) }
    {
        match TurnLock::new(alloc, value) {
            Ok((lock, pass)) => Ok((Turns { lock }, pass)),
            Err(refused) => Err(refused),
        }
    }

    // Waits until it is this pass's turn. The value represents the whole list, each of whose turns has ended at its moment.
    pub(crate) fn take<R: Wait>(
        &self,
        rt: &R,
        pass: &mut Pass<Guarded<D, O>>,
    ) -> Turn<Guarded<D, O>>
        requires { IsOf self.now pass.old }
        ensures { TakesTurn D.state O.start O.disk pass.old pass.new result }
    {
        self.lock.take(rt, pass)
    }

    // Gives the turn back, with the entry and the moment that `N` names. The moment is that of now, and the value represents the list
    // with both.
    pub(crate) fn give<N: Names<Stamped>>(
        &self,
        pass: &mut Pass<Guarded<D, O>>,
        turn: Turn<Guarded<D, O>>,
    )
        requires { MayGive D.state O.start O.disk self.now pass.old turn N.entry }
        ensures { IsGiven O.start self.now pass.old pass.new N.entry }
    {
        self.lock.give::<N>(pass, turn);
    }

    // A new pass, which has seen the same and gets the number and the units. It waits for nobody.
    pub(crate) fn split(
        &self,
        pass: &mut Pass<Guarded<D, O>>,
        number: Option<u64>,
        units: u64,
    ) -> Pass<Guarded<D, O>>
        requires lock { pass.old.table_id ≡ lock_id self.now.lock }
        requires units { units < (view pass.old).units }
        requires number { AreHeld (option_to_list number) (view pass.old).holds × (IsSome number → 0 < units) }
        ensures { IsSplit self.now number units pass.old pass.new result }
    {
        self.lock.split(pass, number, units)
    }

    // Takes another pass into this one. It waits for nobody.
    pub(crate) fn join(&self, pass: &mut Pass<Guarded<D, O>>, other: Pass<Guarded<D, O>>)
        requires pass { (pass.old.table_id ≡ lock_id self.now.lock) × (0 < (view pass.old).units) }
        requires other { IsIdle self.now other }
        ensures { HasJoined pass.old pass.new other }
    {
        self.lock.join(pass, other);
    }

    // Ends the lock, and gives its value back. It waits for nobody.
    pub(crate) fn close(self, pass: Pass<Guarded<D, O>>) -> Guarded<D, O>
        requires pass { IsIdle self pass }
        requires all { (view pass).units ≡ LAST }
        ensures value { StandsAt D.state O.start O.disk result.core result.rack (view pass).seen (moments pass) }
        ensures all { (view pass).mine ≡ places (length (view pass).seen) }
    {
        let Turns { lock } = self;
        lock.close(pass)
    }
}
