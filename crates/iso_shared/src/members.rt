// The passes of the members of a group: they are joined into a port, and split off again.
ghost use Rattle.std.specs.{Prelude.{◌≡◌, ℕ, ◌+◌, [], ◌∷◌}, List.AllByRecursion};
ghost use Rattle.iso_shared.specs.{Groups.{Gathers, IsBack, IsNote, MayPart, PartsWith, TakesNotes}, Ports.{IsPort, IsTx, number_of, port_view, tx_view}};
ghost use mathlib.Core.List.{IsPrefix};
ghost use Rattle.turn_lock.specs.{Lists.times, Numbers.without};

use crate::guarded::Origin;
use crate::shared::{Port, Shared};
use crate::tx::Tx;
use iso_disk::Disk;
use std::mem;

impl<D: Disk + Drop, O: Origin> Shared<D, O> {
    // Joins the pass of a member into the port. A note without a unit takes its place.
    fn join_member(&self, port: &mut Port<D, O>, tx: &mut Tx<D, O>)
        requires port { IsPort self.now port.old }
        requires tx { IsTx self.now O.start tx.old }
        ensures { Gathers self.now O.start (tx.old ∷ []) (tx.new ∷ []) port.old port.new }
    {
        let _ = tx.work.count();
        let _ = tx.work.room();
        let note = self.lock.split(&mut port.pass, None, 0);
        let pass = mem::replace(&mut tx.pass, note);
        self.lock.join(&mut port.pass, pass);
    }

    // Joins the passes of all members into the port.
    pub(crate) fn join_members(&self, port: &mut Port<D, O>, group: &mut [Tx<D, O>])
        requires port { IsPort self.now port.old }
        requires group { AllByRecursion (IsTx self.now O.start) group.old }
        ensures { Gathers self.now O.start group.old group.new port.old port.new }
    {
        let Some((tx, rest)) = group.split_first_mut() else {
            return;
        };
        self.join_member(port, tx);
        self.join_members(port, rest);
    }

    // Splits a member off again, with its number and one unit.
    fn split_member(&self, port: &mut Port<D, O>, tx: &mut Tx<D, O>)
        requires { MayPart self.now (tx.old ∷ []) port.old }
        ensures parts { PartsWith self.now (tx.old ∷ []) (tx.new ∷ []) port.old port.new }
        ensures holds { (port_view port.new).holds ≡ without (number_of tx.old ∷ []) (port_view port.old).holds }
    {
        let pass = self.lock.split(&mut port.pass, Some(tx.number), 1);
        let note = mem::replace(&mut tx.pass, pass);
        self.lock.join(&mut port.pass, note);
    }

    /// Leaves the places of a transaction with a port, and all of its units but one. Both have then seen what either had. It makes
    /// no entry, and waits for nobody.
    pub fn leave_places(&self, port: &mut Port<D, O>, tx: &mut Tx<D, O>)
        requires port { IsPort self.now port.old }
        requires tx { IsTx self.now O.start tx.old }
        ensures port { IsPort self.now port.new }
        ensures units { (port_view port.new).units + 1 ≡ (port_view port.old).units + (tx_view tx.old).units }
        ensures seen { IsPrefix (port_view port.old).seen (port_view port.new).seen × IsPrefix (tx_view tx.old).seen (port_view port.new).seen }
        ensures places { (p : ℕ) → times p (port_view port.new).mine ≡ times p (port_view port.old).mine + times p (tx_view tx.old).mine }
        ensures tx { IsBack self.now O.start (port_view port.new).seen tx.old tx.new }
    {
        self.join_member(port, tx);
        self.split_member(port, tx);
    }

    // Splits all members off again.
    pub(crate) fn split_members(&self, port: &mut Port<D, O>, group: &mut [Tx<D, O>])
        requires { MayPart self.now group.old port.old }
        ensures { PartsWith self.now group.old group.new port.old port.new }
    {
        let Some((tx, rest)) = group.split_first_mut() else {
            return;
        };
        self.split_member(port, tx);
        self.split_members(port, rest);
    }

    // Joins a note into the port.
    fn spend_note(&self, port: &mut Port<D, O>, tx: Tx<D, O>)
        requires port { IsPort self.now port.old }
        requires tx { IsNote self.now (port_view port.old).seen tx }
        ensures { TakesNotes self.now port.old port.new }
    {
        let Tx {
            pass,
            number: _,
            work: _,
            checked: _,
        } = tx;
        self.lock.join(&mut port.pass, pass);
    }

    // Joins the notes of members that have ended into the port.
    pub(crate) fn spend_members(&self, port: &mut Port<D, O>, mut group: Vec<Tx<D, O>>)
        requires port { IsPort self.now port.old }
        requires group { AllByRecursion (IsNote self.now (port_view port.old).seen) group.items }
        ensures { TakesNotes self.now port.old port.new }
    {
        let Some(tx) = group.pop() else {
            group.destroy_empty();
            return;
        };
        self.spend_note(port, tx);
        self.spend_members(port, group);
    }
}
