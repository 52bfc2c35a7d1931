// The shared device itself, and its ports.
ghost use Rattle.std.specs.Prelude.{◌≡◌, ◌+◌, ◌<◌, ℕ, [], None, length, IfOk, IfErr};
ghost use mathlib.Core.List.{IsPrefix};
ghost use Rattle.turn_lock.specs.{Lists.{places, times}, Lock.turn_value, Pass.IsAlike, Views.{fresh, given_part, kept_part}};
ghost use Rattle.iso_core.specs.Core.{disk_of};
ghost use Rattle.iso_shared.specs.{Legal.IsLegal, Passes.{IsGiven, IsTold, MayGive, told_turn}, Standing.{Came, HaveEnded, Holds}, States.{opened, state_at}, Turns.view};

use crate::guarded::{Guarded, Origin, Stamped};
use crate::told::Told;
use crate::turns::Turns;
use crate::tx::Tx;
use iso_core::Core;
use iso_disk::Disk;
use iso_model::{Geometry, LAST, Memory};
use std::alloc::Global;
use std::marker::{Brand, PhantomData};
use std::snapshot::Snapshot;
use turn_lock::{Names, Pass, Turn};
use tx_table::{Rack, Work};

/// A core and its labels under a turn lock. Each call of a core adds one entry to one legal list.
#[derive(Drop)]
pub struct Shared<D: Disk + Drop, O: Origin> {
    pub(crate) lock: Turns<D, O>,
    pub(crate) alloc: Global,
    geometry: Geometry,
}

/// A caller's pass.
#[derive(Drop)]
pub struct Port<D: Disk + Drop, O: Origin> {
    pub(crate) pass: Pass<Guarded<D, O>>,
    // the memory of the last transaction that was spent here, for the next one
    pub(crate) spare: Option<Work>,
}

impl<D: Disk + Drop, O: Origin> Shared<D, O> {
    ghost use Rattle.iso_shared.specs.Ports.{IsIsolatedAt, IsOf, IsPort, IsSameTx, IsTx, TakesIn, doing_of, first_geometry, port_moments, port_view, tx_view};

    /// A device over a core that is up and has no live transaction, and its first port, which has all units. It takes
    /// all memory of the lock.
    ///
    /// # Errors
    ///
    /// Want of memory. The core is handed back.
    pub fn new(
        alloc: Global,
        core: Core<D>,
    ) -> Result<(Shared<D, O>, Port<D, O>), (Memory, Core<D>)>
        requires start { Holds D.state core (opened O.start) × (O.start.world.live ≡ []) }
        requires came { Came O.start O.disk (D.state (disk_of core)) [] }
        ensures ok { IfOk result (λ r. IsPort r.0 r.1 × (port_view r.1 ≡ fresh) × (first_geometry r.0 ≡ O.start.world.geometry)) }
        ensures err { IfErr result (λ e. e.1 ≡ core) }
    {
        let geometry = core.geometry();
        let guarded = Guarded {
            core,
            rack: Rack::empty(alloc),
            origin: PhantomData,
        };
        match Turns::new(alloc, guarded) {
            Ok((lock, pass)) => Ok((
                Shared {
                    lock,
                    alloc,
                    geometry,
                },
                Port { pass, spare: None },
            )),
            Err((memory, guarded)) => {
                let Guarded {
                    core,
                    rack: _,
                    origin: _,
                } = guarded;
                Err((memory, core))
            }
        }
    }

    /// The numbers of the image that the core had at the start. It waits for nobody.
    pub fn geometry(&self) -> Geometry
        ensures { result ≡ first_geometry self.now }
    {
        self.geometry
    }

    // Gives the turn back, with the entry and the moment that `N` names by the core `before` and by what is `told`.
    fn give_as<N: Names<Stamped>>(
        &self,
        pass: &mut Pass<Guarded<D, O>>,
        turn: Turn<Guarded<D, O>>,
        before: Snapshot<Core<D>>,
        told: Told,
    )
        requires { MayGive D.state O.start O.disk self.now.lock pass.old turn N.entry }
        ensures { IsGiven O.start self.now.lock pass.old pass.new N.entry }
    {
        let _ = before;
        let _ = told;
        self.lock.give::<N>(pass, turn);
    }

    // Gives the turn back, with the entry of what the call did.
    pub(crate) fn give(
        &self,
        pass: &mut Pass<Guarded<D, O>>,
        turn: Turn<Guarded<D, O>>,
        before: Snapshot<Core<D>>,
        told: Told,
    )
        requires { MayGive D.state O.start O.disk self.now.lock pass.old turn (told_turn D.state before.value (turn_value turn).core told) }
        ensures { IsGiven O.start self.now.lock pass.old pass.new (told_turn D.state before.value (turn_value turn).core told.entry) }
    {
        self.give_as::<Brand>(pass, turn, before, told);
    }

    // Makes one pass know what another has seen, by a note without a unit.
    pub(crate) fn tell(&self, from: &mut Pass<Guarded<D, O>>, to: &mut Pass<Guarded<D, O>>)
        requires from { IsOf self.now.lock from.old }
        requires to { IsOf self.now.lock to.old }
        ensures { IsTold self.now.lock from.old to.old from.new to.new }
    {
        let note = self.lock.split(from, None, 0);
        self.lock.join(to, note);
    }

    /// Another port, which gets these units, one at least; at least one stays with `from`.
    pub fn port(&self, from: &mut Port<D, O>, units: u64) -> Port<D, O>
        requires from { IsPort self.now from.old }
        requires units { (0 < units) × (units < (port_view from.old).units) }
        ensures from { IsPort self.now from.new × (port_view from.new ≡ kept_part None units (port_view from.old)) }
        ensures new { IsPort self.now result × (port_view result ≡ given_part None units (port_view from.old)) }
        ensures past { (port_moments from.new ≡ port_moments from.old) × (port_moments result ≡ port_moments from.old) }
    {
        Port {
            pass: self.lock.split(&mut from.pass, None, units),
            spare: None,
        }
    }

    /// Takes another port into this one, with its units.
    pub fn join(&self, into: &mut Port<D, O>, from: Port<D, O>)
        requires into { IsPort self.now into.old }
        requires from { IsPort self.now from }
        ensures into { IsPort self.now into.new }
        ensures units { (port_view into.new).units ≡ (port_view into.old).units + (port_view from).units }
        ensures seen { IsPrefix (port_view into.old).seen (port_view into.new).seen × IsPrefix (port_view from).seen (port_view into.new).seen }
        ensures past { IsPrefix (port_moments into.old) (port_moments into.new) × IsPrefix (port_moments from) (port_moments into.new) }
        ensures places { (p : ℕ) → times p (port_view into.new).mine ≡ times p (port_view into.old).mine + times p (port_view from).mine }
    {
        let Port { pass, spare: _ } = from;
        self.lock.join(&mut into.pass, pass);
    }

    /// Makes a transaction know what a port has seen. It makes no entry, and waits for nobody.
    pub fn tell_tx(&self, port: &mut Port<D, O>, tx: &mut Tx<D, O>)
        requires port { IsPort self.now port.old }
        requires tx { IsTx self.now O.start tx.old }
        ensures port { IsPort self.now port.new × (port_view port.new ≡ port_view port.old) }
        ensures tx { IsTx self.now O.start tx.new }
        ensures same { IsSameTx tx.old tx.new × (doing_of tx.new ≡ doing_of tx.old) × IsAlike (tx_view tx.old) (tx_view tx.new) }
        ensures told { IsPrefix (port_view port.old).seen (tx_view tx.new).seen }
        ensures begins { IsPrefix (tx_view tx.old).seen (tx_view tx.new).seen }
        ensures past { port_moments port.new ≡ port_moments port.old }
    {
        self.tell(&mut port.pass, &mut tx.pass);
    }

    /// Makes a port know what a transaction has seen. It makes no entry, and waits for nobody.
    pub fn tell_port(&self, tx: &mut Tx<D, O>, port: &mut Port<D, O>)
        requires tx { IsTx self.now O.start tx.old }
        requires port { IsPort self.now port.old }
        ensures tx { IsTx self.now O.start tx.new × (tx_view tx.new ≡ tx_view tx.old) }
        ensures same { IsSameTx tx.old tx.new × (doing_of tx.new ≡ doing_of tx.old) }
        ensures port { IsPort self.now port.new }
        ensures alike { IsAlike (port_view port.old) (port_view port.new) }
        ensures told { IsPrefix (tx_view tx.old).seen (port_view port.new).seen }
        ensures begins { IsPrefix (port_view port.old).seen (port_view port.new).seen }
    {
        self.tell(&mut tx.pass, &mut port.pass);
    }

    // Joins the pass of a transaction that is no longer its own into a port.
    pub(crate) fn take_back(&self, port: &mut Port<D, O>, pass: Pass<Guarded<D, O>>)
        requires port { IsPort self.now port.old }
        requires pass { IsOf self.now.lock pass }
        ensures { TakesIn self.now (view pass) port.old port.new }
    {
        self.lock.join(&mut port.pass, pass);
    }

    // Spends a transaction that has ended: its pass goes to a port, and its memory to the next one that begins there.
    pub(crate) fn spend(&self, port: &mut Port<D, O>, tx: Tx<D, O>)
        requires port { IsPort self.now port.old }
        requires pass { IsOf self.now.lock tx.pass }
        ensures { TakesIn self.now (tx_view tx) port.old port.new }
    {
        let Tx {
            pass,
            number: _,
            work,
            checked: _,
        } = tx;
        port.spare = Some(work);
        self.take_back(port, pass);
    }

    /// Ends the device, and gives the core back, which represents the whole list. The port has all units. It waits for nobody.
    /// The list's commits are in one order, in which each is serial or snapshot, as its mode says. The disk is bound as it was.
    /// What a caller was told is there: from the moment at which the turn of its call ended on, each image that a crash might have left
    /// shows the commits of the list up to that turn.
    pub fn close(self, port: Port<D, O>) -> Core<D>
        requires port { IsPort self port × ((port_view port).units ≡ LAST) }
        ensures legal { IsLegal O.start (port_view port).seen }
        ensures isolated { IsIsolatedAt O.start (port_view port).seen }
        ensures core { Holds D.state result (state_at O.start (port_view port).seen) }
        ensures came { Came O.start O.disk (D.state (disk_of result)) (port_view port).seen }
        ensures ended { HaveEnded D.state O.start O.disk (D.state (disk_of result)) (port_view port).seen (port_moments port) }
        ensures all { (port_view port).mine ≡ places (length (port_view port).seen) }
    {
        let Shared {
            lock,
            alloc: _,
            geometry: _,
        } = self;
        let Port { pass, spare: _ } = port;
        let Guarded {
            core,
            rack: _,
            origin: _,
        } = lock.close(pass);
        core
    }
}
