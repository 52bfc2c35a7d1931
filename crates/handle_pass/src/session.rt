// The session: its fields, what holds of them, its start and its end.
ghost use Rattle.std.specs.Prelude.{◌≡◌, ◌-◌, ◌≤◌, None, Some, cond, is_some, length, option_map};
ghost use Rattle.iso_shared.specs.Ports.{IsPort, first_geometry, port_view};
ghost use Rattle.handle_pass.specs.{Accesses.accesses_of, Calls.HasFinished, Sessions.{device_of, IsPortAt}, Visits.HasItsBegin};

use iso_disk::Disk;
use iso_model::{Geometry, Mode};
use iso_shared::{Origin, Port, Shared, Tx};
use std::marker::Model;
use std::sync::Wait;

/// A port, and at most one transaction. It cannot be dropped: `finish` spends it, which aborts the transaction and gives the port back.
pub struct Session<'a, D: Disk + Drop, O: Origin> {
    pub(crate) shared: &'a Shared<D, O>,
    pub(crate) port: Port<D, O>,
    pub(crate) tx: Option<Tx<D, O>>,
}

impl<'a, D: Disk + Drop, O: Origin> Model for Session<'a, D, O> {
    ghost use Rattle.handle_pass.specs.Sessions.{SessionState};

    ghost Value = { SessionState };

    ghost use Rattle.handle_pass.specs.Inside.{state_of, IsSession};

    ghost view = { state_of };

    // port and transaction are of this device, and the port has seen all that the transaction has
    ghost invariant = { IsSession O.start };
}

// Puts a transaction where none is.
pub(crate) fn attach<D: Disk + Drop, O: Origin>(place: &mut Option<Tx<D, O>>, tx: Tx<D, O>)
    requires { place.old ≡ None }
    ensures { place.new ≡ Some tx }
{
    if let Some(_) = place.replace(tx) {
        unreachable!()
    }
}

impl<'a, D: Disk + Drop, O: Origin> Session<'a, D, O> {
    /// A session without a transaction. It takes over what the port has seen, its own places and its units.
    pub fn new(shared: &'a Shared<D, O>, port: Port<D, O>) -> Session<'a, D, O>
        requires port { IsPort shared.now port }
        requires image { first_geometry shared.now ≡ O.start.world.geometry }
        ensures device { result.device ≡ device_of shared.now }
        ensures own { result.own ≡ None }
        ensures port { (result.seen ≡ (port_view port).seen) × (result.mine ≡ (port_view port).mine) × (result.units ≡ (port_view port).units) }
    {
        Session {
            shared,
            port,
            tx: None,
        }
    }

    /// The mode of the transaction, and none exactly where there is no transaction.
    pub fn mode(&self) -> Option<Mode>
        ensures { result ≡ option_map (λ o. o.mode) self.now.own }
    {
        match &self.tx {
            None => None,
            Some(tx) => Some(tx.mode()),
        }
    }

    /// Whether there is a transaction.
    pub(crate) fn has_tx(&self) -> bool
        ensures { result ≡ is_some self.now.own }
    {
        match &self.tx {
            None => false,
            Some(_) => true,
        }
    }

    /// The numbers of the image.
    pub(crate) fn geometry(&self) -> Geometry
        ensures { result ≡ O.start.world.geometry }
    {
        self.shared.geometry()
    }

    /// How many more accesses the transaction may make; all of them where there is none.
    pub(crate) fn room(&self) -> u32
        ensures room { result ≡ cond (is_some self.now.own) (4096 - length (accesses_of self.now.own)) 4096 }
        ensures few { length (accesses_of self.now.own) ≤ 4096 }
        ensures begun { HasItsBegin O.start self.now }
    {
        match &self.tx {
            None => 4096,
            Some(tx) => tx.room(),
        }
    }

    /// Aborts the transaction, where there is one, and gives the port back, with all units of the session.
    pub fn finish<R: Wait>(self, rt: &R) -> Port<D, O>
        ensures port { IsPortAt self.entry.device result }
        ensures units { (port_view result).units ≡ self.entry.units }
        ensures did { HasFinished O.start self.entry (port_view result) }
    {
        let Session {
            shared,
            mut port,
            tx,
        } = self;
        if let Some(tx) = tx {
            shared.abort(rt, &mut port, tx);
        }
        port
    }
}
