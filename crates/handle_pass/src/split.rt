// A port that is split off a session and joined back, for calls of the device that are none of the session.
ghost use Rattle.std.specs.Prelude.{◌<◌};
ghost use Rattle.handle_pass.specs.{Sessions.IsPortAt, Splits.{Joined, Split, port_units}};

use crate::session::Session;
use iso_disk::Disk;
use iso_shared::{Origin, Port};

/// How many units a port gets that is split off.
const UNITS: u64 = 32;

impl<'a, D: Disk + Drop, O: Origin> Session<'a, D, O> {
    /// A new port of the device, which gets 32 of the port's units. It waits for nobody, and takes no memory.
    pub fn split_port(&mut self) -> Port<D, O>
        requires units { 32 < port_units self.old }
        ensures did { Split self.old result self.new }
    {
        self.shared.port(&mut self.port, UNITS)
    }

    /// Takes a port into the session's, which then knows what both knew. It waits for nobody, and takes no memory.
    pub fn join_port(&mut self, port: Port<D, O>)
        requires port { IsPortAt self.old.device port }
        ensures did { Joined self.old port self.new }
    {
        self.shared.join(&mut self.port, port);
    }
}
