// Sessions of a device, from its first port and back into it.
ghost use Rattle.std.specs.Prelude.{◌≡◌, ◌+◌, ◌<◌};
ghost use Rattle.iso_shared.specs.Ports.{first_geometry, port_view};
ghost use Rattle.accounts.specs.{Kept.{IsKeptPort, IsKeptSession}, Made.opening_of};

use crate::account::Account;
use handle_pass::Session;
use iso_disk::Disk;
use iso_shared::{Origin, Port, Shared};
use std::sync::Wait;

/// The units of a session's port.
const UNITS: u64 = 4_294_967_296;

/// A new session, with units of the port.
pub(crate) fn session_on<'a, D: Disk + Drop, O: Origin>(
    shared: &'a Shared<D, O>,
    port: &mut Port<D, O>,
    accounts: &[Account],
) -> Session<'a, D, O>
    requires port { IsKeptPort shared.now (opening_of accounts.now) O.start port.old }
    requires units { 4294967296 < (port_view port.old).units }
    requires image { first_geometry shared.now ≡ O.start.world.geometry }
    ensures port { IsKeptPort shared.now (opening_of accounts.now) O.start port.new }
    ensures units { (port_view port.new).units + 4294967296 ≡ (port_view port.old).units }
    ensures session { IsKeptSession shared.now (opening_of accounts.now) O.start result × (result.units ≡ 4294967296) }
{
    Session::new(shared, shared.port(port, UNITS))
}

/// Finishes a session, and takes its port back.
pub(crate) fn gather<'a, D: Disk + Drop, O: Origin, R: Wait>(
    rt: &R,
    shared: &Shared<D, O>,
    port: &mut Port<D, O>,
    session: Session<'a, D, O>,
    accounts: &[Account],
)
    requires port { IsKeptPort shared.now (opening_of accounts.now) O.start port.old }
    requires session { IsKeptSession shared.now (opening_of accounts.now) O.start session }
    ensures port { IsKeptPort shared.now (opening_of accounts.now) O.start port.new }
    ensures units { (port_view port.new).units ≡ (port_view port.old).units + session.entry.units }
{
    let from = session.finish(rt);
    shared.join(port, from);
}
