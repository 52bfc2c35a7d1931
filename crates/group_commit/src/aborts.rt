// The aborts of transactions that no group has ended.
ghost use Rattle.std.specs.Prelude.{◌≡◌};
ghost use Rattle.iso_shared.specs.Ports.{IsPort, port_view};
ghost use Rattle.group_commit.specs.Groups.{AreMembers, AreTxs, HasMade, KnowsAll, aborts_of, found_in, units_all};

use iso_disk::Disk;
use iso_shared::{Origin, Port, Shared, Tx};
use std::sync::Wait;

/// Aborts these, in order.
pub(crate) fn abort_all<D: Disk + Drop, O: Origin, R: Wait>(
    rt: &R,
    shared: &Shared<D, O>,
    port: &mut Port<D, O>,
    txs: Vec<Tx<D, O>>,
)
    requires port { IsPort shared.now port.old }
    requires txs { AreTxs shared.now O.start txs.items }
    ensures port { IsPort shared.now port.new }
    ensures units { (port_view port.new).units ≡ units_all (port_view port.old) txs.items }
    ensures did { HasMade O.start (port_view port.old) txs.items (aborts_of txs.items) (port_view port.new) }
    ensures told { KnowsAll txs.items (port_view port.new).seen }
{
    let mut rest = txs.into_iter();
    while let Some(tx) = rest.next() {
        shared.abort(rt, port, tx);
    }
    rest.destroy_empty();
}

/// Aborts those that there are, in order.
pub(crate) fn abort_found<D: Disk + Drop, O: Origin, R: Wait>(
    rt: &R,
    shared: &Shared<D, O>,
    port: &mut Port<D, O>,
    members: Vec<Option<Tx<D, O>>>,
)
    requires port { IsPort shared.now port.old }
    requires members { AreMembers shared.now O.start members.items }
    ensures port { IsPort shared.now port.new }
    ensures units { (port_view port.new).units ≡ units_all (port_view port.old) (found_in members.items) }
    ensures did { HasMade O.start (port_view port.old) (found_in members.items) (aborts_of (found_in members.items)) (port_view port.new) }
    ensures told { KnowsAll (found_in members.items) (port_view port.new).seen }
{
    let mut rest = members.into_iter();
    while let Some(member) = rest.next() {
        if let Some(tx) = member {
            shared.abort(rt, port, tx);
        }
    }
    rest.destroy_empty();
}
