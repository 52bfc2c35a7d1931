// Transactions that are handed in at desks and wait there, and what they are told.
ghost use Rattle.std.specs.Prelude.{◌≡◌, ◌+◌, ◌<◌, Some};
ghost use Rattle.committer.specs.Sides.{HasRequest, IsClient, Rests};
ghost use Rattle.committer.specs.Outcomes.{MayEnd};
ghost use Rattle.iso_shared.specs.{Ports.{IsPort, first_geometry, port_view}, declared.tx.Tx.{Tx}};

use committer::{Client, Committer, Desk, Ends, OfDevice, Outcome, hand_in};
use group_commit::Ended;
use handle_pass::Session;
use iso_memdisk::MemDisk;
use iso_model::{CoreError, GroupReply};
use iso_shared::{Origin, Port, Shared, Tx};
use std::process::Abort;
use std::sync::Wait;

/// The units of a session: where it ends with others it splits 32 off.
pub(crate) const UNITS: u64 = 64;

/// What a member is told, or why its end is refused.
pub(crate) type Told = Result<GroupReply, CoreError>;

// Reads block 0, where it is to.
fn read_first<'a, O: Origin, R: Wait + Abort>(
    rt: &R,
    session: &mut Session<'a, MemDisk, O>,
    reads: bool,
)
    requires size { O.start.world.geometry.block ≡ 64 }
    ensures session { (session.new.device ≡ session.old.device) × (session.new.units ≡ session.old.units) }
{
    let mut bytes = [0; 64];
    if reads && session.read_block(rt, 0, &mut bytes).is_err() {
        panic!(rt; "a read");
    }
}

// A transaction of a session, which has filled a block and may have read block 0 before.
fn draft<'a, O: Origin, R: Wait + Abort>(
    rt: &R,
    session: &mut Session<'a, MemDisk, O>,
    reads: bool,
    block: u32,
)
    requires units { 1 < session.old.units }
    requires size { O.start.world.geometry.block ≡ 64 }
    ensures session { (session.new.device ≡ session.old.device) × (session.new.units ≡ session.old.units) }
{
    if session.begin_tx(rt, None).is_err() {
        panic!(rt; "a transaction");
    }
    read_first(rt, session, reads);
    if session.write_block(block, &[7; 64]).is_err() {
        panic!(rt; "a write");
    }
}

// Such a transaction by itself, with a unit of the port.
fn drafted<O: Origin, R: Wait + Abort>(
    rt: &R,
    shared: &Shared<MemDisk, O>,
    port: &mut Port<MemDisk, O>,
    reads: bool,
    block: u32,
) -> Tx<MemDisk, O>
    requires port { IsPort shared.now port.old × (64 < (port_view port.old).units) }
    requires image { (first_geometry shared.now ≡ O.start.world.geometry) × (O.start.world.geometry.block ≡ 64) }
    ensures port { IsPort shared.now port.new × ((port_view port.new).units + 1 ≡ (port_view port.old).units) }
    ensures tx { MayEnd shared.now O.start result }
{
    let mut session = Session::new(shared, shared.port(port, UNITS));
    draft(rt, &mut session, reads, block);
    let Ok(handle) = session.release_tx() else {
        panic!(rt; "a transaction")
    };
    let tx = handle.into_tx();
    shared.join(port, session.finish(rt));
    tx
}

/// Hands such a transaction in at a desk.
pub(crate) fn hand<O: Origin, P: OfDevice<MemDisk, O>, R: Wait + Abort>(
    rt: &R,
    shared: &Shared<MemDisk, O>,
    port: &mut Port<MemDisk, O>,
    desk: &Desk<Ends<MemDisk, O, P>>,
    client: &mut Client<Ends<MemDisk, O, P>>,
    reads: bool,
    block: u32,
)
    requires device { P.device ≡ Some shared.now }
    requires port { IsPort shared.now port.old × (64 < (port_view port.old).units) }
    requires image { (first_geometry shared.now ≡ O.start.world.geometry) × (O.start.world.geometry.block ≡ 64) }
    requires client { IsClient desk.now client.old × Rests client.old }
    ensures port { IsPort shared.now port.new × ((port_view port.new).units + 1 ≡ (port_view port.old).units) }
    ensures client { IsClient desk.now client.new }
    ensures request { (t : Tx MemDisk O) × HasRequest client.new t }
{
    let tx = drafted(rt, shared, port, reads, block);
    hand_in(shared, desk, client, tx);
}

/// What became of the transaction that a client has handed in. One that is handed back is aborted. Its unit goes to the port.
pub(crate) fn told<O: Origin, P: OfDevice<MemDisk, O>, R: Wait>(
    rt: &R,
    shared: &Shared<MemDisk, O>,
    committer: &Committer<MemDisk, O, P>,
    desks: &[Desk<Ends<MemDisk, O, P>>],
    port: &mut Port<MemDisk, O>,
    desk: &Desk<Ends<MemDisk, O, P>>,
    client: &mut Client<Ends<MemDisk, O, P>>,
) -> Told
    requires device { P.device ≡ Some shared.now }
    requires port { IsPort shared.now port.old }
    requires client { IsClient desk.now client.old }
    requires request { (t : Tx MemDisk O) × HasRequest client.old t }
    ensures port { IsPort shared.now port.new × ((port_view port.new).units ≡ (port_view port.old).units + 1) }
    ensures client { IsClient desk.now client.new × Rests client.new }
{
    match committer.outcome(rt, shared, desks, desk, client) {
        Outcome::Ended(ended) => {
            let Ended { reply, port: own } = ended;
            shared.join(port, own);
            Ok(reply)
        }
        Outcome::Refused(error, tx) => {
            shared.abort(rt, port, tx);
            Err(error)
        }
        Outcome::Lost(own) => {
            shared.join(port, own);
            Err(CoreError::Disk)
        }
    }
}
