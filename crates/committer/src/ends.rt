// Transactions that are handed in at desks, and what is answered of each.
ghost use Rattle.std.specs.Prelude.{◌≡◌, ◌<◌, IfNone, IfSome, Some};
ghost use Rattle.committer.specs.Sides.{HasRequest, IsClient, IsJob, Rests};
ghost use Rattle.iso_shared.specs.declared.tx.Tx.{Tx};
ghost use Rattle.iso_shared.specs.Ports.{IsPort, port_view};
ghost use Rattle.committer.specs.Outcomes.{IsOutcome, MayEnd, as_member};

use crate::desk::{Client, Desk, Job};
use crate::protocol::Protocol;
use counts::Steps;
use group_commit::Ended;
use iso_disk::Disk;
use iso_model::{CoreError, EndReply, GroupReply};
use iso_shared::{Origin, Port, Shared, Tx};
use std::marker::{Brand, PhantomData};
use std::sync::Wait;
use std::sync::ledger::{Blank, Ledger};

/// The device whose transactions are handed in, for contracts alone. A call picks it, by `Brand`.
pub trait OfDevice<D, O> {
    ghost use Rattle.std.specs.Prelude.{Option};
    ghost use Rattle.iso_shared.specs.declared.shared.Shared.{Shared};

    ghost device: { Option (Shared D O) };
}

impl<D, O> OfDevice<D, O> for Brand {
    ghost use Rattle.std.specs.Prelude.{None};

    ghost device = { None };
}

/// What became of a transaction that was handed in.
pub enum Outcome<D: Disk + Drop, O: Origin> {
    /// It has ended, as a member of a group or by itself.
    Ended(Ended<D, O>),
    /// The device refuses its end, and it is handed back as it was. The place of the refusal is the port's that made it.
    Refused(CoreError, Tx<D, O>),
    /// A fault of the disk has ended it. The port has its unit.
    Lost(Port<D, O>),
}

/// A transaction with one unit is asked for its end.
pub struct Ends<D: Disk + Drop, O: Origin, P: OfDevice<D, O>> {
    marker: PhantomData<(D, O, P)>,
}

impl<D: Disk + Drop, O: Origin, P: OfDevice<D, O>> Protocol for Ends<D, O, P> {
    type Request = Tx<D, O>;

    type Response = Outcome<D, O>;

    ghost allows = { λ t. IfSome P.device (λ d. MayEnd d O.start t) };

    ghost answers = { λ t outcome. IfSome P.device (λ d. IsOutcome d O.start t outcome) };
}

/// Hands a transaction in at a desk. Contracts alone read the device.
pub fn hand_in<D: Disk + Drop, O: Origin, P: OfDevice<D, O>>(
    shared: &Shared<D, O>,
    desk: &Desk<Ends<D, O, P>>,
    client: &mut Client<Ends<D, O, P>>,
    tx: Tx<D, O>,
)
    requires device { P.device ≡ Some shared.now }
    requires client { IsClient desk.now client.old × Rests client.old }
    requires tx { MayEnd shared.now O.start tx }
    ensures { IsClient desk.now client.new × HasRequest client.new tx }
{
    let _ = shared;
    desk.request(client, tx);
}

/// The transaction that was handed in at a desk, where there is one, and the duty to answer.
pub(crate) fn take_tx<D: Disk + Drop, O: Origin, P: OfDevice<D, O>>(
    shared: &Shared<D, O>,
    desk: &Desk<Ends<D, O, P>>,
) -> Option<(Job<Ends<D, O, P>>, Tx<D, O>)>
    requires device { P.device ≡ Some shared.now }
    ensures { IfSome result (λ r. IsJob desk.now r.0 r.1 × MayEnd shared.now O.start r.1) }
{
    let _ = shared;
    match desk.accept() {
        Some((job, tx)) => Some((job, tx)),
        None => None,
    }
}

/// Answers at a desk what became of the transaction that was taken there.
pub(crate) fn answer_tx<D: Disk + Drop, O: Origin, P: OfDevice<D, O>>(
    shared: &Shared<D, O>,
    desk: &Desk<Ends<D, O, P>>,
    job: Job<Ends<D, O, P>>,
    outcome: Outcome<D, O>,
)
    requires device { P.device ≡ Some shared.now }
    requires answers { (t : Tx D O) × IsJob desk.now job t × IsOutcome shared.now O.start t outcome }
{
    let _ = shared;
    desk.respond(job, outcome);
}

/// What became of the transaction that a client handed in, where that is answered.
pub(crate) fn take_outcome<D: Disk + Drop, O: Origin, P: OfDevice<D, O>>(
    shared: &Shared<D, O>,
    desk: &Desk<Ends<D, O, P>>,
    client: &mut Client<Ends<D, O, P>>,
) -> Option<Outcome<D, O>>
    requires device { P.device ≡ Some shared.now }
    requires client { IsClient desk.now client.old }
    requires request { (t : Tx D O) × HasRequest client.old t }
    ensures client { IsClient desk.now client.new }
    ensures none { IfNone result ((t : Tx D O) → HasRequest client.old t → HasRequest client.new t) }
    ensures some { IfSome result (λ outcome. Rests client.new × ((t : Tx D O) → HasRequest client.old t → IsOutcome shared.now O.start t outcome)) }
{
    let _ = shared;
    match desk.take_response(client) {
        Some(outcome) => Some(outcome),
        None => None,
    }
}

/// A reply as members of a group are told it.
pub(crate) fn member_reply(reply: EndReply) -> GroupReply
    ensures { result ≡ as_member reply }
{
    match reply {
        EndReply::Committed(number) => GroupReply::Committed(number),
        EndReply::ReadOnly => GroupReply::ReadOnly,
        EndReply::Conflict(clash) => GroupReply::Conflict(clash),
    }
}

// Ends a transaction by itself, with the ledger of a blank.
fn end_with<L: Ledger, D: Disk + Drop, O: Origin, R: Wait>(
    blank: Blank,
    rt: &R,
    shared: &Shared<D, O>,
    port: &mut Port<D, O>,
    tx: Tx<D, O>,
) -> Outcome<D, O>
    requires name { blank.name ≡ L.name }
    requires parts { blank.parts ≡ L.parts }
    requires some { 0 < L.parts }
    requires port { IsPort shared.now port.old }
    requires tx { MayEnd shared.now O.start tx }
    ensures port { IsPort shared.now port.new }
    ensures units { (port_view port.new).units ≡ (port_view port.old).units }
    ensures outcome { IsOutcome shared.now O.start tx result }
{
    let mut steps = Steps::<L>::start(blank);
    match shared.end(rt, port, tx, &mut steps) {
        Ok(reply) => Outcome::Ended(Ended {
            reply: member_reply(reply),
            port: shared.port(port, 1),
        }),
        Err((error, back)) => match back {
            Some(mut tx) => {
                shared.leave_places(port, &mut tx);
                Outcome::Refused(error, tx)
            }
            None => Outcome::Lost(shared.port(port, 1)),
        },
    }
}

/// Ends a transaction by itself. The port keeps its units.
pub(crate) fn end_alone<D: Disk + Drop, O: Origin, R: Wait>(
    rt: &R,
    shared: &Shared<D, O>,
    port: &mut Port<D, O>,
    tx: Tx<D, O>,
) -> Outcome<D, O>
    requires port { IsPort shared.now port.old }
    requires tx { MayEnd shared.now O.start tx }
    ensures port { IsPort shared.now port.new }
    ensures units { (port_view port.new).units ≡ (port_view port.old).units }
    ensures outcome { IsOutcome shared.now O.start tx result }
{
    end_with::<Brand, D, O, R>(Blank::new(1), rt, shared, port, tx)
}
