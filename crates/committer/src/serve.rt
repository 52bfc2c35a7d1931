// Whoever serves the desks: it takes what was handed in, ends it as one group, and answers at each desk.
ghost use Rattle.std.specs.{Prelude.{◌≡◌, ◌+◌, ◌≤◌, [], length, vec_capacity, IfOk, Some}, List.AllByRecursion};
ghost use Rattle.iso_core.specs.declared.group_end.TheConstants.{MAX_GROUP};
ghost use Rattle.iso_shared.specs.Ports.{IsPort, port_view};
ghost use Rattle.committer.specs.{Outcomes.MayEnd, Serving.{AreTold, due}};

use crate::desk::Desk;
use crate::ends::{Ends, OfDevice, answer_tx, end_alone, take_tx};
use crate::gather::requests;
use crate::outcomes::{Outcomes, end_taken, finish, last_outcome};
use group_commit::{Ended, group_room, told_room};
use iso_core::MAX_GROUP;
use iso_disk::Disk;
use iso_model::Memory;
use iso_shared::{Origin, Port, Shared, Tx};
use std::alloc::Global;
use std::sync::Wait;

// Ends the transaction that was handed in at a desk, where there is one, by itself, and answers it. It takes no memory but that of
// the end.
fn serve_desk<D: Disk + Drop, O: Origin, P: OfDevice<D, O>, R: Wait>(
    rt: &R,
    shared: &Shared<D, O>,
    port: &mut Port<D, O>,
    desk: &Desk<Ends<D, O, P>>,
)
    requires device { P.device ≡ Some shared.now }
    requires port { IsPort shared.now port.old }
    ensures port { IsPort shared.now port.new }
    ensures units { (port_view port.new).units ≡ (port_view port.old).units }
{
    if let Some((job, tx)) = take_tx(shared, desk) {
        let outcome = end_alone(rt, shared, port, tx);
        answer_tx(shared, desk, job, outcome);
    }
}

// The same at each of these desks, in their order.
fn serve_singly<D: Disk + Drop, O: Origin, P: OfDevice<D, O>, R: Wait>(
    rt: &R,
    shared: &Shared<D, O>,
    port: &mut Port<D, O>,
    desks: &[Desk<Ends<D, O, P>>],
)
    requires device { P.device ≡ Some shared.now }
    requires port { IsPort shared.now port.old }
    ensures port { IsPort shared.now port.new }
    ensures units { (port_view port.new).units ≡ (port_view port.old).units }
{
    let Some((desk, rest)) = desks.split_first() else {
        return;
    };
    serve_desk(rt, shared, port, desk);
    serve_singly(rt, shared, port, rest);
}

// Takes what was handed in at these desks behind the others, for as long as there is room, ends all as one group, and answers those
// that it took itself. The outcomes of the others are left.
fn serve_taken<D: Disk + Drop, O: Origin, P: OfDevice<D, O>, R: Wait>(
    rt: &R,
    shared: &Shared<D, O>,
    port: &mut Port<D, O>,
    desks: &[Desk<Ends<D, O, P>>],
    mut group: Vec<Tx<D, O>>,
    ended: Vec<Ended<D, O>>,
) -> Outcomes<D, O>
    requires device { P.device ≡ Some shared.now }
    requires port { IsPort shared.now port.old }
    requires group { AllByRecursion (MayEnd shared.now O.start) group.items }
    requires most { length group.items ≤ MAX_GROUP }
    requires room { MAX_GROUP ≤ vec_capacity group }
    requires ended { (ended.items ≡ []) × (MAX_GROUP ≤ vec_capacity ended) }
    ensures port { IsPort shared.now port.new }
    ensures told { AreTold shared.now O.start (port_view port.new).seen group.items result }
    ensures units { (port_view port.new).units ≡ (port_view port.old).units + due result group.items }
{
    let Some((desk, rest)) = desks.split_first() else {
        return end_taken(rt, shared, port, group, ended);
    };
    if group.len() >= MAX_GROUP {
        return end_taken(rt, shared, port, group, ended);
    }
    let Some((job, tx)) = take_tx(shared, desk) else {
        return serve_taken(rt, shared, port, rest, group, ended);
    };
    group.push_reserved(tx);
    let outcomes = serve_taken(rt, shared, port, rest, group, ended);
    let (outcome, left) = last_outcome(rt, shared, port, outcomes);
    answer_tx(shared, desk, job, outcome);
    left
}

// Room for a group and for what its members are told.
fn room<D: Disk + Drop, O: Origin>(
    alloc: Global,
) -> Result<(Vec<Tx<D, O>>, Vec<Ended<D, O>>), Memory>
    ensures group { IfOk result (λ r. (r.0.items ≡ []) × (MAX_GROUP ≤ vec_capacity r.0)) }
    ensures ended { IfOk result (λ r. (r.1.items ≡ []) × (MAX_GROUP ≤ vec_capacity r.1)) }
{
    let group = group_room(alloc, MAX_GROUP as u32)?;
    match told_room(alloc, MAX_GROUP) {
        Ok(ended) => Ok((group, ended)),
        Err(error) => {
            group.destroy_empty();
            Err(error)
        }
    }
}

/// Ends all transactions that were handed in at these desks, up to the most of a group, as one group, and answers each; without memory
/// for a group each by itself, and one alone too, which takes no such memory. The port keeps its units.
pub(crate) fn serve_all<D: Disk + Drop, O: Origin, P: OfDevice<D, O>, R: Wait>(
    rt: &R,
    alloc: Global,
    shared: &Shared<D, O>,
    port: &mut Port<D, O>,
    desks: &[Desk<Ends<D, O, P>>],
)
    requires device { P.device ≡ Some shared.now }
    requires port { IsPort shared.now port.old }
    ensures port { IsPort shared.now port.new }
    ensures units { (port_view port.new).units ≡ (port_view port.old).units }
{
    let Some((desk, rest)) = desks.split_first() else {
        return;
    };
    if !desk.is_requested() {
        return serve_all(rt, alloc, shared, port, rest);
    }
    if requests(rest) == 0 {
        return serve_desk(rt, shared, port, desk);
    }
    match room(alloc) {
        Ok((group, ended)) => {
            finish(serve_taken(rt, shared, port, desks, group, ended));
        }
        Err(_) => serve_singly(rt, shared, port, desks),
    }
}
