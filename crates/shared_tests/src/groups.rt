// The end of the transactions of two clients as a group.
ghost use Rattle.std.specs.{Prelude.{◌≡◌, ◌+◌, ◌<◌, ◌≤◌, [], ◌∷◌, IfErr, IfOk, IfSome, MatchOption, vec_len}, List.AllByRecursion};
ghost use Rattle.iso_shared.specs.Ports.{IsPort, IsTx, port_view};
ghost use Rattle.shared_tests.specs.Clients.{IsClient};

use crate::clients::{Answer, Client, Told, attach};
use iso_memdisk::MemDisk;
use iso_model::CoreError;
use iso_shared::{Origin, Port, Shared, Tx};
use std::alloc::Global;
use std::sync::Wait;

// Two transactions in a vector, or both again where memory is wanting.
fn pair<O: Origin>(
    alloc: Global,
    first: Tx<MemDisk, O>,
    second: Tx<MemDisk, O>,
) -> Result<Vec<Tx<MemDisk, O>>, (Tx<MemDisk, O>, Tx<MemDisk, O>)>
    ensures ok { IfOk result (λ group. group.items ≡ first ∷ second ∷ []) }
    ensures err { IfErr result (λ both. (both.0 ≡ first) × (both.1 ≡ second)) }
{
    let Ok(mut group) = Vec::with_capacity(alloc, 2) else {
        return Err((first, second));
    };
    group.push_reserved(first);
    group.push_reserved(second);
    Ok(group)
}

// Takes the last of several transactions off.
fn last_of<O: Origin>(
    shared: &Shared<MemDisk, O>,
    group: &mut Vec<Tx<MemDisk, O>>,
) -> Option<Tx<MemDisk, O>>
    ensures rest { AllByRecursion (IsTx shared.now O.start) group.old.items → AllByRecursion (IsTx shared.now O.start) group.new.items }
    ensures tx { AllByRecursion (IsTx shared.now O.start) group.old.items → IfSome result (IsTx shared.now O.start) }
    ensures fewer { MatchOption result ((vec_len group.old ≡ 0) × (vec_len group.new ≡ 0)) (λ _. vec_len group.new + 1 ≡ vec_len group.old) }
{
    let _ = shared;
    group.pop()
}

// Aborts all that were handed back, and counts them.
fn abort_all<O: Origin, R: Wait>(
    rt: &R,
    shared: &Shared<MemDisk, O>,
    port: &mut Port<MemDisk, O>,
    mut group: Vec<Tx<MemDisk, O>>,
) -> u32
    requires port { IsPort shared.now port.old }
    requires group { AllByRecursion (IsTx shared.now O.start) group.items }
    ensures port { IsPort shared.now port.new }
    ensures units { (port_view port.old).units + vec_len group ≤ (port_view port.new).units }
{
    let Some(tx) = last_of(shared, &mut group) else {
        group.destroy_empty();
        return 0;
    };
    shared.abort(rt, port, tx);
    abort_all(rt, shared, port, group).wrapping_add(1)
}

// Ends a group of two. Those that are handed back are aborted.
fn ended_group<O: Origin, R: Wait>(
    rt: &R,
    shared: &Shared<MemDisk, O>,
    port: &mut Port<MemDisk, O>,
    group: Vec<Tx<MemDisk, O>>,
) -> Answer
    requires port { IsPort shared.now port.old }
    requires group { AllByRecursion (IsTx shared.now O.start) group.items × (vec_len group ≡ 2) }
    ensures port { IsPort shared.now port.new }
    ensures units { (port_view port.old).units + 2 ≤ (port_view port.new).units }
{
    match shared.end_group(rt, port, group) {
        Ok(replies) => Ok(Told::Both(replies.get(0).copied(), replies.get(1).copied())),
        Err((error, back)) => match back {
            Some(group) => Ok(Told::Refused(error, abort_all(rt, shared, port, group))),
            None => Ok(Told::Refused(error, 0)),
        },
    }
}

// Moves a unit from one port to another.
fn give_unit<O: Origin>(
    shared: &Shared<MemDisk, O>,
    from: &mut Port<MemDisk, O>,
    to: &mut Port<MemDisk, O>,
)
    requires from { IsPort shared.now from.old × (2 < (port_view from.old).units) }
    requires to { IsPort shared.now to.old }
    ensures from { IsPort shared.now from.new × (1 < (port_view from.new).units) }
    ensures to { IsPort shared.now to.new × (1 < (port_view to.new).units) }
{
    let unit = shared.port(from, 1);
    shared.join(to, unit);
}

/// Ends the transactions of both clients as a group, that of the first client first.
pub(crate) fn end_both<O: Origin, R: Wait>(
    rt: &R,
    alloc: Global,
    shared: &Shared<MemDisk, O>,
    first: &mut Client<O>,
    second: &mut Client<O>,
) -> Answer
    requires first { IsClient shared.now O.start first.old.port first.old.tx }
    requires second { IsClient shared.now O.start second.old.port second.old.tx }
    ensures first { IsClient shared.now O.start first.new.port first.new.tx }
    ensures second { IsClient shared.now O.start second.new.port second.new.tx }
{
    let Some(one) = first.tx.take() else {
        return Ok(Told::Nothing);
    };
    let Some(other) = second.tx.take() else {
        attach(&mut first.tx, one);
        return Ok(Told::Nothing);
    };
    match pair(alloc, one, other) {
        Ok(group) => {
            let told = ended_group(rt, shared, &mut first.port, group);
            give_unit(shared, &mut first.port, &mut second.port);
            told
        }
        Err((one, other)) => {
            attach(&mut first.tx, one);
            attach(&mut second.tx, other);
            Err(CoreError::Memory)
        }
    }
}
