// The outcomes of transactions that were taken at desks, which are told at the last of these first.
ghost use Rattle.std.specs.{Prelude.{◌≡◌, ◌+◌, ◌<◌, ◌≤◌, ◌++◌, List, [], ◌∷◌, length, vec_capacity, vec_len}, List.AllByRecursion};
ghost use Rattle.iso_core.specs.declared.group_end.TheConstants.{MAX_GROUP};
ghost use Rattle.iso_shared.specs.{declared.entry.Entry.Entry, declared.shared.Shared.Shared, Ports.{IsPort, port_view}};
ghost use Rattle.committer.specs.{Outcomes.{IsOutcome, MayEnd}, Serving.{AreTold, due}};

use crate::ends::{Outcome, end_alone};
use group_commit::{Ended, end_each};
use iso_disk::Disk;
use iso_model::{CoreError, LAST, MAX_ACCESSES, MAX_SPANS};
use iso_shared::{Origin, Port, Shared, Tx};
use std::sync::Wait;

/// What became of several transactions, in their order.
pub(crate) enum Outcomes<D: Disk + Drop, O: Origin> {
    /// They have ended as a group.
    Ended(Vec<Ended<D, O>>),
    /// The group was refused, and they are handed back.
    Refused(CoreError, Vec<Tx<D, O>>),
    /// A fault of the disk has ended them. The port has their units.
    Lost,
    /// They are still to be ended, each by itself.
    Live(Vec<Tx<D, O>>),
}

// The bytes of a record's head with its gate and the next one's, and of the head of a run in it.
const RECORD_HEAD: u64 = 21;

const RUN_HEAD: u64 = 8;

// An upper bound of the bytes that the records of these take in the log: each access is counted as a write of a whole block, in as many
// runs as it may have marks.
fn most_bytes<D: Disk + Drop, O: Origin>(group: &[Tx<D, O>], block: u32) -> u64 {
    let an_access = (RUN_HEAD * MAX_SPANS as u64) + block as u64;
    let mut total: u64 = 0;
    for tx in group {
        let accesses = (MAX_ACCESSES as u64).saturating_sub(tx.room() as u64);
        let runs = accesses.saturating_mul(an_access);
        total = total.saturating_add(RECORD_HEAD).saturating_add(runs);
    }
    total
}

// Whether the log has room for all of these, and each has a number. A commit that another caller makes before their turn may still take it.
fn fit<D: Disk + Drop, O: Origin, R: Wait>(
    rt: &R,
    shared: &Shared<D, O>,
    port: &mut Port<D, O>,
    group: &[Tx<D, O>],
) -> bool
    requires port { IsPort shared.now port.old }
    ensures port { IsPort shared.now port.new }
    ensures units { (port_view port.new).units ≡ (port_view port.old).units }
{
    let stat = shared.stat(rt, port);
    let geometry = shared.geometry();
    let free = geometry.log.saturating_sub(stat.used) as u64;
    stat.last.saturating_add(group.len() as u64) <= LAST
        && most_bytes(group, geometry.block) <= free
}

/// Ends these as a group, if the log has room for all of them, and each has a number. Else, and where there is one alone, each is
/// left to be ended by itself, so that one that does not fit stays.
pub(crate) fn end_taken<D: Disk + Drop, O: Origin, R: Wait>(
    rt: &R,
    shared: &Shared<D, O>,
    port: &mut Port<D, O>,
    group: Vec<Tx<D, O>>,
    mut ended: Vec<Ended<D, O>>,
) -> Outcomes<D, O>
    requires port { IsPort shared.now port.old }
    requires group { AllByRecursion (MayEnd shared.now O.start) group.items }
    requires most { length group.items ≤ MAX_GROUP }
    requires ended { (ended.items ≡ []) × (MAX_GROUP ≤ vec_capacity ended) }
    ensures port { IsPort shared.now port.new }
    ensures told { AreTold shared.now O.start (port_view port.new).seen group.items result }
    ensures units { (port_view port.new).units ≡ (port_view port.old).units + due result group.items }
{
    if group.len() < 2 || !fit(rt, shared, port, group.as_slice()) {
        ended.destroy_empty();
        return Outcomes::Live(group);
    }
    match end_each(rt, shared, port, group, &mut ended) {
        Ok(()) => Outcomes::Ended(ended),
        Err((error, back)) => {
            ended.destroy_empty();
            match back {
                Some(back) => Outcomes::Refused(error, back),
                None => Outcomes::Lost,
            }
        }
    }
}

/// The outcome of the last of these, which is ended here if it still is to be, and those of the others.
pub(crate) fn last_outcome<D: Disk + Drop, O: Origin, R: Wait>(
    rt: &R,
    shared: &Shared<D, O>,
    port: &mut Port<D, O>,
    outcomes: Outcomes<D, O>,
) -> (Outcome<D, O>, Outcomes<D, O>)
    requires port { IsPort shared.now port.old }
    requires told { (txs : List (Tx D O)) × (t : Tx D O) × AreTold shared.now O.start (port_view port.old).seen (txs ++ t ∷ []) outcomes
        × (due outcomes (txs ++ t ∷ []) < (port_view port.old).units) }
    ensures port { IsPort shared.now port.new }
    ensures told { (txs : List (Tx D O)) (t : Tx D O) → AreTold shared.now O.start (port_view port.old).seen (txs ++ t ∷ []) outcomes
        → IsOutcome shared.now O.start t result.0 × AreTold shared.now O.start (port_view port.new).seen txs result.1
        × ((port_view port.new).units + due outcomes (txs ++ t ∷ []) ≡ (port_view port.old).units + due result.1 txs) }
{
    match outcomes {
        Outcomes::Ended(mut told) => {
            let Some(last) = told.pop() else {
                unreachable!()
            };
            (Outcome::Ended(last), Outcomes::Ended(told))
        }
        Outcomes::Refused(error, mut back) => {
            let Some(last) = back.pop() else {
                unreachable!()
            };
            (
                Outcome::Refused(error, last),
                Outcomes::Refused(error, back),
            )
        }
        Outcomes::Lost => (Outcome::Lost(shared.port(port, 1)), Outcomes::Lost),
        Outcomes::Live(mut txs) => {
            let Some(last) = txs.pop() else {
                unreachable!()
            };
            (end_alone(rt, shared, port, last), Outcomes::Live(txs))
        }
    }
}

/// Drops the outcomes once each was told.
pub(crate) fn finish<D: Disk + Drop, O: Origin>(outcomes: Outcomes<D, O>)
    requires { (shared : Shared D O) × (seen : List Entry) × AreTold shared O.start seen [] outcomes }
{
    match outcomes {
        Outcomes::Ended(told) => told.destroy_empty(),
        Outcomes::Refused(_, back) => back.destroy_empty(),
        Outcomes::Lost => {}
        Outcomes::Live(txs) => txs.destroy_empty(),
    }
}
