// The line that ends the transactions under labels as a group.
ghost use Rattle.std.specs.Prelude.{◌≡◌, ◌+◌, ◌<◌, ◌≤◌, [], length, IfOk, vec_capacity};
ghost use Rattle.script_model.specs.declared.script.Op.TheVariants.{Group};
ghost use Rattle.iso_shared.specs.Ports.{IsPort, port_view};
ghost use Rattle.handle_pass.specs.Sessions.{device_of};
ghost use Rattle.group_commit.specs.Groups.{found_in, units_all, AreMembers};
ghost use Rattle.par_lines.specs.{Answers.Answered, Groups.{AreNew, HaveLooked}};

use crate::replies::grouped;
use group_commit::commit_group;
use handle_pass::Session;
use iso_disk::Disk;
use iso_model::{Label, Memory};
use iso_shared::{Origin, Port, Shared, Tx};
use script_model::{MAX_LABELS, Reply, Stop};
use std::alloc::Global;
use std::sync::Wait;

/// Room for what is found under `count` labels.
fn room_for<D: Disk + Drop, O: Origin>(
    alloc: Global,
    count: usize,
) -> Result<Vec<Option<Tx<D, O>>>, Memory>
    ensures { IfOk result (λ v. (v.items ≡ []) × (count ≤ vec_capacity v)) }
{
    let mut found = Vec::new(alloc);
    match found.reserve(count) {
        Ok(()) => Ok(found),
        Err(_) => {
            found.destroy_empty();
            Err(Memory)
        }
    }
}

/// Looks for each of these labels through the port, in order.
fn look_all<D: Disk + Drop, O: Origin, R: Wait>(
    rt: &R,
    shared: &Shared<D, O>,
    port: &mut Port<D, O>,
    labels: &[Label],
    found: &mut Vec<Option<Tx<D, O>>>,
)
    requires port { IsPort shared.now port.old }
    requires units { length labels.now + 1 < (port_view port.old).units }
    requires empty { found.old.items ≡ [] }
    requires room { length labels.now ≤ vec_capacity found.old }
    ensures port { IsPort shared.now port.new }
    ensures units { units_all (port_view port.new) (found_in found.new.items) ≡ (port_view port.old).units }
    ensures members { AreMembers shared.now O.start found.new.items }
    ensures new { AreNew (found_in found.new.items) }
    ensures did { HaveLooked (port_view port.old) labels.now found.new.items (port_view port.new) }
{
    for label in labels {
        found.push_reserved(shared.look(rt, port, label));
    }
}

/// Looks for the labels, and ends the transactions that it finds as one group, through a port that is split off the session.
pub(crate) fn group<'a, D: Disk + Drop, O: Origin, R: Wait>(
    rt: &R,
    alloc: Global,
    shared: &Shared<D, O>,
    session: &mut Session<'a, D, O>,
    labels: &[Label],
) -> Result<Reply, Stop>
    requires device { session.old.device ≡ device_of shared.now }
    requires units { 33 < session.old.units }
    ensures did { Answered O.start session.old (Group labels.now) result session.new }
{
    // A script has no such line.
    if labels.len() > MAX_LABELS {
        return Err(Stop::Memory);
    }
    let Ok(mut found) = room_for(alloc, labels.len()) else {
        return Err(Stop::Memory);
    };
    let mut port = session.split_port();
    look_all(rt, shared, &mut port, labels, &mut found);
    let answer = commit_group(rt, alloc, shared, &mut port, found);
    session.join_port(port);
    grouped(answer)
}
