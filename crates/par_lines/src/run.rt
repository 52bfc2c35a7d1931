// Jobs of clients: they are run in threads, and what their clients were told is gathered.
ghost use Rattle.std.specs.{Prelude.{◌≡◌, ◌+◌, ◌≤◌, ◌++◌, ◌∷◌, [], ℕ, List, None, All, length, map, reverse, sum_by}, List.AllByRecursion};
ghost use Rattle.turn_lock.specs.Lists.{places, times};
ghost use Rattle.iso_shared.specs.{declared.entry.Entry.Entry, declared.entry.Entry.TheVariants.Sweep, Legal.IsLegal, Ports.{IsPort, port_view}};
ghost use Rattle.par_script.specs.Told.{clients_in, FoundSome, Told};
ghost use Rattle.par_lines.specs.Jobs.{units_in, AllTold, Finished, IsNew};

use crate::client::ParClient;
use iso_disk::Disk;
use iso_model::{Items, LAST, Reserved};
use iso_shared::{Origin, Port, Shared};
use par_runner::{Gate, Job, run_all};
use par_script::Part;
use script_model::Line;
use std::snapshot::Snapshot;
use std::sync::Wait;
use std::thread::Threads;

/// Sweeps until no label is held.
fn sweep_all<D: Disk + Drop, O: Origin, R: Wait>(
    rt: &R,
    shared: &Shared<D, O>,
    port: &mut Port<D, O>,
)
    requires port { IsPort shared.now port.old }
    requires units { (port_view port.old).units ≡ LAST }
    ensures port { IsPort shared.now port.new }
    ensures units { (port_view port.new).units ≡ LAST }
    ensures all { (port_view port.old).mine ≡ places (length (port_view port.old).seen) }
    ensures legal { IsLegal O.start (port_view port.new).seen }
    ensures swept { (swept : List Entry) × AllByRecursion FoundSome swept × ((port_view port.new).seen ≡ (port_view port.old).seen ++ swept ++ Sweep None ∷ []) }
{
    for _ in rt.forever() {
        match shared.sweep(rt, port) {
            None => return,
            Some(_) => {}
        }
    }
    unreachable!()
}

/// Finishes the clients, joins their ports, and keeps what they were told, the last one first. It takes no memory.
fn gather<'a, D: Disk + Drop, O: Origin, R: Wait>(
    rt: &R,
    shared: &Shared<D, O>,
    port: &mut Port<D, O>,
    lines: &Snapshot<Vec<(u64, Line)>>,
    mut jobs: Vec<Job<ParClient<'a, D, O>>>,
    parts: &mut Reserved<Part>,
)
    requires port { IsPort shared.now port.old }
    requires unmade { (p : ℕ) → times p (port_view port.old).mine ≡ 0 }
    requires jobs { All (λ j. Finished O.start shared.now lines.now.value.items j) jobs.items }
    requires parts { parts.old.items ≡ [] }
    requires room { length jobs.items ≤ parts.old.room }
    ensures port { IsPort shared.now port.new }
    ensures units { (port_view port.new).units ≡ (port_view port.old).units + sum_by units_in jobs.entry.items }
    ensures clients { map (λ p. p.client) parts.new.items ≡ reverse (map (λ j. j.id) jobs.entry.items) }
    ensures told { AllTold O.start lines.now.value.items (port_view port.new).seen parts.new.items (λ p. times p (port_view port.new).mine) }
{
    while let Some(job) = jobs.pop() {
        let Job {
            client,
            id,
            lines: _,
            done: _,
        } = job;
        let ParClient {
            shared: _,
            session,
            geometry: _,
            alloc: _,
            buffer: _,
            told,
            stop,
        } = client;
        let from = session.finish(rt);
        shared.join(port, from);
        parts.push_within(Part {
            client: id,
            told: told.into_items(),
            stop,
        });
    }
    jobs.destroy_empty();
}

/// Runs the jobs of new clients in threads, and then the sweeps. The jobs stand in falling number of their clients.
pub(crate) fn run_jobs<
    'a,
    D: Disk + Drop + Send,
    O: Origin + Send + Sync,
    G: Gate,
    R: Threads + Wait + Sync,
>(
    rt: &R,
    shared: &Shared<D, O>,
    port: &mut Port<D, O>,
    lines: &Snapshot<Vec<(u64, Line)>>,
    mut jobs: Vec<Job<ParClient<'a, D, O>>>,
    parts: &mut Reserved<Part>,
    gate: &G,
)
    requires port { IsPort shared.now port.old }
    requires unmade { (p : ℕ) → times p (port_view port.old).mine ≡ 0 }
    requires jobs { All (λ j. IsNew O.start shared.now lines.now.value.items j) jobs.items }
    requires clients { reverse (map (λ j. j.id) jobs.items) ≡ clients_in lines.now.value.items }
    requires parts { parts.old.items ≡ [] }
    requires room { length jobs.items ≤ parts.old.room }
    requires units { (port_view port.old).units + sum_by units_in jobs.items ≡ LAST }
    ensures port { IsPort shared.now port.new }
    ensures units { (port_view port.new).units ≡ LAST }
    ensures told { Told O.start lines.now.value.items parts.new.items (port_view port.new).seen }
{
    run_all(rt, jobs.as_mut_slice(), gate);
    gather(rt, shared, port, lines, jobs, parts);
    sweep_all(rt, shared, port);
}
