// The lines of several clients that run concurrently.
ghost use Rattle.std.specs.{Prelude.{◌≡◌, ◌+◌, ◌<◌, ◌≤◌, [], All, IsTrue, length, map, reverse, sum_by, vec_capacity}, List.list_any};
ghost use Rattle.iso_model.specs.Geometry.{is_valid};
ghost use Rattle.turn_lock.specs.Views.{fresh};
ghost use Rattle.iso_shared.specs.Ports.{IsPort, first_geometry, port_view};
ghost use Rattle.par_script.specs.Told.{clients_in, lines_of};
ghost use Rattle.par_lines.specs.{Ends.{status_of, stopped, wants, Ends, HasEnded}, Jobs.{units_in, IsNew}};

use crate::client::ParClient;
use crate::deal::deal;
use crate::run::run_jobs;
use handle_pass::Session;
use iso_disk::Disk;
use iso_model::{Bytes, LAST, Memory, Reserved};
use iso_shared::{Origin, Port, Shared};
use par_runner::{Gate, Job};
use par_script::{Part, par_text};
use script_model::{Line, Stop};
use std::alloc::Global;
use std::snapshot::Snapshot;
use std::sync::Wait;
use std::thread::Threads;

/// How a run of clients ended, and what they were told as a text.
#[derive(Drop)]
pub struct ParEnd {
    pub status: u8,
    pub text: Bytes,
}

/// The units of a client's port.
const UNITS: u64 = 4_294_967_296;

/// The job of a client that was told nothing, with room for its replies where there is memory.
fn new_job<'a, D: Disk + Drop, O: Origin>(
    alloc: Global,
    shared: &'a Shared<D, O>,
    port: &mut Port<D, O>,
    lines: &Snapshot<Vec<(u64, Line)>>,
    id: u8,
    own: Vec<(u64, Line)>,
) -> Job<ParClient<'a, D, O>>
    requires port { IsPort shared.now port.old }
    requires units { 4294967296 < (port_view port.old).units }
    requires image { first_geometry shared.now ≡ O.start.world.geometry }
    requires valid { IsTrue (is_valid O.start.world.geometry) }
    requires own { own.items ≡ lines_of id lines.now.value.items }
    ensures port { IsPort shared.now port.new }
    ensures units { (port_view port.new).units + 4294967296 ≡ (port_view port.old).units }
    ensures mine { (port_view port.new).mine ≡ (port_view port.old).mine }
    ensures new { IsNew O.start shared.now lines.now.value.items result }
    ensures given { units_in result ≡ 4294967296 }
    ensures id { result.id ≡ id }
{
    // Room for all replies: a list that grows in a thread makes the memory of its thread grow, which stops the others for a moment. Where
    // memory is wanting here, each line asks for its own room.
    let mut told = Reserved::empty(alloc);
    if let Ok(replies) = u32::try_from(own.len()) {
        let _ = told.reserve(replies);
    }
    let from = shared.port(port, UNITS);
    Job {
        client: ParClient {
            shared,
            session: Session::new(shared, from),
            geometry: shared.geometry(),
            alloc,
            buffer: Vec::new(alloc),
            told,
            stop: None,
        },
        id,
        lines: own,
        done: 0,
    }
}

/// The jobs of the clients, the last one first.
fn make_jobs<'a, D: Disk + Drop, O: Origin>(
    alloc: Global,
    shared: &'a Shared<D, O>,
    port: &mut Port<D, O>,
    lines: &Snapshot<Vec<(u64, Line)>>,
    mut dealt: Vec<(u8, Vec<(u64, Line)>)>,
    jobs: &mut Vec<Job<ParClient<'a, D, O>>>,
)
    requires port { IsPort shared.now port.old }
    requires units { ((port_view port.old).units ≡ LAST) × ((port_view port.old).mine ≡ []) }
    requires image { first_geometry shared.now ≡ O.start.world.geometry }
    requires valid { IsTrue (is_valid O.start.world.geometry) }
    requires dealt { All (λ a. a.1.items ≡ lines_of a.0 lines.now.value.items) dealt.items }
    requires few { length dealt.items ≤ 64 }
    requires jobs { jobs.old.items ≡ [] }
    requires room { length dealt.items ≤ vec_capacity jobs.old }
    ensures port { IsPort shared.now port.new }
    ensures mine { (port_view port.new).mine ≡ [] }
    ensures units { (port_view port.new).units + sum_by units_in jobs.new.items ≡ LAST }
    ensures new { All (λ j. IsNew O.start shared.now lines.now.value.items j) jobs.new.items }
    ensures clients { reverse (map (λ j. j.id) jobs.new.items) ≡ map (λ a. a.0) dealt.items }
    ensures count { length jobs.new.items ≤ 64 }
{
    while let Some((id, own)) = dealt.pop() {
        jobs.push_reserved(new_job(alloc, shared, port, lines, id, own));
    }
}

/// Whether a client stopped for want of memory.
fn wanted_memory(part: &Part) -> bool
    ensures { result ≡ wants part.now.stop }
{
    match &part.stop {
        Some(Stop::Memory) => true,
        Some(Stop::Disk) | Some(Stop::Down) | None => false,
    }
}

/// Whether a client stopped.
fn has_stopped(part: &Part) -> bool
    ensures { result ≡ stopped part.now.stop }
{
    match &part.stop {
        Some(_) => true,
        None => false,
    }
}

/// Whether a client of these stopped for want of memory.
fn any_wanted(parts: &[Part]) -> bool
    ensures { result ≡ list_any (λ p. wants p.stop) parts.now }
{
    for part in parts {
        if wanted_memory(part) {
            return true;
        }
    }
    false
}

/// Whether a client of these stopped.
fn any_stopped(parts: &[Part]) -> bool
    ensures { result ≡ list_any (λ p. stopped p.stop) parts.now }
{
    for part in parts {
        if has_stopped(part) {
            return true;
        }
    }
    false
}

/// What the run of these clients ends with, where its whole text was made.
fn status(parts: &[Part]) -> u8
    ensures { result ≡ status_of parts.now }
{
    if any_wanted(parts) {
        8
    } else if any_stopped(parts) {
        5
    } else {
        0
    }
}

/// The text of these clients, and the status.
fn end(alloc: Global, parts: &[Part]) -> ParEnd
    ensures { Ends parts.now result }
{
    match par_text(alloc, parts) {
        Ok(text) => ParEnd {
            status: status(parts),
            text,
        },
        Err(text) => ParEnd { status: 8, text },
    }
}

/// Without memory before the first line.
fn not_run(alloc: Global) -> ParEnd
    ensures { (result.status ≡ 8) × (result.text ≡ []) }
{
    ParEnd {
        status: 8,
        text: Bytes::empty(alloc),
    }
}

/// Runs clients whose lines were dealt.
fn run_dealt<D: Disk + Drop + Send, O: Origin + Send + Sync, G: Gate, R: Threads + Wait + Sync>(
    rt: &R,
    alloc: Global,
    shared: &Shared<D, O>,
    port: &mut Port<D, O>,
    lines: &Snapshot<Vec<(u64, Line)>>,
    dealt: Vec<(u8, Vec<(u64, Line)>)>,
    gate: &G,
) -> ParEnd
    requires port { IsPort shared.now port.old × (port_view port.old ≡ fresh) }
    requires image { first_geometry shared.now ≡ O.start.world.geometry }
    requires valid { IsTrue (is_valid O.start.world.geometry) }
    requires clients { map (λ a. a.0) dealt.items ≡ clients_in lines.now.value.items }
    requires few { length dealt.items ≤ 64 }
    requires dealt { All (λ a. a.1.items ≡ lines_of a.0 lines.now.value.items) dealt.items }
    ensures port { IsPort shared.now port.new }
    ensures units { (port_view port.new).units ≡ LAST }
    ensures ended { HasEnded O.start lines.now.value.items result (port_view port.new).seen }
{
    let mut parts = Reserved::empty(alloc);
    if let Err(_) = parts.reserve(64) {
        return not_run(alloc);
    }
    let mut jobs = Vec::new(alloc);
    if let Err(_) = jobs.reserve(64) {
        jobs.destroy_empty();
        return not_run(alloc);
    }
    make_jobs(alloc, shared, port, lines, dealt, &mut jobs);
    run_jobs(rt, shared, port, lines, jobs, &mut parts, gate);
    end(alloc, parts.as_slice())
}

/// Runs the lines of each client in order, in a thread for each client, then aborts what is left, and sweeps the labels. The
/// port is the first one of the device, and has all units afterwards. Without memory before the first line nothing is run.
pub fn par_lines<D: Disk + Drop + Send, O: Origin + Send + Sync, G: Gate, R: Threads + Wait + Sync>(
    rt: &R,
    alloc: Global,
    shared: &Shared<D, O>,
    port: &mut Port<D, O>,
    lines: Vec<(u64, Line)>,
    gate: &G,
) -> ParEnd
    requires port { IsPort shared.now port.old × (port_view port.old ≡ fresh) }
    requires image { first_geometry shared.now ≡ O.start.world.geometry }
    requires valid { IsTrue (is_valid O.start.world.geometry) }
    ensures port { IsPort shared.now port.new }
    ensures units { (port_view port.new).units ≡ LAST }
    ensures ended { HasEnded O.start lines.items result (port_view port.new).seen }
{
    let all = Snapshot::of(&lines);
    match deal(alloc, lines) {
        Ok(dealt) => run_dealt(rt, alloc, shared, port, &all, dealt, gate),
        Err(_) => not_run(alloc),
    }
}
