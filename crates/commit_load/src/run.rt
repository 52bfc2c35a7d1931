// A load on a device over a core, and on a new image.
ghost use Rattle.std.specs.Prelude.{◌≡◌, ◌<◌, [], Some, IsTrue};
ghost use Rattle.device_calls.specs.Beginnings.{BeginsAt};
ghost use Rattle.iso_core.specs.Core.{disk_of};
ghost use Rattle.iso_model.specs.{Geometry.is_valid, World.World};
ghost use Rattle.iso_shared.specs.{Ports.{IsPort, first_geometry, port_view}, Standing.{Came, Holds}, States.opened};

use crate::load::Load;
use crate::seats::{leave_all, seat_all};
use crate::slow::SlowDisk;
use crate::work::work_all;
use committer::{Committer, OfDevice};
use device_calls::{Beginning, beginning_of};
use iso_core::Core;
use iso_disk::{Disk, Image};
use iso_image::image_size;
use iso_model::{Geometry, LAST, Mode};
use iso_recover::format_image;
use iso_shared::{Origin, Port, Shared};
use std::alloc::Global;
use std::marker::Brand;
use std::sync::Wait;
use std::thread::Threads;
use std::time::Clock;

/// The geometry of the image: for each thread, of as many as there may be, the blocks of 256 bytes that it writes.
#[tactic(auto, unfolding(iso_model::specs::Geometry::is_valid))]
fn numbers() -> Geometry
    ensures { IsTrue (is_valid result) }
{
    Geometry {
        block: 256,
        blocks: 256,
        log: 4_194_304,
        mode: Mode::Serial,
        hash: 0,
        tree: 0,
        form: 1,
    }
}

// The load, with desks and workers that are there for it alone. Answers how many transactions have committed; nothing where memory
// is wanting for it.
fn run_at_desks<
    D: Disk + Drop + Send,
    O: Origin + Send + Sync,
    P: OfDevice<D, O> + Send + Sync,
    R: Threads + Wait + Sync,
>(
    rt: &R,
    alloc: Global,
    shared: &Shared<D, O>,
    committer: &Committer<D, O, P>,
    port: &mut Port<D, O>,
    load: &Load,
) -> Option<u64>
    requires device { P.device ≡ Some shared.now }
    requires image { (first_geometry shared.now ≡ O.start.world.geometry) × (O.start.world.geometry.block ≡ 256) }
    requires port { IsPort shared.now port.old × (8192 < (port_view port.old).units) }
    ensures port { IsPort shared.now port.new × ((port_view port.new).units ≡ (port_view port.old).units) }
{
    let mut desks = Vec::new(alloc);
    if let Err(_) = desks.reserve(load.threads) {
        desks.destroy_empty();
        return None;
    }
    let mut workers = Vec::new(alloc);
    if let Err(_) = workers.reserve(load.threads) {
        desks.destroy_empty();
        return None;
    }
    let seated = seat_all(alloc, shared, port, load.threads, &mut desks, &mut workers);
    if seated {
        work_all(
            rt,
            shared,
            committer,
            desks.as_slice(),
            load,
            workers.as_mut_slice(),
        );
    }
    let commits = leave_all(shared, port, desks, workers);
    if seated { Some(commits) } else { None }
}

// The load on a device, with a committer that is there for it alone.
fn run_on<
    D: Disk + Drop + Send,
    O: Origin + Send + Sync,
    P: OfDevice<D, O> + Send + Sync,
    R: Threads + Wait + Sync,
>(
    rt: &R,
    alloc: Global,
    shared: &Shared<D, O>,
    port: Port<D, O>,
    load: &Load,
) -> (Option<u64>, Port<D, O>)
    requires device { P.device ≡ Some shared.now }
    requires image { (first_geometry shared.now ≡ O.start.world.geometry) × (O.start.world.geometry.block ≡ 256) }
    requires port { IsPort shared.now port × ((port_view port).units ≡ LAST) }
    ensures port { IsPort shared.now result.1 × ((port_view result.1).units ≡ LAST) }
{
    let mut port = port;
    let leader = shared.port(&mut port, 1);
    let committer = Committer::<D, O, P>::new(alloc, shared, leader);
    let commits = run_at_desks(rt, alloc, shared, &committer, &mut port, load);
    shared.join(&mut port, committer.close(shared));
    (commits, port)
}

// The load on a device over a core, which gives the disk back. With the commits comes the number of the last one.
fn run_over<D: Disk + Drop + Send, O: Origin + Send + Sync, R: Threads + Wait + Sync>(
    rt: &R,
    alloc: Global,
    core: Core<D>,
    beginning: Beginning,
    load: &Load,
) -> (Option<(u64, u64)>, D)
    requires start { Holds D.state core (opened O.start) × (O.start.world.live ≡ []) }
    requires came { Came O.start O.disk (D.state (disk_of core)) [] }
    requires size { O.start.world.geometry.block ≡ 256 }
{
    // Contracts alone read it.
    let _ = beginning;
    match Shared::<D, O>::new(alloc, core) {
        Err((_memory, core)) => (None, core.into_disk()),
        Ok((shared, port)) => {
            let (commits, port) = run_on::<D, O, Brand, R>(rt, alloc, &shared, port, load);
            let core = shared.close(port);
            let last = core.stat().last;
            match commits {
                Some(commits) => (Some((commits, last)), core.into_disk()),
                None => (None, core.into_disk()),
            }
        }
    }
}

// The load over a core that was just made. Its blocks have 256 bytes, which is tested for the proof alone.
fn run_core<D: Disk + Drop + Send, R: Threads + Wait + Sync>(
    rt: &R,
    alloc: Global,
    core: Core<D>,
    load: &Load,
) -> (Option<(u64, u64)>, D)
    requires { (W : World) × BeginsAt D.state core W }
{
    let beginning = beginning_of(&core);
    if core.geometry().block == 256 {
        run_over::<D, Brand, R>(rt, alloc, core, beginning, load)
    } else {
        (None, core.into_disk())
    }
}

/// What was done.
#[derive(Clone, Copy)]
pub(crate) struct Done {
    pub(crate) commits: u64,
    pub(crate) last: u64,
    pub(crate) syncs: u64,
}

/// Makes an image of this name and runs a load on it. Answers how many transactions have committed, which number the
/// last one has, and how many syncs of the disk that took; nothing where there is no image or no memory.
pub(crate) fn run<I: Image + Drop + Send, C: Clock + Drop + Send, R: Threads + Wait + Sync>(
    rt: &R,
    alloc: Global,
    image: SlowDisk<I, C>,
    name: &str,
    load: &Load,
) -> Option<Done> {
    let (mut image, geometry) = (image, numbers());
    image.bind(name, Some(image_size(&geometry))).ok()?;
    match format_image(alloc, image, &geometry) {
        Ok(core) => {
            let before = core.disk().syncs();
            let (done, disk) = run_core(rt, alloc, core, load);
            let syncs = disk.syncs().saturating_sub(before);
            let (commits, last) = done?;
            Some(Done {
                commits,
                last,
                syncs,
            })
        }
        Err(_) => None,
    }
}
