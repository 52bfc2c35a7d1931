// A device in memory with a committer and three desks, for one test.
ghost use Rattle.std.specs.Prelude.{◌≡◌, ◌<◌, [], Some, IsTrue};
ghost use Rattle.committer.specs.Sides.{IsClient, Rests};
ghost use Rattle.device_calls.specs.Beginnings.{BeginsAt};
ghost use Rattle.iso_core.specs.Core.{disk_of};
ghost use Rattle.iso_memdisk.specs.MemDisk.{state_of};
ghost use Rattle.iso_model.specs.{Geometry.is_valid, World.World};
ghost use Rattle.iso_shared.specs.{Ports.{IsPort, first_geometry, port_view}, Standing.{Came, Holds}, States.opened};

use committer::{Client, Committer, Desk, Ends, OfDevice, Protocol};
use device_calls::{Beginning, beginning_of};
use iso_core::Core;
use iso_memdisk::MemDisk;
use iso_model::{Geometry, LAST};
use iso_shared::{Origin, Port, Shared};
use std::alloc::Global;
use std::marker::Brand;
use std::process::Abort;
use std::sync::Wait;
use test_cores::{blank, core_on};

/// What all share who end their transactions together: the committer, all desks, and each of them.
#[derive(Drop)]
pub(crate) struct Hall<'a, O: Origin, P: OfDevice<MemDisk, O>> {
    pub(crate) shared: &'a Shared<MemDisk, O>,
    pub(crate) committer: &'a Committer<MemDisk, O, P>,
    pub(crate) desks: &'a [Desk<Ends<MemDisk, O, P>>],
    pub(crate) a: &'a Desk<Ends<MemDisk, O, P>>,
    pub(crate) b: &'a Desk<Ends<MemDisk, O, P>>,
    pub(crate) c: &'a Desk<Ends<MemDisk, O, P>>,
}

/// The clients of the three desks.
#[derive(Drop)]
pub(crate) struct Clients<O: Origin, P: OfDevice<MemDisk, O>> {
    pub(crate) a: Client<Ends<MemDisk, O, P>>,
    pub(crate) b: Client<Ends<MemDisk, O, P>>,
    pub(crate) c: Client<Ends<MemDisk, O, P>>,
}

/// What a test does at three desks. No client has a request then, and the port has its units.
pub(crate) trait Play {
    ghost use Rattle.std.specs.Prelude.{◌≡◌, ◌<◌, Some};
    ghost use Rattle.committer.specs.Sides.{IsClient, Rests};
    ghost use Rattle.iso_shared.specs.Ports.{IsPort, first_geometry, port_view};

    /// What it was told.
    type Told: Drop;

    fn play<O: Origin, P: OfDevice<MemDisk, O>, R: Wait + Abort>(
        &self,
        rt: &R,
        hall: &Hall<'_, O, P>,
        port: &mut Port<MemDisk, O>,
        clients: Clients<O, P>,
    ) -> (Self::Told, Clients<O, P>)
        requires device { P.device ≡ Some hall.now.shared.now }
        requires image { first_geometry hall.now.shared.now ≡ O.start.world.geometry }
        requires size { O.start.world.geometry.block ≡ 64 }
        requires port { IsPort hall.now.shared.now port.old × (4096 < (port_view port.old).units) }
        requires a { IsClient hall.now.a.now clients.a × Rests clients.a }
        requires b { IsClient hall.now.b.now clients.b × Rests clients.b }
        requires c { IsClient hall.now.c.now clients.c × Rests clients.c }
        ensures port { IsPort hall.now.shared.now port.new × ((port_view port.new).units ≡ (port_view port.old).units) }
        ensures a { IsClient hall.now.a.now result.1.a × Rests result.1.a }
        ensures b { IsClient hall.now.b.now result.1.b × Rests result.1.b }
        ensures c { IsClient hall.now.c.now result.1.c × Rests result.1.c };
}

// A desk and its client.
fn made<Q: Protocol, R: Abort>(rt: &R, alloc: Global) -> (Desk<Q>, Client<Q>)
    ensures { IsClient result.0 result.1 × Rests result.1 }
{
    match Desk::new(alloc) {
        Ok(made) => made,
        Err(_) => panic!(rt; "memory"),
    }
}

// The play at three desks of a device.
fn played_at<O: Origin, P: OfDevice<MemDisk, O>, S: Play, R: Wait + Abort>(
    rt: &R,
    alloc: Global,
    shared: &Shared<MemDisk, O>,
    port: &mut Port<MemDisk, O>,
    play: &S,
) -> S::Told
    requires device { P.device ≡ Some shared.now }
    requires image { first_geometry shared.now ≡ O.start.world.geometry }
    requires size { O.start.world.geometry.block ≡ 64 }
    requires port { IsPort shared.now port.old × ((port_view port.old).units ≡ LAST) }
    ensures port { IsPort shared.now port.new × ((port_view port.new).units ≡ LAST) }
{
    let leader = shared.port(port, 1);
    let committer = Committer::<MemDisk, O, P>::new(alloc, shared, leader);
    let (a, first) = made(rt, alloc);
    let (b, second) = made(rt, alloc);
    let (c, third) = made(rt, alloc);
    let desks = [a, b, c];
    let hall = Hall {
        shared,
        committer: &committer,
        desks: &desks,
        a: &desks[0],
        b: &desks[1],
        c: &desks[2],
    };
    let clients = Clients {
        a: first,
        b: second,
        c: third,
    };
    let (told, clients) = play.play(rt, &hall, port, clients);
    let Clients {
        a: first,
        b: second,
        c: third,
    } = clients;
    let [a, b, c] = desks;
    a.close(first);
    b.close(second);
    c.close(third);
    shared.join(port, committer.close(shared));
    told
}

// The same on a device over a core. The second answer is how many calls of the disk it took.
fn played_over<O: Origin, S: Play, R: Wait + Abort>(
    rt: &R,
    alloc: Global,
    core: Core<MemDisk>,
    beginning: Beginning,
    play: &S,
) -> (S::Told, u64)
    requires start { Holds state_of core (opened O.start) × (O.start.world.live ≡ []) }
    requires came { Came O.start O.disk (state_of (disk_of core)) [] }
    requires size { O.start.world.geometry.block ≡ 64 }
{
    let _ = beginning;
    let before = core.disk().calls();
    match Shared::<MemDisk, O>::new(alloc, core) {
        Err(_) => panic!(rt; "memory"),
        Ok((shared, port)) => {
            let mut port = port;
            let told = played_at::<O, Brand, S, R>(rt, alloc, &shared, &mut port, play);
            let core = shared.close(port);
            (told, core.disk().calls().saturating_sub(before))
        }
    }
}

// The same over a core that was just made.
fn played_on<S: Play, R: Wait + Abort>(
    rt: &R,
    alloc: Global,
    core: Core<MemDisk>,
    play: &S,
) -> (S::Told, u64)
    requires { (W : World) × BeginsAt state_of core W }
{
    let beginning = beginning_of(&core);
    if core.geometry().block == 64 {
        played_over::<Brand, S, R>(rt, alloc, core, beginning, play)
    } else {
        panic!(rt; "blocks of 64 bytes")
    }
}

/// What a play is told over a new image of these numbers, and how many calls of the disk it took. The disk fails after `calls` calls,
/// of which the image takes five.
pub(crate) fn played<S: Play, R: Wait + Abort>(
    rt: &R,
    alloc: Global,
    geometry: &Geometry,
    calls: u64,
    play: &S,
) -> (S::Told, u64)
    requires { IsTrue (is_valid geometry.now) }
{
    let Ok(mut disk) = blank(alloc, geometry) else {
        panic!(rt; "memory")
    };
    disk.fuse(calls);
    match core_on(alloc, disk, geometry) {
        Ok(core) => played_on(rt, alloc, core, play),
        Err(_) => panic!(rt; "an image"),
    }
}
