// A device over a core, for one job.
ghost use Rattle.std.specs.Prelude.{◌≡◌, [], IfNone, IfSome, IsTrue};
ghost use Rattle.iso_core.specs.Core.{disk_of};
ghost use Rattle.iso_model.specs.{Geometry.is_valid, World.World};
ghost use Rattle.iso_shared.specs.{Standing.{Came, Holds}, States.opened};
ghost use Rattle.device_calls.specs.{Beginnings.BeginsAt, Jobs.{HasDone, WasServed}};

use crate::beginning::{Beginning, beginning_of};
use handle_pass::Session;
use iso_core::Core;
use iso_disk::Disk;
use iso_model::Geometry;
use iso_shared::{Origin, Shared};
use std::alloc::Global;
use std::marker::Brand;
use std::sync::Wait;

/// What is done in a session of a device, as a value.
pub trait Job {
    ghost use Rattle.std.specs.Prelude.{◌≡◌, ◌<◌, [], IsTrue, None};
    ghost use Rattle.iso_model.specs.Geometry.{is_valid};
    ghost use Rattle.iso_shared.specs.States.{Start};
    ghost use Rattle.handle_pass.specs.Sessions.{SessionState};

    /// What it answers.
    type Answer: Drop;

    /// What it did, on a device whose list begins so: the session before it and after it, and its answer.
    ghost says: { Self → Start → (before now : SessionState) → Self.Answer → Type 0 };

    /// Does it, in a new session. A transaction in which it leaves the session is aborted.
    fn run<'a, D: Disk + Drop, O: Origin, R: Wait>(
        self,
        rt: &R,
        alloc: Global,
        session: &mut Session<'a, D, O>,
        geometry: &Geometry,
    ) -> Self::Answer
        requires new { (session.old.own ≡ None) × (session.old.seen ≡ []) × (session.old.mine ≡ []) × (1 < session.old.units) }
        requires image { (geometry.now ≡ O.start.world.geometry) × IsTrue (is_valid geometry.now) }
        ensures kept { (session.new.device ≡ session.old.device) × (session.new.units ≡ session.old.units) }
        ensures did { says self O.start session.old session.new result };
}

// The same on a device whose origin the caller picks.
fn served<D: Disk + Drop, O: Origin, R: Wait, J: Job + Drop>(
    rt: &R,
    alloc: Global,
    core: Core<D>,
    beginning: Beginning,
    job: J,
) -> (Option<J::Answer>, Core<D>)
    requires start { Holds D.state core (opened O.start) × (O.start.world.live ≡ []) }
    requires came { Came O.start O.disk (D.state (disk_of core)) [] }
    requires valid { IsTrue (is_valid O.start.world.geometry) }
    ensures did { IfSome result.0 (λ x. HasDone D.state O.start O.disk (λ s t. J.says job O.start s t x) result.1) }
    ensures none { IfNone result.0 (result.1 ≡ core) }
{
    let _ = beginning;
    match Shared::<D, O>::new(alloc, core) {
        Err((_memory, core)) => (None, core),
        Ok((shared, port)) => {
            let geometry = shared.geometry();
            let mut session = Session::new(&shared, port);
            let answer = job.run(rt, alloc, &mut session, &geometry);
            let port = session.finish(rt);
            (Some(answer), shared.close(port))
        }
    }
}

/// Makes a device over a core that was just made or opened, does a job in a session of it, and closes it. The core then stands for
/// all that the session has made. Without memory for the device the job is not done, and the core is as it was.
pub fn with_device<D: Disk + Drop, R: Wait, J: Job + Drop>(
    rt: &R,
    alloc: Global,
    core: Core<D>,
    job: J,
) -> (Option<J::Answer>, Core<D>)
    requires { (W : World) × BeginsAt D.state core W }
    ensures did { IfSome result.0 (λ x. WasServed D.state core (λ A s t. J.says job A s t x) result.1) }
    ensures none { IfNone result.0 (result.1 ≡ core) }
{
    let beginning = beginning_of(&core);
    served::<D, Brand, R, J>(rt, alloc, core, beginning, job)
}
