// Clients that run concurrently on an image.
ghost use Rattle.std.specs.Prelude.{◌≡◌, ◌⊎◌, [], ◌++◌, IfErr, IfOk, IsTrue};
ghost use Rattle.command_line.specs.declared.task.Task.TheVariants.{Par};
ghost use Rattle.iso_core.specs.Core.{disk_of};
ghost use Rattle.iso_model.specs.{Geometry.is_valid, World.World};
ghost use Rattle.iso_shared.specs.{Standing.{Came, Holds, start_at}, States.{opened as opened_at}};
ghost use Rattle.iso_top.specs.{Founded.BeginsWith, Outcome.HasMet, Prints.{Printed, WasCut, WroteWhole}, Ran.{HasClosed, HasRunLines}, Texts.{disk_fault_text, memory_text}};

use crate::beginning::Beginning;
use crate::ended::{Ended, refused, script_error_status};
use crate::engine::core_on;
use crate::last_line::{put_behind, put_last, script_error_line};
use crate::opened::{Opened, world_of};
use crate::result_line::put_result;
use iso_core::Core;
use iso_disk::Image;
use iso_io::{Sink, Source};
use iso_shared::{Origin, Shared};
use par_lines::{ParEnd, par_lines};
use par_runner::Gate;
use script_model::Line;
use script_runner::read_script;
use std::alloc::Global;
use std::marker::Brand;
use std::snapshot::Snapshot;
use std::sync::Wait;
use std::thread::Threads;

/// Runs clients over a core, in threads, and hands the image back. Without memory nothing is run.
fn run_over<I: Image + Drop + Send, O: Origin + Send + Sync, G: Gate, R: Threads + Wait + Sync>(
    rt: &R,
    alloc: Global,
    core: Core<I>,
    beginning: Beginning,
    lines: Vec<(u64, Line)>,
    gate: &G,
) -> Result<(ParEnd, I), I>
    requires begins { O.start ≡ start_at beginning.world (I.state (disk_of core)) }
    requires start { Holds I.state core (opened_at O.start) × (O.start.world.live ≡ []) }
    requires came { Came O.start O.disk (I.state (disk_of core)) [] }
    requires valid { IsTrue (is_valid O.start.world.geometry) }
    ensures ended { IfOk result (λ r. HasClosed I.state O.start O.disk lines.items r.0 r.1) }
    ensures unrun { IfErr result (λ image. image ≡ disk_of core) }
{
    let _ = beginning;
    match Shared::<I, O>::new(alloc, core) {
        Err((_, core)) => Err(core.into_disk()),
        Ok((shared, mut port)) => {
            let end = par_lines(rt, alloc, &shared, &mut port, lines, gate);
            let core = shared.close(port);
            Ok((end, core.into_disk()))
        }
    }
}

/// Puts what the clients were told, and after it why they ended early, if they did.
fn put_end<K: Sink>(output: &mut K, end: &ParEnd) -> u8
    ensures done { end.now.status ≡ 0 → ((result ≡ 0) × WroteWhole (K.state output.old) (K.state output.new) end.now.text)
        ⊎ ((result ≡ 7) × WasCut (K.state output.old) (K.state output.new) end.now.text) }
    ensures disk { end.now.status ≡ 5 → (result ≡ 5) × Printed (K.state output.old) (K.state output.new) (end.now.text ++ disk_fault_text) }
    ensures memory { end.now.status ≡ 8 → (result ≡ 8) × Printed (K.state output.old) (K.state output.new) (end.now.text ++ memory_text) }
{
    let text = end.text.as_slice();
    if end.status == 0 {
        return put_result(output, text);
    }
    if end.status == 5 {
        put_behind(output, text, b"! disk fault\n");
        return 5;
    }
    put_behind(output, text, b"! memory\n");
    8
}

/// Runs the lines of a whole script on an image that was opened, and puts what comes of it.
fn run_lines<I: Image + Drop + Send, K: Sink, G: Gate, R: Threads + Wait + Sync>(
    rt: &R,
    alloc: Global,
    opened: Opened<I>,
    lines: Vec<(u64, Line)>,
    output: &mut K,
    gate: &G,
) -> Ended<I>
    requires { (W : World) × BeginsWith I.state opened W }
    ensures { HasRunLines I.state opened lines.items result.status result.image (K.state output.old) (K.state output.new) }
{
    let beginning = world_of(&opened);
    let Opened { core, given: _ } = opened;
    match run_over::<I, Brand, G, R>(rt, alloc, core, beginning, lines, gate) {
        Ok((end, image)) => {
            let status = put_end(output, &end);
            Ended { status, image }
        }
        Err(image) => {
            put_last(output, b"! memory\n");
            Ended { status: 8, image }
        }
    }
}

/// Opens the image of this name, reads the whole script, and runs the lines of each client in a thread of its own.
pub(crate) fn run_clients<
    I: Image + Drop + Send,
    S: Source,
    K: Sink,
    G: Gate,
    R: Threads + Wait + Sync,
>(rt: &R, alloc: Global, name: &str, image: I, input: &mut S, output: &mut K, gate: &G) -> Ended<I>
    ensures { HasMet I.state Par name.now result.status image result.image (S.state input.old) (S.state input.new) (K.state output.old) (K.state output.new) }
{
    let given = Snapshot::of(&image);
    let core = match core_on(alloc, name, None, image) {
        Ok(core) => core,
        Err((error, image)) => return refused(output, error, image),
    };
    match read_script(alloc, input) {
        Ok(lines) => run_lines(rt, alloc, Opened { core, given }, lines, output, gate),
        Err(error) => {
            put_last(output, script_error_line(error).as_slice());
            let status = script_error_status(error);
            let image = core.into_disk();
            Ended { status, image }
        }
    }
}
