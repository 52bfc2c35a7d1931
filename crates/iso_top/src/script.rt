// A script on a core.
ghost use Rattle.std.specs.Prelude.{◌≡◌, []};
ghost use Rattle.iso_core.specs.{Core.{StandsFor, disk_of}, Standing.up};
ghost use Rattle.iso_io.specs.Sink.{SinkState};
ghost use Rattle.iso_machine.specs.Standing.{IsMachineOf, core_of};
ghost use Rattle.iso_model.specs.World.{World};
ghost use Rattle.script_runner.specs.{Run.{HasRun, IfUp}, declared.run_end.RunEnd.RunEnd};
ghost use Rattle.iso_top.specs.{Outcome.PrintedEnd, Texts.end_status};

use crate::ended::{Ended, end_status};
use crate::last_line::{bad_line, put_last};
use iso_core::Core;
use iso_disk::{Disk, Image};
use iso_io::{Sink, Source};
use iso_machine::Machine;
use script_runner::{RunEnd, run};
use std::alloc::Global;

/// Puts the line that says why a run ended.
fn put_end<K: Sink>(output: &mut K, end: &RunEnd)
    ensures { PrintedEnd end.now (K.state output.old) (K.state output.new) }
{
    match end {
        RunEnd::Done | RunEnd::Output => {}
        RunEnd::BadLine(line) => put_last(output, bad_line(line).as_slice()),
        RunEnd::Disk => put_last(output, b"! disk fault\n"),
        RunEnd::Input => put_last(output, b"! input fault\n"),
        RunEnd::Memory => put_last(output, b"! memory\n"),
    }
}

/// The disk of a machine after a run that ended so. What is live is aborted, unless the machine stopped.
pub(crate) fn disk_behind<D: Disk>(machine: Machine<D>, end: &RunEnd) -> D
    requires { IfUp end.now ((W : World) × IsMachineOf D.state machine W) }
    ensures { result ≡ disk_of (core_of machine) }
{
    match end {
        RunEnd::Done | RunEnd::BadLine(_) | RunEnd::Input | RunEnd::Output => {
            machine.finish().into_disk()
        }
        RunEnd::Disk | RunEnd::Memory => machine.into_core().into_disk(),
    }
}

/// Answers the script on the input. The transactions that are live at its end are aborted.
pub(crate) fn answer_script<I: Image, S: Source, K: Sink>(
    alloc: Global,
    core: Core<I>,
    input: &mut S,
    output: &mut K,
) -> Ended<I>
    requires { (W : World) × StandsFor I.state core W up × (W.live ≡ []) }
    ensures { (W : World) → StandsFor I.state core W up → W.live ≡ [] → (end : RunEnd) × (replied : SinkState) × (result.status ≡ end_status end)
        × HasRun (λ V. Unit {0}) (I.state (disk_of core)) (I.state result.image) (S.state input.old) (S.state input.new) (K.state output.old) replied W end
        × PrintedEnd end replied (K.state output.new) }
{
    let mut machine = Machine::over(alloc, core);
    let end = run(alloc, &mut machine, input, output);
    put_end(output, &end);
    let status = end_status(end);
    let image = disk_behind(machine, &end);
    Ended { status, image }
}
