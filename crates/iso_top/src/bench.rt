// A script that is drawn, answered on a new image.
ghost use Rattle.std.specs.Prelude.{◌≡◌, ◌⊎◌, ◌≤◌, ◌*◌, ◌-◌, [], ℕ, List, IsSome, Some};
ghost use Rattle.iso_core.specs.{Core.{StandsFor, disk_of}, Standing.up};
ghost use Rattle.iso_io.specs.{Sink.SinkState, Source.SourceState};
ghost use Rattle.script_model.specs.{Bench.{bench_text, bench_world}, Script.script};
ghost use Rattle.script_runner.specs.{Run.HasRun, Told.ArePlain};
ghost use Rattle.sha2.specs.Sha256.{sha256};
ghost use Rattle.iso_top.specs.{Outcome.{PrintedBench, PrintedLine, summary_of}, Prints.{Printed, WasCut, WroteWhole}, Texts.{bench_text_of, disk_fault_text, memory_text}};

use crate::ended::Ended;
use crate::last_line::put_last;
use crate::result_line::{bench_line, put_result};
use crate::script::disk_behind;
use bench_script::laws::{
    commits_are_twice_the_rounds_less_the_conflicts, drawn_scripts_are_good,
    shown_bytes_are_not_counted, the_last_commit_counts_all,
};
use bench_script::{DrawnScript, ReplyDigest};
use iso_core::Core;
use iso_disk::Image;
use iso_io::Sink;
use iso_machine::Machine;
use script_runner::{RunEnd, run};
use std::alloc::Global;

/// Puts what a bench of `rounds` rounds comes to, whose commits are so many, or why it has ended. Each of the two ends of a round is a
/// commit or a conflict.
fn put_summary<K: Sink>(
    output: &mut K,
    rounds: u32,
    commits: u64,
    end: &RunEnd,
    replies: ReplyDigest,
) -> u8
    ensures done { end.now ≡ RunEnd.Done → (line : List ℕ) × (line ≡ bench_text_of rounds commits (2 * rounds - commits) (sha256 replies.text))
        × (((result ≡ 0) × WroteWhole (K.state output.old) (K.state output.new) line) ⊎ ((result ≡ 7) × WasCut (K.state output.old) (K.state output.new) line)) }
    ensures disk { end.now ≡ RunEnd.Disk → (result ≡ 5) × Printed (K.state output.old) (K.state output.new) disk_fault_text }
    ensures memory { (end.now ≡ RunEnd.Output) ⊎ (end.now ≡ RunEnd.Memory) → (result ≡ 8) × Printed (K.state output.old) (K.state output.new) memory_text }
{
    match end {
        RunEnd::Done => {
            let digest = replies.finish();
            let conflicts = (2 * u64::from(rounds)).saturating_sub(commits);
            let line = bench_line(rounds, commits, conflicts, &digest);
            put_result(output, line.as_slice())
        }
        RunEnd::Disk => {
            put_last(output, b"! disk fault\n");
            5
        }
        RunEnd::Output | RunEnd::Memory | RunEnd::BadLine(_) | RunEnd::Input => {
            put_last(output, b"! memory\n");
            8
        }
    }
}

/// Answers the script of `count` rounds that is drawn from a seed, and puts what it comes to. The replies are digested as they come.
pub(crate) fn answer_drawn<I: Image, K: Sink>(
    alloc: Global,
    core: Core<I>,
    seed: u64,
    count: u32,
    output: &mut K,
) -> Ended<I>
    requires world { StandsFor I.state core bench_world up }
    requires count { count ≤ 100000 }
    ensures plain { ArePlain (script (bench_text count seed)).lines }
    ensures ran { (end : RunEnd) × (drawn : SourceState) × (rest : SourceState) × (empty : SinkState) × (held : SinkState) × (drawn.rest ≡ Some (bench_text count seed)) × (empty.written ≡ Some [])
        × (run : HasRun (λ V. Unit {0}) (I.state (disk_of core)) (I.state result.image) drawn rest empty held bench_world end)
        × PrintedLine end result.status (summary_of count run.done run.answered.on_any_disk.given) (K.state output.old) (K.state output.new)
        × PrintedBench seed count result.status end (IsSome (I.state (disk_of core)).contents) (K.state output.old) (K.state output.new) }
{
    drawn_scripts_are_good();
    the_last_commit_counts_all();
    commits_are_twice_the_rounds_less_the_conflicts();
    shown_bytes_are_not_counted();
    let mut input = DrawnScript::new(seed, count);
    let mut replies = ReplyDigest::new(alloc);
    let mut machine = Machine::over(alloc, core);
    let end = run(alloc, &mut machine, &mut input, &mut replies);
    let commits = machine.last_commit();
    let status = put_summary(output, count, commits, &end, replies);
    let image = disk_behind(machine, &end);
    Ended { status, image }
}
