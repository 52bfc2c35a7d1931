// A whole run.
ghost use Rattle.std.specs.Prelude.{◌≡◌, ℕ, ◌+◌, ◌-◌, ◌^◌, ◌<◌, ◌≤◌, [], List, IsTrue, length, take, vec_len, IfErr, IfOk, OnOk};
ghost use Rattle.iso_io.specs.{Sink.SinkState, Source.{MetEnd, SourceState}};
ghost use Rattle.iso_model.specs.World.{World};
ghost use Rattle.script_runner.specs.{Counts.{DiskCount, SinkCounts, SourceCount}, Lines.{AnswersBytes, Gave, Reads, end_of}, Run.HasRun};

use crate::line::answer_parsed;
use crate::machine::ScriptMachine;
use crate::piece::{Progress, answer_piece};
use crate::run_end::{Halt, RunEnd};
use iso_io::{Sink, Source};
use iso_model::{MAX_INPUT, MAX_LINE};
use script_model::{BadLine, Parsed};
use script_text::{ReplyLine, parse_line_into};
use std::alloc::{AllocError, Global};

/// The most bytes that one take is asked for.
const PIECE: usize = 65536;

fn blank(alloc: Global, len: usize) -> Result<Vec<u8>, AllocError>
    ensures { IfOk result (λ bytes. vec_len bytes ≡ len) }
{
    vec![in alloc; 0; len]
}

/// How a run ends that a line ends.
fn end_of(halt: Halt) -> RunEnd
    ensures { result ≡ end_of halt }
{
    match halt {
        Halt::BadLine(line) => RunEnd::BadLine(line),
        Halt::Disk => RunEnd::Disk,
        Halt::Output => RunEnd::Output,
        Halt::Memory => RunEnd::Memory,
    }
}

/// Takes a piece of the input, and answers the whole lines that end in it. Says how many bytes came: none at the end.
fn answer_next<M: ScriptMachine, S: Source, K: Sink>(
    alloc: Global,
    piece: &mut [u8],
    progress: &mut Progress,
    machine: &mut M,
    input: &mut S,
    output: &mut K,
) -> Result<usize, RunEnd>
    requires stands { (W : World) × M.stands machine.old W }
    requires room { 0 < length piece.old }
    requires number { progress.old.number + length piece.old < 2 ^ 63 }
    ensures count { IfOk result (λ n. n ≤ length piece.new) }
    ensures number { IfOk result (λ n. progress.new.number ≤ progress.old.number + n) }
    ensures held { OnOk result (length progress.new.held.items ≤ MAX_LINE) }
    ensures gave { IfOk result (λ n. Gave (S.state input.old) (S.state input.new) (take n piece.new)) }
    ensures end { IfOk result (λ n. n ≡ 0 → MetEnd (S.state input.old) (S.state input.new) []) }
    ensures answers { IfOk result (λ n. AnswersBytes M.stands M.disk machine.old machine.new (K.state output.old) (K.state output.new) progress.old.number progress.new.number progress.old.held.items progress.new.held.items (take n piece.new) (Ok tt)) }
    ensures ends { (W : World) (m : _) (i : SourceState) (k : SinkState) (bytes : List ℕ)
        → Gave i (S.state input.old) bytes → length bytes + length piece.old ≤ MAX_INPUT
        → Reads (M.stands machine.old) (M.disk m) (M.disk machine.old) k (K.state output.old) W bytes progress.old.number progress.old.held.items
        → IfErr result (λ end. HasRun (M.stands machine.new) (M.disk m) (M.disk machine.new) i (S.state input.new) k (K.state output.new) W end) }
{
    // whoever feeds the input by what it is told has all replies before more input is waited for; where they do not come out, no
    // line more is run
    if let Err(_) = output.hand_on() {
        return Err(RunEnd::Output);
    }
    let count = match input.take(piece) {
        Ok(count) => count,
        Err(_) => return Err(RunEnd::Input),
    };
    if let Err(halt) = answer_piece(alloc, progress, &piece[..count], machine, output) {
        return Err(end_of(halt));
    }
    if progress.held.len() > MAX_LINE {
        let line = progress.number;
        return Err(RunEnd::BadLine(BadLine { line, cause: 7 }));
    }
    Ok(count)
}

/// Answers the last line, which no line feed ends.
fn answer_last<M: ScriptMachine, K: Sink>(
    alloc: Global,
    progress: &mut Progress,
    machine: &mut M,
    output: &mut K,
) -> RunEnd
    requires { (W : World) × M.stands machine.old W }
    ensures { (W : World) (m : _) (i j : SourceState) (k : SinkState) (bytes : List ℕ) → Gave i j bytes → MetEnd i j bytes → length bytes < MAX_INPUT
        → Reads (M.stands machine.old) (M.disk m) (M.disk machine.old) k (K.state output.old) W bytes progress.old.number progress.old.held.items
        → HasRun (M.stands machine.new) (M.disk m) (M.disk machine.new) i j k (K.state output.new) W result }
{
    if progress.held.is_empty() {
        return RunEnd::Done;
    }
    let read = parse_line_into(
        alloc,
        &progress.held,
        &mut progress.parsed,
        &mut progress.put,
    );
    match answer_parsed(
        progress.number,
        read,
        &progress.parsed,
        &mut progress.reply,
        &mut progress.shown,
        machine,
        output,
    ) {
        Ok(()) => RunEnd::Done,
        Err(halt) => end_of(halt),
    }
}

/// Answers the lines of an input, piece by piece.
fn answer_input<M: ScriptMachine, S: Source, K: Sink>(
    alloc: Global,
    machine: &mut M,
    input: &mut S,
    output: &mut K,
) -> RunEnd
    requires { (W : World) × M.stands machine.old W }
    ensures { (W : World) → M.stands machine.old W
        → HasRun (M.stands machine.new) (M.disk machine.old) (M.disk machine.new) (S.state input.old) (S.state input.new) (K.state output.old) (K.state output.new)
        W result }
{
    let mut piece = match blank(alloc, PIECE) {
        Ok(piece) => piece,
        Err(_) => return RunEnd::Memory,
    };
    let mut progress = Progress {
        number: 1,
        held: Vec::new(alloc),
        parsed: Parsed::Skip,
        reply: ReplyLine::new(alloc),
        put: Vec::new(alloc),
        shown: Vec::new(alloc),
    };
    let mut left = MAX_INPUT;
    while left > 0 {
        let room = left.min(PIECE as u64) as usize;
        match answer_next(
            alloc,
            &mut piece[..room],
            &mut progress,
            machine,
            input,
            output,
        ) {
            Ok(0) => return answer_last(alloc, &mut progress, machine, output),
            Ok(count) => left -= count as u64,
            Err(end) => return end,
        }
    }
    let line = progress.number;
    RunEnd::BadLine(BadLine { line, cause: 9 })
}

/// Answers the lines of an input on a machine. The sink has the whole reply to each line before the next line runs, and
/// hands on what it holds back before more input is taken; where it cannot, the run ends, and no line more has run. The
/// input is taken in pieces of up to 65,536 bytes, and no more than 2^32 bytes of it. A line that is bad, a fault and
/// want of memory end the run at once.
pub fn run<M: ScriptMachine, S: Source, K: Sink>(
    alloc: Global,
    machine: &mut M,
    input: &mut S,
    output: &mut K,
) -> RunEnd
    requires { (W : World) × M.stands machine.old W }

    // The replies, their order, and what a crash leaves: the fields of `HasRun`, by how the run ended.
    ensures ran { (W : World) → M.stands machine.old W
        → HasRun (M.stands machine.new) (M.disk machine.old) (M.disk machine.new) (S.state input.old) (S.state input.new) (K.state output.old) (K.state output.new)
        W result }

    // Each end has its cause in this call, and no fault was passed over.
    ensures disk { DiskCount result (M.disk machine.old).faults (M.disk machine.new).faults }
    ensures input { SourceCount result (S.state input.old).faults (S.state input.new).faults }
    ensures output { SinkCounts result (K.state output.old) (K.state output.new) }
    ensures ended { result ≡ RunEnd.Done → IsTrue (S.state input.new).is_ended }
{
    answer_input(alloc, machine, input, output)
}
