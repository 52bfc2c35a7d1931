// One line after the other.
ghost use Rattle.std.specs.Prelude.{◌≡◌, ℕ, IfOk};
ghost use Rattle.iso_model.specs.World.{World};
ghost use Rattle.script_text.specs.Parsing.{placed};
ghost use Rattle.script_runner.specs.Lines.{AnswersParsed, IsLine, SaysLine, halt_of, stopped};

use crate::machine::ScriptMachine;
use crate::run_end::Halt;
use iso_io::{Sink, put_all};
use script_model::{BadLine, Line, LineError, Parsed, Reply, Stop};
use script_text::ReplyLine;

/// How a run ends whose machine gave no reply.
fn stopped(why: Stop) -> Halt
    ensures { result ≡ stopped why }
{
    match why {
        Stop::Down => Halt::Disk,
        Stop::Disk => Halt::Disk,
        Stop::Memory => Halt::Memory,
    }
}

/// Keeps the memory of the bytes that an answer shows, once they were handed on.
#[inline(always)]
fn keep_shown(answered: Result<Reply, Stop>, spare: &mut Vec<u8>) {
    if let Ok(Reply::Shown(bytes)) = answered {
        *spare = bytes.into_vec();
    }
}

/// Runs the operation of a line, and hands its reply to the sink.
#[inline(always)]
fn answer_line<M: ScriptMachine, K: Sink>(
    line: &Line,
    reply: &mut ReplyLine,
    spare: &mut Vec<u8>,
    machine: &mut M,
    output: &mut K,
) -> Result<(), Halt>
    requires stands { (W : World) × M.stands machine.old W }
    requires line { IsLine line.now }
    ensures { (W : World) (number : ℕ) → M.stands machine.old W
        → AnswersParsed (M.stands machine.new) (M.disk machine.old) (M.disk machine.new) (K.state output.old) (K.state output.new) W number (Ok (Parsed.Line line.now)) result }
{
    // what was answered stays where the machine has put it
    let answered = machine.step(line.client, &line.op, spare);
    let answer = match &answered {
        Ok(answer) => answer,
        Err(why) => return Err(stopped(*why)),
    };
    if let Err(_) = reply.set(line.client, answer) {
        return Err(Halt::Memory);
    }
    if let Err(_) = put_all(output, reply.text()) {
        return Err(Halt::Output);
    }
    keep_shown(answered, spare);
    Ok(())
}

/// How a line that says nothing ends a run.
fn halt_of(number: u64, error: LineError) -> Halt
    ensures { result ≡ halt_of number error }
{
    match error {
        LineError::Cause(cause) => {
            let line = number;
            Halt::BadLine(BadLine { line, cause })
        }
        LineError::Memory => Halt::Memory,
    }
}

/// Answers what a text says that was read into its place.
#[inline(always)]
pub(crate) fn answer_parsed<M: ScriptMachine, K: Sink>(
    number: u64,
    read: Result<(), LineError>,
    parsed: &Parsed,
    reply: &mut ReplyLine,
    spare: &mut Vec<u8>,
    machine: &mut M,
    output: &mut K,
) -> Result<(), Halt>
    requires stands { (W : World) × M.stands machine.old W }
    requires line { IfOk (placed read parsed.now) SaysLine }
    ensures { (W : World) → M.stands machine.old W
        → AnswersParsed (M.stands machine.new) (M.disk machine.old) (M.disk machine.new) (K.state output.old) (K.state output.new) W number (placed read parsed.now) result }
{
    if let Err(error) = read {
        return Err(halt_of(number, error));
    }
    match parsed {
        Parsed::Skip => Ok(()),
        Parsed::Line(line) => answer_line(line, reply, spare, machine, output),
    }
}
