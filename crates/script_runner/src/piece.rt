// A piece of the input, and the lines in it.
ghost use Rattle.std.specs.Prelude.{◌≡◌, ◌+◌, ◌^◌, ◌<◌, ◌≤◌, [], ◌∷◌, ◌++◌, length, MatchOption, OnOk};
ghost use Rattle.script_model.specs.Script.{parse_whole};
ghost use Rattle.iso_model.specs.World.{World};
ghost use Rattle.script_text.specs.Parsing.{Gives, placed};
ghost use Rattle.script_runner.specs.{Lines.{AnswersBytes, IsSplit}, Run.HasNoFeed};

use crate::feed::find_feed;
use crate::line::answer_parsed;
use crate::machine::ScriptMachine;
use crate::run_end::Halt;
use iso_io::Sink;
use script_model::{LineError, Parsed};
use script_text::{ReplyLine, parse_whole_line_into};
use std::alloc::Global;

/// Where a run is in the input.
#[derive(Drop)]
pub(crate) struct Progress {
    /// The number of the next line.
    pub(crate) number: u64,
    /// The front of it that was taken.
    pub(crate) held: Vec<u8>,
    /// What the last line said.
    pub(crate) parsed: Parsed,
    /// The line of the last reply.
    pub(crate) reply: ReplyLine,
    /// Memory for the bytes of a put, those of an earlier one.
    pub(crate) put: Vec<u8>,
    /// Memory for the bytes that a reply shows, those of an earlier one.
    pub(crate) shown: Vec<u8>,
}

/// The bytes before the first line feed, and what follows it. None where there is no line feed.
fn split_line(text: &[u8]) -> Option<(&[u8], &[u8])>
    ensures { MatchOption result (HasNoFeed text.now) (λ found. IsSplit text.now found.0.now found.1.now) }
{
    let end = find_feed(text)?;
    let (line, rest) = text.split_at(end);
    Some((line, &rest[1..]))
}

/// Puts what a whole line says, whose front is held, in its place. Where it says something, nothing is held then.
#[inline(always)]
fn parse_held(
    alloc: Global,
    held: &mut Vec<u8>,
    line: &[u8],
    into: &mut Parsed,
    spare: &mut Vec<u8>,
) -> Result<(), LineError>
    ensures parsed { Gives (placed result into.new) (parse_whole (held.old.items ++ line.now)) }
    ensures held { OnOk (placed result into.new) (held.new.items ≡ []) }
{
    if held.is_empty() {
        return parse_whole_line_into(alloc, line, into, spare);
    }
    if let Err(_) = held.extend_from_slice(line) {
        return Err(LineError::Memory);
    }
    let read = parse_whole_line_into(alloc, held, into, spare);
    held.clear();
    read
}

/// Answers a whole line, whose front is held.
fn answer_whole<M: ScriptMachine, K: Sink>(
    alloc: Global,
    progress: &mut Progress,
    line: &[u8],
    machine: &mut M,
    output: &mut K,
) -> Result<(), Halt>
    requires stands { (W : World) × M.stands machine.old W }
    requires number { progress.old.number < 2 ^ 63 }
    requires line { HasNoFeed line.now }
    ensures number { OnOk result (progress.new.number ≡ progress.old.number + 1) }
    ensures answers { AnswersBytes M.stands M.disk machine.old machine.new (K.state output.old) (K.state output.new) progress.old.number progress.new.number progress.old.held.items progress.new.held.items (line.now ++ 10 ∷ []) result }
{
    let read = parse_held(
        alloc,
        &mut progress.held,
        line,
        &mut progress.parsed,
        &mut progress.put,
    );
    let answered = answer_parsed(
        progress.number,
        read,
        &progress.parsed,
        &mut progress.reply,
        &mut progress.shown,
        machine,
        output,
    );
    if let Err(halt) = answered {
        return Err(halt);
    }
    progress.number += 1;
    Ok(())
}

/// Answers the whole lines that end in a piece, and holds what is after them.
pub(crate) fn answer_piece<M: ScriptMachine, K: Sink>(
    alloc: Global,
    progress: &mut Progress,
    piece: &[u8],
    machine: &mut M,
    output: &mut K,
) -> Result<(), Halt>
    requires stands { (W : World) × M.stands machine.old W }
    requires number { progress.old.number + length piece.now < 2 ^ 63 }
    ensures number { OnOk result (progress.new.number ≤ progress.old.number + length piece.now) }
    ensures answers { AnswersBytes M.stands M.disk machine.old machine.new (K.state output.old) (K.state output.new) progress.old.number progress.new.number progress.old.held.items progress.new.held.items piece.now result }
{
    let mut rest = piece;
    while let Some((line, next)) = split_line(rest) {
        if let Err(halt) = answer_whole(alloc, progress, line, machine, output) {
            return Err(halt);
        }
        rest = next;
    }
    if let Err(_) = progress.held.extend_from_slice(rest) {
        return Err(Halt::Memory);
    }
    Ok(())
}
