// The lines of a whole script.
ghost use Rattle.std.specs.Prelude.{◌≡◌, ◌<◌, ◌≤◌, ◌++◌, if◌then◌else◌, false, nat_le, List, ℕ, None, length, IfErr, IfOk, MatchOption, OnOk};
ghost use Rattle.script_model.specs.{declared.script.Line.Line, Script.{last_piece, script}};
ghost use Rattle.script_runner.specs.{Lines.IsSplit, Parts.{Adds, IsWhyOf, Stops}, Run.HasNoFeed};

use iso_model::{MAX_INPUT, MAX_LINE};
use memchr::memchr;
use script_model::{BadLine, Line, LineError, Parsed};
use script_text::{parse_line, parse_whole_line};
use std::alloc::Global;

/// Why a script has no lines to run.
#[derive(Clone, Copy, Debug, PartialEq, Eq)]
pub enum ScriptError {
    /// The first bad line.
    BadLine(BadLine),
    /// The source failed.
    Input,
    /// Want of memory.
    Memory,
}

/// The bytes before the first line feed, and what follows it. None where there is no line feed.
fn split_line(text: &[u8]) -> Option<(&[u8], &[u8])>
    ensures { MatchOption result (HasNoFeed text.now) (λ found. IsSplit text.now found.0.now found.1.now) }
{
    let end = memchr(b'\n', text)?;
    let (line, rest) = text.split_at(end);
    Some((line, &rest[1..]))
}

/// Adds what a line says, if it says something.
fn add(
    number: u64,
    parsed: Result<Parsed, LineError>,
    lines: &mut Vec<(u64, Line)>,
) -> Result<(), ScriptError>
    ensures ok { OnOk result (Adds number parsed lines.old.items lines.new.items) }
    ensures err { IfErr result (λ e. Stops number parsed e) }
{
    match parsed {
        Ok(Parsed::Skip) => Ok(()),
        Ok(Parsed::Line(line)) => match lines.push((number, line)) {
            Ok(()) => Ok(()),
            Err(_) => Err(ScriptError::Memory),
        },
        Err(LineError::Cause(cause)) => Err(ScriptError::BadLine(BadLine {
            line: number,
            cause,
        })),
        Err(LineError::Memory) => Err(ScriptError::Memory),
    }
}

/// Why the piece in which an input was cut is a bad line: it is too long for a line, or else the input is.
fn cut_cause(piece: &[u8]) -> u8
    ensures { result ≡ (if nat_le (length piece.now) MAX_LINE then 9 else 7) }
{
    if piece.len() <= MAX_LINE { 9 } else { 7 }
}

/// Whether `len` bytes are all that is taken of an input.
fn is_cut(len: usize) -> bool
    ensures { result ≡ nat_le MAX_INPUT len }
{
    len as u64 >= MAX_INPUT
}

/// Adds the last line, which no line feed ends. Where the input was cut there, it is a bad line.
fn add_last(
    alloc: Global,
    number: u64,
    piece: &[u8],
    cut: bool,
    lines: &mut Vec<(u64, Line)>,
) -> Result<(), ScriptError>
    ensures ok { OnOk result ((added : List (ℕ × Line)) × (lines.new.items ≡ lines.old.items ++ added) × (last_piece cut number piece.now ≡ record { lines = added; bad = None })) }
    ensures err { IfErr result (λ e. IsWhyOf (last_piece cut number piece.now) e) }
    ensures uncut { OnOk result (cut ≡ false) }
{
    if cut {
        return Err(ScriptError::BadLine(BadLine {
            line: number,
            cause: cut_cause(piece),
        }));
    }
    if piece.is_empty() {
        return Ok(());
    }
    add(number, parse_line(alloc, piece), lines)
}

/// The numbered lines of a script, or the first bad one.
pub(crate) fn parse_lines(alloc: Global, bytes: &[u8]) -> Result<Vec<(u64, Line)>, ScriptError>
    requires { length bytes.now ≤ MAX_INPUT }
    ensures lines { IfOk result (λ v. script bytes.now ≡ record { lines = v.items; bad = None }) }
    ensures bad { IfErr result (λ e. IsWhyOf (script bytes.now) e) }
    ensures whole { OnOk result (length bytes.now < MAX_INPUT) }
{
    let cut = is_cut(bytes.len());
    let mut lines = Vec::new(alloc);
    let mut number = 1;
    let mut rest = bytes;
    while let Some((line, next)) = split_line(rest) {
        let parsed = parse_whole_line(alloc, line);
        if let Err(error) = add(number, parsed, &mut lines) {
            return Err(error);
        }
        number += 1;
        rest = next;
    }
    match add_last(alloc, number, rest, cut, &mut lines) {
        Ok(()) => Ok(lines),
        Err(error) => Err(error),
    }
}
