// What a line of a script says.
ghost use Rattle.std.specs.{Prelude.{◌≡◌, IfErr, IfOk, if◌then◌else◌}, List.list_all};
ghost use Rattle.script_model.specs.{Script.{is_printable, is_skipped, parse, parse_whole, said, without_return}, Text.words_of};
ghost use Rattle.script_text.specs.Parsing.{Fails, Gives, placed, said_behind};

use crate::argument::client;
use crate::operation::named_operation;
use crate::word::next_word;
use iso_model::{Bytes, MAX_LINE};
use script_model::{LineError, Op, Parsed};
use std::alloc::Global;
use std::mem::replace;

/// What a line without its line feed says.
///
/// # Errors
///
/// - `Cause`: the first test that the line fails.
/// - `Memory`: want of memory for what it says.
pub fn parse_line(alloc: Global, text: &[u8]) -> Result<Parsed, LineError>
    ensures { Gives result (parse text.now) }
{
    let mut parsed = Parsed::Skip;
    let mut spare = Vec::new(alloc);
    match parse_line_into(alloc, text, &mut parsed, &mut spare) {
        Ok(()) => Ok(parsed),
        Err(error) => Err(error),
    }
}

/// What a line without its line feed says, in place of what an earlier line said. The spare memory is that of bytes which an earlier
/// line put, and it serves for those of this one; what is in it is free.
///
/// # Errors
///
/// As those of `parse_line`. What is in the place then is not said.
#[inline(never)]
#[tactic(auto, unfolding(script_model::specs::Script::parse))]
pub fn parse_line_into(
    alloc: Global,
    text: &[u8],
    into: &mut Parsed,
    spare: &mut Vec<u8>,
) -> Result<(), LineError>
    ensures { Gives (placed result into.new) (parse text.now) }
{
    keep_memory(alloc, into, spare);
    if text.len() > MAX_LINE {
        return Err(LineError::Cause(7));
    }
    if is_skipped(text) {
        *into = Parsed::Skip;
        return Ok(());
    }
    match say(alloc, text, into, spare) {
        // what a line says has printable bytes alone, so these are looked at where it says nothing
        Err(LineError::Cause(cause)) => Err(LineError::Cause(first_cause(text, cause))),
        Err(LineError::Memory) => Err(LineError::Memory),
        Ok(()) => Ok(()),
    }
}

/// What the bytes before a line feed say. A carriage return at their end counts in their length alone.
///
/// # Errors
///
/// As those of `parse_line`.
pub fn parse_whole_line(alloc: Global, piece: &[u8]) -> Result<Parsed, LineError>
    ensures { Gives result (parse_whole piece.now) }
{
    let mut parsed = Parsed::Skip;
    let mut spare = Vec::new(alloc);
    match parse_whole_line_into(alloc, piece, &mut parsed, &mut spare) {
        Ok(()) => Ok(parsed),
        Err(error) => Err(error),
    }
}

/// What the bytes before a line feed say, as `parse_whole_line` has it, in place of what an earlier line said. The spare memory is
/// as that of `parse_line_into`.
///
/// # Errors
///
/// As those of `parse_line`. What is in the place then is not said.
#[inline(always)]
#[tactic(auto, unfolding(script_model::specs::Script::parse_whole))]
pub fn parse_whole_line_into(
    alloc: Global,
    piece: &[u8],
    into: &mut Parsed,
    spare: &mut Vec<u8>,
) -> Result<(), LineError>
    ensures { Gives (placed result into.new) (parse_whole piece.now) }
{
    if piece.len() > MAX_LINE {
        return Err(LineError::Cause(7));
    }
    parse_line_into(alloc, without_return(piece), into, spare)
}

/// Keeps the memory of the bytes of a put in a place that is free.
#[inline(always)]
fn keep_memory(alloc: Global, place: &mut Parsed, spare: &mut Vec<u8>) {
    if let Parsed::Line(line) = place {
        if let Op::Put { bytes, .. } = &mut line.op {
            *spare = replace(bytes, Bytes::empty(alloc)).into_vec();
        }
    }
}

/// A line without the one carriage return at its end.
fn without_return(piece: &[u8]) -> &[u8]
    ensures { result.now ≡ without_return piece.now }
{
    piece.strip_suffix(b"\r").unwrap_or(piece)
}

/// Whether a line says nothing: it is empty, only spaces, or a comment.
fn is_skipped(text: &[u8]) -> bool
    ensures { result ≡ is_skipped text.now }
{
    text.starts_with(b"#") || text.iter().all(|byte| *byte == b' ')
}

/// The first test that a line fails whose words fail by this cause.
fn first_cause(text: &[u8], cause: u8) -> u8
    ensures { result ≡ if list_all is_printable text.now then cause else 8 }
{
    if text.iter().all(|byte| (b' '..=b'~').contains(byte)) {
        cause
    } else {
        8
    }
}

/// The client of a line, and what follows its word.
#[inline(always)]
fn client_and_rest(text: &[u8]) -> Result<(u8, &[u8]), LineError>
    ensures client { IfOk result (λ found. said (words_of text.now) ≡ said_behind found.0 (words_of found.1.now)) }
    ensures none { IfErr result (λ error. Fails error (said (words_of text.now))) }
{
    // the client of most lines is one digit
    if let [digit @ b'1'..=b'9', b' ', rest @ ..] = text {
        return Ok((*digit - b'0', rest));
    }
    let Some((first, rest)) = next_word(text) else {
        return Err(LineError::Cause(1));
    };
    match client(first) {
        Ok(client) => Ok((client, rest)),
        Err(error) => Err(error),
    }
}

/// Puts what the words of a line say in its place.
#[inline(always)]
fn say(alloc: Global, text: &[u8], into: &mut Parsed, spare: &mut Vec<u8>) -> Result<(), LineError>
    ensures { Gives (placed result into.new) (said (words_of text.now)) }
{
    let (client, rest) = match client_and_rest(text) {
        Ok(found) => found,
        Err(error) => return Err(error),
    };
    named_operation(alloc, client, rest, into, spare)
}
