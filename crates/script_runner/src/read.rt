// A script that is read from a source.
ghost use Rattle.std.specs.Prelude.{IfErr, IfOk};
ghost use Rattle.script_runner.specs.Read.{HasNoLines, HasRead};

use crate::lines::{ScriptError, parse_lines};
use iso_io::{Source, TakeError, take_all};
use iso_model::MAX_INPUT;
use script_model::Line;
use std::alloc::Global;

/// The numbered lines of a script, which is read to its end, but no more than 2^32 bytes of it.
///
/// # Errors
///
/// - `BadLine`: the first bad line, wherever it is.
/// - `Input`: the source failed.
/// - `Memory`: want of memory.
pub fn read_script<S: Source>(alloc: Global, input: &mut S) -> Result<Vec<(u64, Line)>, ScriptError>
    ensures lines { IfOk result (λ v. HasRead (S.state input.old) (S.state input.new) v.items) }
    ensures why { IfErr result (λ e. HasNoLines (S.state input.old) (S.state input.new) e) }
{
    let bytes = match take_all(alloc, input, MAX_INPUT) {
        Ok(bytes) => bytes,
        Err(TakeError::Failed) => return Err(ScriptError::Input),
        Err(TakeError::Memory) => return Err(ScriptError::Memory),
    };
    match parse_lines(alloc, bytes.as_slice()) {
        Ok(lines) => Ok(lines),
        Err(error) => Err(error),
    }
}
