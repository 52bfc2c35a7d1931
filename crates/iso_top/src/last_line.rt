// The last line of a status, made in a fixed buffer.
ghost use Rattle.std.specs.Prelude.{◌≡◌, ◌+◌, ◌≤◌, [], ◌∷◌, ◌++◌, decimal, length};
ghost use Rattle.arrayvec.specs.ArrayVec.{array_vec_len};
ghost use Rattle.iso_top.specs.{Prints.Printed, Texts.{bad_line_text, error_text, script_error_text, usage_text}};

use arrayvec::ArrayVec;
use iso_image::OpenError;
use iso_io::{Sink, put_all};
use itoa::Buffer;
use script_model::BadLine;
use script_runner::ScriptError;

/// How many bytes a last line may have.
const ROOM: usize = 128;

/// What is written where the words are outside the grammar.
pub(crate) fn usage() -> &'static [u8]
    ensures { result.now ≡ usage_text }
{
    b"! usage\nnew IMAGE [--block-size B] [--blocks N] [--log L] [--mode serial|snapshot] [--hash H] [--tree T]\nrun IMAGE\npar IMAGE\nrecover IMAGE\nbench IMAGE SEED COUNT\n"
}

/// Puts a last line. Where the sink fails, it has taken a front of it, and the status stays.
pub(crate) fn put_last<K: Sink>(output: &mut K, line: &[u8])
    ensures { Printed (K.state output.old) (K.state output.new) line.now }
{
    let _ = put_all(output, line);
}

/// Puts a text, and a last line after it. Where the sink fails, it has taken a front of both.
pub(crate) fn put_behind<K: Sink>(output: &mut K, text: &[u8], line: &[u8])
    ensures { Printed (K.state output.old) (K.state output.new) (text.now ++ line.now) }
{
    if let Ok(()) = put_all(output, text) {
        put_last(output, line);
    }
}

/// Adds a text, for which there is room.
fn push_text(line: &mut ArrayVec<u8, ROOM>, text: &[u8])
    requires { array_vec_len line.old + length text.now ≤ ROOM }
    ensures { line.new.items ≡ line.old.items ++ text.now }
{
    line.try_extend_from_slice(text).unwrap();
}

/// The line that names a bad line.
pub(crate) fn bad_line(bad: &BadLine) -> ArrayVec<u8, ROOM>
    ensures { result.items ≡ bad_line_text bad.now }
{
    let mut digits = Buffer::new();
    let mut line = ArrayVec::new();
    push_text(&mut line, b"! bad line ");
    push_text(&mut line, digits.format(bad.line).as_bytes());
    push_text(&mut line, b" cause ");
    push_text(&mut line, digits.format(bad.cause).as_bytes());
    push_text(&mut line, b"\n");
    line
}

/// A text, a number, and a line feed.
fn line_with(text: &[u8], number: u64) -> ArrayVec<u8, ROOM>
    requires { length text.now ≤ 64 }
    ensures { result.items ≡ text.now ++ decimal number ++ 10 ∷ [] }
{
    let mut digits = Buffer::new();
    let mut line = ArrayVec::new();
    push_text(&mut line, text);
    push_text(&mut line, digits.format(number).as_bytes());
    push_text(&mut line, b"\n");
    line
}

/// Two texts, each with a number after it, and a line feed.
fn line_with_two(first: &[u8], number: u64, second: &[u8], other: u64) -> ArrayVec<u8, ROOM>
    requires { (length first.now ≤ 32) × (length second.now ≤ 32) }
    ensures { result.items ≡ first.now ++ decimal number ++ second.now ++ decimal other ++ 10 ∷ [] }
{
    let mut digits = Buffer::new();
    let mut line = ArrayVec::new();
    push_text(&mut line, first);
    push_text(&mut line, digits.format(number).as_bytes());
    push_text(&mut line, second);
    push_text(&mut line, digits.format(other).as_bytes());
    push_text(&mut line, b"\n");
    line
}

/// A text alone, with its line feed.
fn line_of(text: &[u8]) -> ArrayVec<u8, ROOM>
    requires { length text.now ≤ 64 }
    ensures { result.items ≡ text.now }
{
    let mut line = ArrayVec::new();
    push_text(&mut line, text);
    line
}

/// The line that says why no line of a script was run.
pub(crate) fn script_error_line(error: ScriptError) -> ArrayVec<u8, ROOM>
    ensures { result.items ≡ script_error_text error }
{
    match error {
        ScriptError::BadLine(bad) => bad_line(&bad),
        ScriptError::Input => line_of(b"! input fault\n"),
        ScriptError::Memory => line_of(b"! memory\n"),
    }
}

/// The line that says why no script was begun.
pub(crate) fn error_line(error: OpenError) -> ArrayVec<u8, ROOM>
    ensures { result.items ≡ error_text error }
{
    match error {
        OpenError::NotIsotope => line_of(b"! not an Isotope image\n"),
        OpenError::BadGeometry { field } => line_with(b"! bad geometry field ", u64::from(field)),
        OpenError::WrongSize { want, have } => {
            line_with_two(b"! wrong size want ", want, b" have ", have)
        }
        OpenError::NoHalf => line_of(b"! no open half\n"),
        OpenError::Damaged { at, cause } => {
            line_with_two(b"! damaged at ", at, b" cause ", u64::from(cause))
        }
        OpenError::UnknownForm { form } => line_with(b"! unknown form ", u64::from(form)),
        OpenError::Disk => line_of(b"! disk fault\n"),
        OpenError::Memory => line_of(b"! memory\n"),
    }
}
