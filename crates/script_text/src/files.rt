// The operations on files.
ghost use Rattle.script_model.specs.Script.{file_operation, key_and_value, one_key, read_arguments, write_arguments};
ghost use Rattle.script_model.specs.declared.script.Op.TheVariants as ops;
ghost use Rattle.script_text.specs.Parsing.{Places};

use crate::argument::{hex, number, stored};
use crate::operation::say_line;
use crate::word::{one_word, three_words, two_words};
use script_model::{LineError, Op, Parsed};
use std::alloc::Global;

/// Puts the line of this client with the operation on files of this name in its place.
#[tactic(auto, unfolding(script_model::specs::Script::file_operation))]
pub(crate) fn file_operation(
    alloc: Global,
    client: u8,
    name: &[u8],
    arguments: &[u8],
    into: &mut Parsed,
) -> Result<(), LineError>
    ensures { Places result into.new client (file_operation name.now) arguments.now }
{
    if name == b"fnew".as_slice() {
        return file_new(alloc, client, arguments, into);
    }
    if name == b"fwrite".as_slice() {
        return file_write(alloc, client, arguments, into);
    }
    if name == b"fread".as_slice() {
        return file_read(alloc, client, arguments, into);
    }
    if name == b"fmove".as_slice() {
        return file_move(alloc, client, arguments, into);
    }
    if name == b"fdel".as_slice() {
        return file_delete(alloc, client, arguments, into);
    }
    Err(LineError::Cause(2))
}

fn file_new(alloc: Global, client: u8, arguments: &[u8], into: &mut Parsed) -> Result<(), LineError>
    ensures { Places result into.new client (one_key ops.FileNew) arguments.now }
{
    let name = one_word(arguments).ok_or(LineError::Cause(3))?;
    let name = stored(alloc, name)?;
    say_line(into, client, Op::FileNew { name });
    Ok(())
}

fn file_write(
    alloc: Global,
    client: u8,
    arguments: &[u8],
    into: &mut Parsed,
) -> Result<(), LineError>
    ensures { Places result into.new client write_arguments arguments.now }
{
    let (name, off, bytes) = three_words(arguments).ok_or(LineError::Cause(3))?;
    let name = stored(alloc, name)?;
    let off = number(off)?;
    let bytes = hex(alloc, bytes)?;
    say_line(into, client, Op::FileWrite { name, off, bytes });
    Ok(())
}

fn file_read(
    alloc: Global,
    client: u8,
    arguments: &[u8],
    into: &mut Parsed,
) -> Result<(), LineError>
    ensures { Places result into.new client read_arguments arguments.now }
{
    let (name, off, len) = three_words(arguments).ok_or(LineError::Cause(3))?;
    let name = stored(alloc, name)?;
    let off = number(off)?;
    let len = number(len)?;
    say_line(into, client, Op::FileRead { name, off, len });
    Ok(())
}

fn file_move(
    alloc: Global,
    client: u8,
    arguments: &[u8],
    into: &mut Parsed,
) -> Result<(), LineError>
    ensures { Places result into.new client (key_and_value ops.FileMove) arguments.now }
{
    let (from, to) = two_words(arguments).ok_or(LineError::Cause(3))?;
    let from = stored(alloc, from)?;
    let to = stored(alloc, to)?;
    say_line(into, client, Op::FileMove { from, to });
    Ok(())
}

fn file_delete(
    alloc: Global,
    client: u8,
    arguments: &[u8],
    into: &mut Parsed,
) -> Result<(), LineError>
    ensures { Places result into.new client (one_key ops.FileDelete) arguments.now }
{
    let name = one_word(arguments).ok_or(LineError::Cause(3))?;
    let name = stored(alloc, name)?;
    say_line(into, client, Op::FileDelete { name });
    Ok(())
}
