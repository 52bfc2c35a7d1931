// The operations, each with its arguments, which are tested from the left.
ghost use Rattle.std.specs.Prelude.{◌≡◌};
ghost use Rattle.script_model.specs.{declared.script.Parsed.TheVariants.{Line as Says}, Script.{bare, begin_arguments, group_arguments, key_and_value, number_and_bytes, one_key, one_label, one_number, operation_of, other_operation, put_arguments, scan_arguments, store_operation, three_numbers, tree_operation, two_numbers}, Text.words_of};
ghost use Rattle.script_model.specs.declared.script.Op.TheVariants as ops;
ghost use Rattle.script_text.specs.Parsing.{Gives, Places, placed, said_behind};

use crate::argument::{hex, hex_within, label, labels, mode, number, numbers_and_word, stored};
use crate::files::file_operation;
use crate::word::{count_words, next_word, one_word, three_words, two_words};
use script_model::{Line, LineError, MAX_LABELS, Op, Parsed};
use std::alloc::Global;
use std::mem::replace;

/// Puts the line of this client with the operation of this name in its place: it has many bytes to be handed on by value. The bytes
/// of a put take the spare memory.
#[inline(always)]
#[tactic(auto, unfolding(script_model::specs::Script::operation_of))]
fn operation_of(
    alloc: Global,
    client: u8,
    name: &[u8],
    arguments: &[u8],
    into: &mut Parsed,
    spare: &mut Vec<u8>,
) -> Result<(), LineError>
    ensures { Places result into.new client (operation_of name.now) arguments.now }
{
    if name == b"begin".as_slice() {
        return begin(client, arguments, into);
    }
    if name == b"put".as_slice() {
        return put(alloc, client, arguments, into, spare);
    }
    if name == b"read".as_slice() {
        return read(client, arguments, into);
    }
    if name == b"get".as_slice() {
        return get(client, arguments, into);
    }
    if name == b"write".as_slice() {
        return write(alloc, client, arguments, into);
    }
    if name == b"fill".as_slice() {
        return fill(alloc, client, arguments, into);
    }
    if name == b"mark".as_slice() {
        return mark(client, arguments, into);
    }
    if name == b"end".as_slice() {
        return bare(client, Op::End, arguments, into);
    }
    if name == b"abort".as_slice() {
        return bare(client, Op::Abort, arguments, into);
    }
    other_operation(alloc, client, name, arguments, into)
}

/// Puts the line of this client with the operation that a text names in its place.
#[inline(always)]
pub(crate) fn named_operation(
    alloc: Global,
    client: u8,
    text: &[u8],
    into: &mut Parsed,
    spare: &mut Vec<u8>,
) -> Result<(), LineError>
    ensures { Gives (placed result into.new) (said_behind client (words_of text.now)) }
{
    // most lines are those of a usual transaction, which few bytes tell
    if let [b'g', b'e', b't', b' ', arguments @ ..] = text {
        return get(client, arguments, into);
    }
    if let [b'p', b'u', b't', b' ', arguments @ ..] = text {
        return put(alloc, client, arguments, into, spare);
    }
    if let [b'b', b'e', b'g', b'i', b'n'] = text {
        say_line(into, client, Op::Begin { mode: None });
        return Ok(());
    }
    if let [b'e', b'n', b'd'] = text {
        say_line(into, client, Op::End);
        return Ok(());
    }
    let Some((name, arguments)) = next_word(text) else {
        return Err(LineError::Cause(2));
    };
    operation_of(alloc, client, name, arguments, into, spare)
}

#[tactic(auto, unfolding(script_model::specs::Script::other_operation))]
fn other_operation(
    alloc: Global,
    client: u8,
    name: &[u8],
    arguments: &[u8],
    into: &mut Parsed,
) -> Result<(), LineError>
    ensures { Places result into.new client (other_operation name.now) arguments.now }
{
    if name == b"release".as_slice() {
        return release(client, arguments, into);
    }
    if name == b"takeover".as_slice() {
        return takeover(client, arguments, into);
    }
    if name == b"await".as_slice() {
        return await_label(client, arguments, into);
    }
    if name == b"group".as_slice() {
        return group(alloc, client, arguments, into);
    }
    if name == b"trim".as_slice() {
        return bare(client, Op::Trim, arguments, into);
    }
    if name == b"stat".as_slice() {
        return bare(client, Op::Stat, arguments, into);
    }
    if name == b"compact".as_slice() {
        return bare(client, Op::Compact, arguments, into);
    }
    if name == b"upgrade".as_slice() {
        return bare(client, Op::Upgrade, arguments, into);
    }
    store_operation(alloc, client, name, arguments, into)
}

#[tactic(auto, unfolding(script_model::specs::Script::store_operation))]
fn store_operation(
    alloc: Global,
    client: u8,
    name: &[u8],
    arguments: &[u8],
    into: &mut Parsed,
) -> Result<(), LineError>
    ensures { Places result into.new client (store_operation name.now) arguments.now }
{
    if name == b"hput".as_slice() {
        return hash_put(alloc, client, arguments, into);
    }
    if name == b"hget".as_slice() {
        return hash_get(alloc, client, arguments, into);
    }
    if name == b"hdel".as_slice() {
        return hash_delete(alloc, client, arguments, into);
    }
    tree_operation(alloc, client, name, arguments, into)
}

#[tactic(auto, unfolding(script_model::specs::Script::tree_operation))]
fn tree_operation(
    alloc: Global,
    client: u8,
    name: &[u8],
    arguments: &[u8],
    into: &mut Parsed,
) -> Result<(), LineError>
    ensures { Places result into.new client (tree_operation name.now) arguments.now }
{
    if name == b"tput".as_slice() {
        return tree_put(alloc, client, arguments, into);
    }
    if name == b"tget".as_slice() {
        return tree_get(alloc, client, arguments, into);
    }
    if name == b"tdel".as_slice() {
        return tree_delete(alloc, client, arguments, into);
    }
    if name == b"tscan".as_slice() {
        return tree_scan(alloc, client, arguments, into);
    }
    file_operation(alloc, client, name, arguments, into)
}

/// Puts what a line of this client says in its place.
#[inline(always)]
pub(crate) fn say_line(into: &mut Parsed, client: u8, op: Op)
    ensures { into.new ≡ Says (record { client = client; op = op }) }
{
    *into = Parsed::Line(Line { client, op });
}

/// An operation that has no arguments.
#[inline(always)]
fn bare(client: u8, op: Op, arguments: &[u8], into: &mut Parsed) -> Result<(), LineError>
    ensures { Places result into.new client (bare op) arguments.now }
{
    match next_word(arguments) {
        None => {
            say_line(into, client, op);
            Ok(())
        }
        Some(_) => Err(LineError::Cause(3)),
    }
}

fn begin(client: u8, arguments: &[u8], into: &mut Parsed) -> Result<(), LineError>
    ensures { Places result into.new client begin_arguments arguments.now }
{
    let Some((word, more)) = next_word(arguments) else {
        say_line(into, client, Op::Begin { mode: None });
        return Ok(());
    };
    if let Some(_) = next_word(more) {
        return Err(LineError::Cause(3));
    }
    let mode = mode(word)?;
    say_line(into, client, Op::Begin { mode: Some(mode) });
    Ok(())
}

#[inline(always)]
fn put(
    alloc: Global,
    client: u8,
    arguments: &[u8],
    into: &mut Parsed,
    spare: &mut Vec<u8>,
) -> Result<(), LineError>
    ensures { Places result into.new client put_arguments arguments.now }
{
    let (block, off, text) = match numbers_and_word(arguments) {
        Ok(found) => found,
        Err(error) => return Err(error),
    };
    let bytes = match hex_within(text, replace(spare, Vec::new(alloc))) {
        Ok(bytes) => bytes,
        Err(error) => return Err(error),
    };
    say_line(into, client, Op::Put { block, off, bytes });
    Ok(())
}

fn read(client: u8, arguments: &[u8], into: &mut Parsed) -> Result<(), LineError>
    ensures { Places result into.new client (one_number ops.Read) arguments.now }
{
    let block = one_word(arguments).ok_or(LineError::Cause(3))?;
    let block = number(block)?;
    say_line(into, client, Op::Read { block });
    Ok(())
}

#[inline(always)]
fn get(client: u8, arguments: &[u8], into: &mut Parsed) -> Result<(), LineError>
    ensures { Places result into.new client (three_numbers ops.Get) arguments.now }
{
    let (block, off, word) = match numbers_and_word(arguments) {
        Ok(found) => found,
        Err(error) => return Err(error),
    };
    let len = match number(word) {
        Ok(len) => len,
        Err(error) => return Err(error),
    };
    say_line(into, client, Op::Get { block, off, len });
    Ok(())
}

fn write(alloc: Global, client: u8, arguments: &[u8], into: &mut Parsed) -> Result<(), LineError>
    ensures { Places result into.new client (number_and_bytes ops.Write) arguments.now }
{
    let (block, bytes) = two_words(arguments).ok_or(LineError::Cause(3))?;
    let block = number(block)?;
    let bytes = hex(alloc, bytes)?;
    say_line(into, client, Op::Write { block, bytes });
    Ok(())
}

fn fill(alloc: Global, client: u8, arguments: &[u8], into: &mut Parsed) -> Result<(), LineError>
    ensures { Places result into.new client (number_and_bytes ops.Fill) arguments.now }
{
    let (block, bytes) = two_words(arguments).ok_or(LineError::Cause(3))?;
    let block = number(block)?;
    let bytes = hex(alloc, bytes)?;
    say_line(into, client, Op::Fill { block, bytes });
    Ok(())
}

fn mark(client: u8, arguments: &[u8], into: &mut Parsed) -> Result<(), LineError>
    ensures { Places result into.new client (two_numbers ops.Mark) arguments.now }
{
    let (off, len) = two_words(arguments).ok_or(LineError::Cause(3))?;
    let off = number(off)?;
    let len = number(len)?;
    say_line(into, client, Op::Mark { off, len });
    Ok(())
}

fn release(client: u8, arguments: &[u8], into: &mut Parsed) -> Result<(), LineError>
    ensures { Places result into.new client (one_label ops.Release) arguments.now }
{
    let text = one_word(arguments).ok_or(LineError::Cause(3))?;
    let label = label(text)?;
    say_line(into, client, Op::Release { label });
    Ok(())
}

fn takeover(client: u8, arguments: &[u8], into: &mut Parsed) -> Result<(), LineError>
    ensures { Places result into.new client (one_label ops.Takeover) arguments.now }
{
    let text = one_word(arguments).ok_or(LineError::Cause(3))?;
    let label = label(text)?;
    say_line(into, client, Op::Takeover { label });
    Ok(())
}

fn await_label(client: u8, arguments: &[u8], into: &mut Parsed) -> Result<(), LineError>
    ensures { Places result into.new client (one_label ops.Await) arguments.now }
{
    let text = one_word(arguments).ok_or(LineError::Cause(3))?;
    let label = label(text)?;
    say_line(into, client, Op::Await { label });
    Ok(())
}

fn group(alloc: Global, client: u8, arguments: &[u8], into: &mut Parsed) -> Result<(), LineError>
    ensures { Places result into.new client group_arguments arguments.now }
{
    let count = count_words(arguments);
    if count == 0 || count > MAX_LABELS {
        return Err(LineError::Cause(3));
    }
    let labels = labels(alloc, count as u32, arguments)?;
    say_line(into, client, Op::Group { labels });
    Ok(())
}

fn hash_put(alloc: Global, client: u8, arguments: &[u8], into: &mut Parsed) -> Result<(), LineError>
    ensures { Places result into.new client (key_and_value ops.HashPut) arguments.now }
{
    let (key, value) = two_words(arguments).ok_or(LineError::Cause(3))?;
    let key = stored(alloc, key)?;
    let value = stored(alloc, value)?;
    say_line(into, client, Op::HashPut { key, value });
    Ok(())
}

fn hash_get(alloc: Global, client: u8, arguments: &[u8], into: &mut Parsed) -> Result<(), LineError>
    ensures { Places result into.new client (one_key ops.HashGet) arguments.now }
{
    let key = one_word(arguments).ok_or(LineError::Cause(3))?;
    let key = stored(alloc, key)?;
    say_line(into, client, Op::HashGet { key });
    Ok(())
}

fn hash_delete(
    alloc: Global,
    client: u8,
    arguments: &[u8],
    into: &mut Parsed,
) -> Result<(), LineError>
    ensures { Places result into.new client (one_key ops.HashDelete) arguments.now }
{
    let key = one_word(arguments).ok_or(LineError::Cause(3))?;
    let key = stored(alloc, key)?;
    say_line(into, client, Op::HashDelete { key });
    Ok(())
}

fn tree_put(alloc: Global, client: u8, arguments: &[u8], into: &mut Parsed) -> Result<(), LineError>
    ensures { Places result into.new client (key_and_value ops.TreePut) arguments.now }
{
    let (key, value) = two_words(arguments).ok_or(LineError::Cause(3))?;
    let key = stored(alloc, key)?;
    let value = stored(alloc, value)?;
    say_line(into, client, Op::TreePut { key, value });
    Ok(())
}

fn tree_get(alloc: Global, client: u8, arguments: &[u8], into: &mut Parsed) -> Result<(), LineError>
    ensures { Places result into.new client (one_key ops.TreeGet) arguments.now }
{
    let key = one_word(arguments).ok_or(LineError::Cause(3))?;
    let key = stored(alloc, key)?;
    say_line(into, client, Op::TreeGet { key });
    Ok(())
}

fn tree_delete(
    alloc: Global,
    client: u8,
    arguments: &[u8],
    into: &mut Parsed,
) -> Result<(), LineError>
    ensures { Places result into.new client (one_key ops.TreeDelete) arguments.now }
{
    let key = one_word(arguments).ok_or(LineError::Cause(3))?;
    let key = stored(alloc, key)?;
    say_line(into, client, Op::TreeDelete { key });
    Ok(())
}

fn tree_scan(
    alloc: Global,
    client: u8,
    arguments: &[u8],
    into: &mut Parsed,
) -> Result<(), LineError>
    ensures { Places result into.new client scan_arguments arguments.now }
{
    let (from, to, most) = three_words(arguments).ok_or(LineError::Cause(3))?;
    let from = stored(alloc, from)?;
    let to = stored(alloc, to)?;
    let most = number(most)?;
    say_line(into, client, Op::TreeScan { from, to, most });
    Ok(())
}
