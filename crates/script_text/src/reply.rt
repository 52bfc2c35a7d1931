// The line of a reply.
ghost use Rattle.std.specs.Prelude.{◌≡◌, ◌+◌, ◌*◌, ◌<◌, ◌≤◌, ◌++◌, IfOk, MatchOption, OnOk, OnErr, codes, decimal, length};
ghost use Rattle.script_model.specs.{declared.script.Reply.TheVariants.Shown, Text.{dashed, reply_line, reply_text}};
ghost use Rattle.script_text.specs.{Adding.{Adds, AddsAll, Puts}, Printing.{IsLong, IsOther, IsShort}, declared.reply.TheConstants.MOST_SHOWN};

use crate::ending::Ending;
use crate::grouped::push_grouped;
use crate::pairs::push_pairs;
use crate::push::{push_bytes, push_hex, push_number};
use iso_model::Memory;
use script_model::Reply;
use std::alloc::Global;

/// The bytes of a line that most replies fit into.
const USUAL_LINE: usize = 64;

/// The most bytes that are shown in a line which is made in place.
pub const MOST_SHOWN: usize = 64;

/// The line of a client's reply.
///
/// # Errors
///
/// Want of memory.
pub fn print_reply(alloc: Global, client: u8, reply: &Reply) -> Result<Vec<u8>, Memory>
    ensures { IfOk result (λ v. v.items ≡ reply_line client reply.now) }
{
    let mut line = Vec::with_capacity(alloc, USUAL_LINE)?;
    push_reply(&mut line, client, reply)?;
    Ok(line)
}

/// Adds the line of a client's reply.
///
/// # Errors
///
/// Want of memory. Nothing is added.
pub fn push_reply(out: &mut Vec<u8>, client: u8, reply: &Reply) -> Result<(), Memory>
    ensures ok { OnOk result (out.new.items ≡ out.old.items ++ reply_line client reply.now) }
    ensures err { OnErr result (out.new.items ≡ out.old.items) }
{
    match reply {
        Reply::Pairs(pairs) => push_pairs(out, client, pairs.as_slice()),
        Reply::Grouped(answers) => push_grouped(out, client, answers.as_slice()),
        _ => push_other(out, client, reply),
    }
}

fn push_other(out: &mut Vec<u8>, client: u8, reply: &Reply) -> Result<(), Memory>
    requires { IsOther reply.now }
    ensures { AddsAll result out.old.items out.new.items (reply_line client reply.now) }
{
    match many_shown(reply) {
        Some(bytes) => push_shown(out, client, bytes),
        None => push_short(out, client, reply),
    }
}

/// The bytes that a reply shows, where they are too many for a line that is made in place.
pub(crate) fn many_shown(reply: &Reply) -> Option<&[u8]>
    requires { IsOther reply.now }
    ensures { MatchOption result (IsShort reply.now) (λ bytes. IsLong reply.now bytes.now) }
{
    match reply {
        Reply::Shown(bytes) | Reply::Found(bytes) => {
            if bytes.len() > MOST_SHOWN {
                Some(bytes.as_slice())
            } else {
                None
            }
        }
        _ => None,
    }
}

fn push_short(out: &mut Vec<u8>, client: u8, reply: &Reply) -> Result<(), Memory>
    requires { IsShort reply.now }
    ensures { AddsAll result out.old.items out.new.items (reply_line client reply.now) }
{
    let mut line = Ending::new();
    put_reply(&mut line, client, reply);
    push_bytes(out, line.as_slice())
}

/// Puts the line of a reply in the place of the text.
pub(crate) fn put_reply(line: &mut Ending, client: u8, reply: &Reply)
    requires { IsShort reply.now }
    ensures { line.new.text ≡ reply_line client reply.now }
{
    line.clear();
    line.put(b"\n");
    put_text(line, reply);
    line.put(b" ");
    line.put_number(u64::from(client));
}

/// Adds the line that shows a client these bytes. Without memory nothing is added.
pub(crate) fn push_shown(out: &mut Vec<u8>, client: u8, bytes: &[u8]) -> Result<(), Memory>
    ensures { AddsAll result out.old.items out.new.items (reply_line client (Shown bytes.now)) }
{
    let start = out.len();
    let pushed = push_parts(out, client, bytes);
    if pushed.is_err() {
        out.truncate(start);
    }
    pushed
}

#[tactic(auto, unfolding(script_model::specs::Text::reply_text))]
fn push_parts(out: &mut Vec<u8>, client: u8, bytes: &[u8]) -> Result<(), Memory>
    ensures { Adds result out.old.items out.new.items (reply_line client (Shown bytes.now)) }
{
    push_number(out, u64::from(client))?;
    push_bytes(out, b" ok ")?;
    push_hex(out, bytes)?;
    push_bytes(out, b"\n")
}

/// Puts what the reply says before the text.
#[tactic(auto, unfolding(script_model::specs::Text::reply_text))]
fn put_text(line: &mut Ending, reply: &Reply)
    requires room { 162 ≤ line.old.room }
    requires shown { IsShort reply.now }
    ensures { Puts line.old line.new 162 (reply_text reply.now) }
{
    match reply {
        Reply::Done => line.put(b"ok"),
        Reply::Began(commit) => put_numbered(line, b"ok begin ", *commit),
        Reply::Shown(bytes) => {
            line.put_hex(bytes.as_slice());
            line.put(b"ok ");
        }
        Reply::Committed(commit) => put_numbered(line, b"ok commit ", *commit),
        Reply::ReadOnly => line.put(b"ok read-only"),
        Reply::Conflict(clash) => {
            put_numbered(line, b" at ", u64::from(clash.at));
            put_numbered(line, b" block ", u64::from(clash.block));
            put_numbered(line, b"conflict with ", clash.commit);
        }
        Reply::Trimmed(floor) => put_numbered(line, b"ok trim ", *floor),
        Reply::Compacted(floor) => put_numbered(line, b"ok compact ", *floor),
        Reply::Upgraded(floor) => put_numbered(line, b"ok upgrade ", *floor),
        Reply::Numbers {
            last,
            base,
            trim,
            live,
            used,
            versions,
        } => {
            put_two(line, b" used ", u64::from(*used), b" versions ", *versions);
            put_two(line, b" trim ", *trim, b" live ", u64::from(*live));
            put_two(line, b"ok last ", *last, b" base ", *base);
        }
        Reply::Found(value) => put_found(line, value.as_slice()),
        Reply::Pairs(_) | Reply::Grouped(_) => unreachable!(),
        Reply::Missing => line.put(b"ok none"),
        Reply::InTx => line.put(b"in-tx"),
        Reply::NotInTx => line.put(b"not-in-tx"),
        Reply::ModeFixed => line.put(b"mode-fixed"),
        Reply::NoStore => line.put(b"no-store"),
        Reply::StoreMode => line.put(b"store-mode"),
        Reply::BadKey => line.put(b"bad-key"),
        Reply::BadValue => line.put(b"bad-value"),
        Reply::BadName => line.put(b"bad-name"),
        Reply::Exists => line.put(b"exists"),
        Reply::BadBlock => line.put(b"bad-block"),
        Reply::BadRange => line.put(b"bad-range"),
        Reply::NoAccess => line.put(b"no-access"),
        Reply::TooManyMarks => line.put(b"too-many-marks"),
        Reply::TooManyAccesses => line.put(b"too-many-accesses"),
        Reply::Broken { block } => put_numbered(line, b"broken block ", u64::from(*block)),
        Reply::NoBlocks { need, free } => {
            put_two(
                line,
                b"no-blocks need ",
                u64::from(*need),
                b" free ",
                u64::from(*free),
            );
        }
        Reply::NoHandle => line.put(b"no-handle"),
        Reply::LabelTaken => line.put(b"label-taken"),
        Reply::TooManyTx => line.put(b"too-many-tx"),
        Reply::Worn => line.put(b"worn"),
        Reply::LogFull { need, free } => {
            put_two(line, b"log full need ", *need, b" free ", *free);
        }
    }
}

/// Puts what a look-up of a store or a read of a file has found before the text.
fn put_found(line: &mut Ending, value: &[u8])
    requires room { 131 ≤ line.old.room }
    requires few { length value.now ≤ MOST_SHOWN }
    ensures { Puts line.old line.new 131 (codes "ok " ++ dashed value.now) }
{
    if value.is_empty() {
        line.put(b"ok -");
    } else {
        line.put_hex(value);
        line.put(b"ok ");
    }
}

/// Puts a text and a number in decimal before the text.
#[inline(always)]
fn put_numbered(line: &mut Ending, text: &[u8], number: u64)
    requires { length text.now + 20 ≤ line.old.room }
    ensures { Puts line.old line.new (length text.now + 20) (text.now ++ decimal number) }
{
    line.put_number(number);
    line.put(text);
}

/// Puts two texts, each with a number in decimal after it, before the text.
fn put_two(line: &mut Ending, text: &[u8], number: u64, next_text: &[u8], next_number: u64)
    requires { length text.now + length next_text.now + 40 ≤ line.old.room }
    ensures { Puts line.old line.new (length text.now + length next_text.now + 40) (text.now ++ decimal number ++ next_text.now ++ decimal next_number) }
{
    put_numbered(line, next_text, next_number);
    put_numbered(line, text, number);
}
