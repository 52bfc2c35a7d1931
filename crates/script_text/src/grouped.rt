// The line of the reply to a group.
ghost use Rattle.std.specs.Prelude.{◌++◌, codes, decimal, flat_map};
ghost use Rattle.script_model.specs.{declared.script.Reply.TheVariants.Grouped, Text.{clash_text, full_text, label_text, labels_text, reply_line}};
ghost use Rattle.script_text.specs.Adding.{Adds, AddsAll};

use crate::push::{push_bytes, push_number};
use iso_model::{Clash, GroupReply, Memory};

/// Adds the line that shows a client how a group ended. Without memory nothing is added.
pub(crate) fn push_grouped(
    out: &mut Vec<u8>,
    client: u8,
    answers: &[Option<GroupReply>],
) -> Result<(), Memory>
    ensures { AddsAll result out.old.items out.new.items (reply_line client (Grouped answers.now)) }
{
    let start = out.len();
    let pushed = push_line(out, client, answers);
    if pushed.is_err() {
        out.truncate(start);
    }
    pushed
}

#[tactic(auto, unfolding(script_model::specs::Text::reply_text))]
fn push_line(out: &mut Vec<u8>, client: u8, answers: &[Option<GroupReply>]) -> Result<(), Memory>
    ensures { Adds result out.old.items out.new.items (reply_line client (Grouped answers.now)) }
{
    push_number(out, u64::from(client))?;
    push_bytes(out, b" ok")?;
    push_answers(out, answers)?;
    push_bytes(out, b"\n")
}

/// Adds the answers, the first one after a space.
fn push_answers(out: &mut Vec<u8>, answers: &[Option<GroupReply>]) -> Result<(), Memory>
    ensures { Adds result out.old.items out.new.items (labels_text answers.now) }
{
    let Some((first, others)) = answers.split_first() else {
        return Ok(());
    };
    push_bytes(out, b" ")?;
    push_answer(out, first)?;
    push_others(out, others)
}

/// Adds the answers after the first one, each after a semicolon and a space.
fn push_others(out: &mut Vec<u8>, answers: &[Option<GroupReply>]) -> Result<(), Memory>
    ensures { Adds result out.old.items out.new.items (flat_map (λ a. codes "; " ++ label_text a) answers.now) }
{
    for answer in answers {
        push_other(out, answer)?;
    }
    Ok(())
}

fn push_other(out: &mut Vec<u8>, answer: &Option<GroupReply>) -> Result<(), Memory>
    ensures { Adds result out.old.items out.new.items (codes "; " ++ label_text answer.now) }
{
    push_bytes(out, b"; ")?;
    push_answer(out, answer)
}

/// Adds what a label is answered.
#[tactic(auto, unfolding(script_model::specs::Text::label_text))]
fn push_answer(out: &mut Vec<u8>, answer: &Option<GroupReply>) -> Result<(), Memory>
    ensures { Adds result out.old.items out.new.items (label_text answer.now) }
{
    match answer {
        Some(GroupReply::Committed(number)) => push_numbered(out, b"commit ", *number),
        Some(GroupReply::ReadOnly) => push_bytes(out, b"read-only"),
        Some(GroupReply::Conflict(clash)) => push_clash(out, clash),
        Some(GroupReply::Full { need, free }) => push_full(out, *need, *free),
        Some(GroupReply::Worn) => push_bytes(out, b"worn"),
        None => push_bytes(out, b"none"),
    }
}

fn push_clash(out: &mut Vec<u8>, clash: &Clash) -> Result<(), Memory>
    ensures { Adds result out.old.items out.new.items (clash_text clash.now) }
{
    push_numbered(out, b"conflict with ", clash.commit)?;
    push_numbered(out, b" block ", u64::from(clash.block))?;
    push_numbered(out, b" at ", u64::from(clash.at))
}

fn push_full(out: &mut Vec<u8>, need: u64, free: u64) -> Result<(), Memory>
    ensures { Adds result out.old.items out.new.items (full_text need free) }
{
    push_numbered(out, b"log full need ", need)?;
    push_numbered(out, b" free ", free)
}

/// Adds a text and a number in decimal. Without memory a part of that may be added.
fn push_numbered(out: &mut Vec<u8>, text: &[u8], number: u64) -> Result<(), Memory>
    ensures { Adds result out.old.items out.new.items (text.now ++ decimal number) }
{
    push_bytes(out, text)?;
    push_number(out, number)
}
