// The line of a reply with pairs of a store.
ghost use Rattle.std.specs.Prelude.{flat_map};
ghost use Rattle.script_model.specs.{declared.script.Reply.TheVariants.Pairs, Text.{pair_text, reply_line}};
ghost use Rattle.script_text.specs.Adding.{Adds, AddsAll};

use crate::push::{push_bytes, push_dashed, push_number};
use iso_model::{Bytes, Memory};

/// Adds the line that shows a client these pairs. Without memory nothing is added.
pub(crate) fn push_pairs(
    out: &mut Vec<u8>,
    client: u8,
    pairs: &[(Bytes, Bytes)],
) -> Result<(), Memory>
    ensures { AddsAll result out.old.items out.new.items (reply_line client (Pairs pairs.now)) }
{
    let start = out.len();
    let pushed = push_line(out, client, pairs);
    if pushed.is_err() {
        out.truncate(start);
    }
    pushed
}

#[tactic(auto, unfolding(script_model::specs::Text::reply_text))]
fn push_line(out: &mut Vec<u8>, client: u8, pairs: &[(Bytes, Bytes)]) -> Result<(), Memory>
    ensures { Adds result out.old.items out.new.items (reply_line client (Pairs pairs.now)) }
{
    push_number(out, u64::from(client))?;
    push_bytes(out, b" ok")?;
    push_all(out, pairs)?;
    push_bytes(out, b"\n")
}

/// Adds the pairs, each after a space.
fn push_all(out: &mut Vec<u8>, pairs: &[(Bytes, Bytes)]) -> Result<(), Memory>
    ensures { Adds result out.old.items out.new.items (flat_map pair_text pairs.now) }
{
    for pair in pairs {
        push_pair(out, pair)?;
    }
    Ok(())
}

fn push_pair(out: &mut Vec<u8>, pair: &(Bytes, Bytes)) -> Result<(), Memory>
    ensures { Adds result out.old.items out.new.items (pair_text pair.now) }
{
    push_dashed(out, b" ", pair.0.as_slice())?;
    push_dashed(out, b"=", pair.1.as_slice())
}
