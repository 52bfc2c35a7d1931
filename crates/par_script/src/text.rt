// The whole text.
ghost use Rattle.std.specs.{Prelude.{◌≡◌, [], ◌++◌, IfErr, IfOk, OnErr, OnOk, flat_map, map}, List.concat};
ghost use Rattle.script_model.specs.Text.{reply_line};
ghost use Rattle.par_script.specs.Output.{commit_line, told_lines, AreFirst, IsFront, IsOutput};

use crate::commit_line::{CommitLine, print_commit, rising_commits};
use crate::part::Part;
use iso_model::{Bytes, Memory};
use script_model::Reply;
use script_text::push_reply;
use std::alloc::Global;

// Adds the lines of a client's replies.
fn push_replies(out: &mut Vec<u8>, client: u8, told: &[(u64, Reply)]) -> Result<(), Memory>
    ensures ok { OnOk result (out.new.items ≡ out.old.items ++ concat (map (λ t. reply_line client t.1) told.now)) }
    ensures err { OnErr result (AreFirst (map (λ t. reply_line client t.1) told.now) out.old.items out.new.items) }
{
    for (_, reply) in told {
        push_reply(out, client, reply)?;
    }
    Ok(())
}

// Adds the lines that all clients were told.
fn push_all_told(out: &mut Vec<u8>, parts: &[Part]) -> Result<(), Memory>
    ensures ok { OnOk result (out.new.items ≡ out.old.items ++ concat (flat_map told_lines parts.now)) }
    ensures err { OnErr result (AreFirst (flat_map told_lines parts.now) out.old.items out.new.items) }
{
    for part in parts {
        push_replies(out, part.client, part.told.as_slice())?;
    }
    Ok(())
}

// Adds the line of a commit, which is made in a buffer.
fn push_commit(out: &mut Vec<u8>, line: &mut Vec<u8>, commit: &CommitLine) -> Result<(), Memory>
    ensures ok { OnOk result (out.new.items ≡ out.old.items ++ commit_line commit.now) }
    ensures err { OnErr result (out.new.items ≡ out.old.items) }
{
    print_commit(line, commit)?;
    Ok(out.extend_from_slice(line.as_slice())?)
}

// Adds the lines that tell of the commits.
fn push_commits(alloc: Global, out: &mut Vec<u8>, commits: &[CommitLine]) -> Result<(), Memory>
    ensures ok { OnOk result (out.new.items ≡ out.old.items ++ concat (map commit_line commits.now)) }
    ensures err { OnErr result (AreFirst (map commit_line commits.now) out.old.items out.new.items) }
{
    let mut line = Vec::new(alloc);
    for commit in commits {
        push_commit(out, &mut line, commit)?;
    }
    Ok(())
}

// Adds all lines.
fn push_all(alloc: Global, out: &mut Vec<u8>, parts: &[Part]) -> Result<(), Memory>
    requires { out.old.items ≡ [] }
    ensures ok { OnOk result (IsOutput parts.now out.new.items) }
    ensures err { OnErr result (IsFront parts.now out.new.items) }
{
    push_all_told(out, parts)?;
    let commits = rising_commits(alloc, parts)?;
    push_commits(alloc, out, commits.as_slice())
}

/// The replies of each client, in the order in which they are handed in, and then a line for each commit in rising
/// number.
///
/// # Errors
///
/// Want of memory. It hands out first lines of that text.
pub fn par_text(alloc: Global, parts: &[Part]) -> Result<Bytes, Bytes>
    ensures ok { IfOk result (IsOutput parts.now) }
    ensures err { IfErr result (IsFront parts.now) }
{
    let mut out = Vec::new(alloc);
    match push_all(alloc, &mut out, parts) {
        Ok(()) => Ok(Bytes::of(out)),
        Err(_) => Err(Bytes::of(out)),
    }
}
