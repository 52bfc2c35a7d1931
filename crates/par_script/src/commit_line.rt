// The commits of a run, with the lines that made them.
ghost use Rattle.std.specs.Prelude.{◌≡◌, ◌++◌, IfOk, OnOk, decimal, flat_map};
ghost use Rattle.par_script.specs.Output.{commit_by, commit_in, commit_line, commits_of, AreCommits};

use crate::part::Part;
use iso_model::{GroupReply, Memory};
use itoa::Buffer;
use script_model::Reply;
use std::alloc::Global;

/// A commit, the client that made it, and the number of its line.
#[derive(Clone, Copy)]
pub struct CommitLine {
    pub number: u64,
    pub client: u8,
    pub line: u64,
}

// Adds the commit of a member of a group, if it made one.
fn add_member(
    commits: &mut Vec<CommitLine>,
    client: u8,
    line: u64,
    answer: &Option<GroupReply>,
) -> Result<(), Memory>
    ensures { OnOk result (commits.new.items ≡ commits.old.items ++ commit_in client line answer.now) }
{
    if let Some(GroupReply::Committed(number)) = answer {
        commits.push(CommitLine {
            number: *number,
            client,
            line,
        })?;
    }
    Ok(())
}

// Adds the commits of a group.
fn add_members(
    commits: &mut Vec<CommitLine>,
    client: u8,
    line: u64,
    answers: &[Option<GroupReply>],
) -> Result<(), Memory>
    ensures { OnOk result (commits.new.items ≡ commits.old.items ++ flat_map (commit_in client line) answers.now) }
{
    for answer in answers {
        add_member(commits, client, line, answer)?;
    }
    Ok(())
}

// Adds the commits that a line made.
fn add_commit(
    commits: &mut Vec<CommitLine>,
    client: u8,
    line: u64,
    reply: &Reply,
) -> Result<(), Memory>
    ensures { OnOk result (commits.new.items ≡ commits.old.items ++ commit_by client line reply.now) }
{
    match reply {
        Reply::Committed(number) => commits.push(CommitLine {
            number: *number,
            client,
            line,
        })?,
        Reply::Grouped(answers) => add_members(commits, client, line, answers.as_slice())?,
        _ => {}
    }
    Ok(())
}

// Adds the commits of a client.
fn add_commits(
    commits: &mut Vec<CommitLine>,
    client: u8,
    told: &[(u64, Reply)],
) -> Result<(), Memory>
    ensures { OnOk result (commits.new.items ≡ commits.old.items ++ flat_map (λ t. commit_by client t.0 t.1) told.now) }
{
    for (line, reply) in told {
        add_commit(commits, client, *line, reply)?;
    }
    Ok(())
}

// The commits of all clients, client by client.
fn all_commits(alloc: Global, parts: &[Part]) -> Result<Vec<CommitLine>, Memory>
    ensures { IfOk result (λ v. v.items ≡ flat_map commits_of parts.now) }
{
    let mut commits = Vec::new(alloc);
    for part in parts {
        add_commits(&mut commits, part.client, part.told.as_slice())?;
    }
    Ok(commits)
}

/// The commits of all clients, in rising number.
pub(crate) fn rising_commits(alloc: Global, parts: &[Part]) -> Result<Vec<CommitLine>, Memory>
    ensures { IfOk result (λ v. AreCommits parts.now v.items) }
{
    let mut commits = all_commits(alloc, parts)?;
    commits.sort_by_key(|commit| commit.number)?;
    Ok(commits)
}

fn push_bytes(out: &mut Vec<u8>, bytes: &[u8]) -> Result<(), Memory>
    ensures { OnOk result (out.new.items ≡ out.old.items ++ bytes.now) }
{
    Ok(out.extend_from_slice(bytes)?)
}

fn push_number(out: &mut Vec<u8>, number: u64) -> Result<(), Memory>
    ensures { OnOk result (out.new.items ≡ out.old.items ++ decimal number) }
{
    let mut buffer = Buffer::new();
    push_bytes(out, buffer.format(number).as_bytes())
}

/// Puts the line of a commit in the place of what the buffer holds.
pub(crate) fn print_commit(line: &mut Vec<u8>, commit: &CommitLine) -> Result<(), Memory>
    ensures { OnOk result (line.new.items ≡ commit_line commit.now) }
{
    line.clear();
    push_bytes(line, b"commit ")?;
    push_number(line, commit.number)?;
    push_bytes(line, b" by ")?;
    push_number(line, u64::from(commit.client))?;
    push_bytes(line, b" line ")?;
    push_number(line, commit.line)?;
    push_bytes(line, b"\n")
}
