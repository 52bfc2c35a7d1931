// What came of a run, in numbers.

use crate::account::{Members, Report};

/// What a run has told: how many transfers of its own each thread committed, how many members the group had that the one gave to the
/// other, how many of those transfers were committed in the group or, after a clash there, once the one had learned of it, and whether
/// the commits of a new image are those that were told of, with the opening and the transfer by two halves.
#[derive(Clone, Copy)]
pub(crate) struct Told {
    pub(crate) first: u32,
    pub(crate) second: u32,
    pub(crate) members: u32,
    pub(crate) made: u32,
    pub(crate) whole: bool,
}

impl Told {
    /// Of a run on an image that was new, and whose last commit is this one now.
    pub(crate) fn of(report: &Report, last: u64) -> Told {
        let Members {
            ended,
            committed,
            again,
        } = members_of(report);
        Told {
            first: report.first,
            second: report.second,
            members: ended,
            made: committed.saturating_add(again),
            whole: report.opened == Ok(1) && commits_in(report) == last,
        }
    }
}

// What was learned of the members; nothing where the group was refused.
fn members_of(report: &Report) -> Members {
    match &report.group {
        Ok(members) => *members,
        Err(_) => Members {
            ended: 0,
            committed: 0,
            again: 0,
        },
    }
}

// How many commits were told of.
fn commits_in(report: &Report) -> u64 {
    let members = members_of(report);
    one_for(report.opened.is_ok())
        .saturating_add(report.first as u64)
        .saturating_add(report.second as u64)
        .saturating_add(one_for(report.halved.is_ok()))
        .saturating_add(members.committed as u64)
        .saturating_add(members.again as u64)
}

fn one_for(told: bool) -> u64 {
    if told { 1 } else { 0 }
}
