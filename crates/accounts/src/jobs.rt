// Two jobs in two threads.
ghost use denote.Param.Send.{IsSend, IsSync};

use std::sync::Wait;
use std::thread::{Threads, join_mut};

/// What one thread does.
pub(crate) trait Job: Send {
    /// What it answers.
    type Answer: Send;

    /// It may be run.
    ghost fits: { Self → Type 0 };

    /// The job before it has run and after it, and its answer.
    ghost does: { (before now : Self) → Self.Answer → Type 0 };

    /// Runs it.
    fn run<R: Wait>(&mut self, rt: &R) -> Self::Answer
        requires { fits self.old }
        ensures { does self.old self.new result };
}

/// Runs two jobs, each in a thread.
pub(crate) fn run_both<A: Job, B: Job, R: Threads + Wait + Sync>(
    rt: &R,
    first: &mut A,
    second: &mut B,
) -> (A::Answer, B::Answer)
    requires first { A.fits first.old }
    requires second { B.fits second.old }
    ensures first { A.does first.old first.new result.0 }
    ensures second { B.does second.old second.new result.1 }
{
    join_mut(
        rt,
        &mut || -> A::Answer
            requires { IsSync R.row × IsSend A.row × A.fits first.now }
            ensures { A.does first.entry.now first.exit.now result }
        { first.run(rt) },
        &mut || -> B::Answer
            requires { IsSync R.row × IsSend B.row × B.fits second.now }
            ensures { B.does second.entry.now second.exit.now result }
        { second.run(rt) },
    )
}
