// Jobs in threads.
ghost use Rattle.std.specs.Prelude.{ℕ, ◌<◌, All, length, slice_index_or};
ghost use denote.Param.Send.{IsSync, IsSend};
ghost use Rattle.par_runner.specs.Runs.{Ran, JobRan};

use crate::job::{Client, Flow, Gate, Job};
use script_model::Line;
use std::sync::Wait;
use std::thread;
use std::thread::Threads;

// Runs lines in order, until a step halts, and counts the steps.
fn run_lines<C: Client, G: Gate, R: Wait>(
    rt: &R,
    client: &mut C,
    id: u8,
    lines: &[(u64, Line)],
    gate: &G,
) -> u64
    requires { C.fits client.old }
    ensures fits { C.fits client.new }
    ensures ran { Ran C.steps client.old lines.now result client.new }
{
    let mut done = 0;
    for (number, line) in lines {
        gate.before(id, *number);
        let flow = client.step(rt, *number, line);
        done += 1;
        match flow {
            Flow::Go => {}
            Flow::Halt => return done,
        }
    }
    done
}

fn run_job<C: Client, G: Gate, R: Wait>(rt: &R, job: &mut Job<C>, gate: &G)
    requires { C.fits job.old.client }
    ensures fits { C.fits job.new.client }
    ensures ran { JobRan C.steps job.old job.new }
{
    job.done = run_lines(rt, &mut job.client, job.id, job.lines.as_slice(), gate);
}

/// Runs the lines of each job in order until a step halts, in as many threads as there are jobs, or one job after another
/// where no thread can be made. The gate is called before each step. It takes no memory.
pub fn run_all<C: Client, G: Gate, R: Threads + Wait + Sync>(rt: &R, jobs: &mut [Job<C>], gate: &G)
    requires { All (λ j. C.fits j.client) jobs.old }
    ensures fits { All (λ j. C.fits j.client) jobs.new }
    ensures ran { (i : ℕ) (d : Job C) → i < length jobs.old → JobRan C.steps (slice_index_or jobs.old i d) (slice_index_or jobs.new i d) }
{
    if jobs.is_empty() {
        return;
    }
    let threads = jobs.len();
    let each = |_: usize, job: &mut Job<C>|
        requires { IsSync G.row × IsSend C.row × C.fits job.old.client }
        ensures { C.fits job.new.client × JobRan C.steps job.old job.new }
    { run_job(rt, job, gate) };
    thread::for_each_mut(rt, jobs, threads, &each);
}
