//! Runs of two small clients beside each other: what no clause says.

use crate::same::same;
use par_runner::{Client, Flow, Gate, Job, run_all};
use script_model::{Line, Op};
use std::alloc::Global;
use std::process::Abort;
use std::sync::Wait;
use std::sync::atomic::{AtomicU64, Ordering};
use std::test::Fail;
use std::thread::Threads;

// It keeps the number of each line that it was given as one more digit, and so how often the gate was called for it before that. It halts
// at an `abort`.
#[derive(Drop)]
struct Digits<'a> {
    calls: &'a AtomicU64,
    digits: u64,
    seen: u64,
}

impl<'a> Client for Digits<'a> {
    ghost fits = { λ _. Unit {0} };

    ghost steps = { λ _ _ _ _ _. Unit {0} };

    fn step<R: Wait>(&mut self, _rt: &R, number: u64, line: &Line) -> Flow {
        let calls = self.calls.load(Ordering::SeqCst);
        self.digits = self.digits.wrapping_mul(10).wrapping_add(number);
        self.seen = self.seen.wrapping_mul(10).wrapping_add(calls);
        match line.op {
            Op::Abort => Flow::Halt,
            _ => Flow::Go,
        }
    }
}

// It counts the calls for each of two clients, and adds up what it is told; the products show that each number came with its own client.
// Before its first line each client waits until the other one comes.
#[derive(Drop)]
struct Sums {
    one: u8,
    first: AtomicU64,
    second: AtomicU64,
    met: AtomicU64,
    clients: AtomicU64,
    numbers: AtomicU64,
    products: AtomicU64,
}

fn add(to: &AtomicU64, number: u64) {
    let _ = to.fetch_add(number, Ordering::SeqCst);
}

// Waits for the first call for another client, and counts it as met.
fn meet(other: &AtomicU64, met: &AtomicU64) {
    for _ in 0..1_000_000_000 {
        if other.load(Ordering::SeqCst) > 0 {
            add(met, 1);
            return;
        }
    }
}

impl Gate for Sums {
    fn before(&self, client: u8, number: u64) {
        let id = u64::from(client);
        add(&self.clients, id);
        add(&self.numbers, number);
        add(&self.products, id.wrapping_mul(number));
        let (own, other) = if client == self.one {
            (&self.first, &self.second)
        } else {
            (&self.second, &self.first)
        };
        if own.fetch_add(1, Ordering::SeqCst) == 0 {
            meet(other, &self.met);
        }
    }
}

// A client's number, the numbers of its lines, and that of the line that is an `abort`.
type Script = (u8, [u64; 3], u64);

// A client's number, how many lines it has done, the digits of their numbers, and how often the gate was called before each.
type Ran = [u64; 4];

// How many calls the gate had in all, how many clients met there, and the three sums.
type Gated = [u64; 5];

fn job<'a, R: Abort>(
    rt: &R,
    alloc: Global,
    calls: &'a AtomicU64,
    script: &Script,
) -> Job<Digits<'a>> {
    let (id, numbers, halts_at) = *script;
    let mut lines = Vec::new(alloc);
    for number in numbers {
        let op = if number == halts_at {
            Op::Abort
        } else {
            Op::Stat
        };
        lines
            .push((number, Line { client: id, op }))
            .expect(rt, "memory");
    }
    Job {
        client: Digits {
            calls,
            digits: 0,
            seen: 0,
        },
        id,
        lines,
        done: 0,
    }
}

// Two jobs.
fn both<C: Drop, R: Abort>(rt: &R, alloc: Global, first: Job<C>, second: Job<C>) -> Vec<Job<C>> {
    let mut jobs = Vec::new(alloc);
    jobs.push(first).expect(rt, "memory");
    jobs.push(second).expect(rt, "memory");
    jobs
}

fn ran(job: Option<&Job<Digits<'_>>>) -> Ran {
    match job {
        Some(job) => [
            job.id.into(),
            job.done as u64,
            job.client.digits,
            job.client.seen,
        ],
        None => [0; 4],
    }
}

fn new_gate(one: u8) -> Sums {
    Sums {
        one,
        first: AtomicU64::new(0),
        second: AtomicU64::new(0),
        met: AtomicU64::new(0),
        clients: AtomicU64::new(0),
        numbers: AtomicU64::new(0),
        products: AtomicU64::new(0),
    }
}

fn count(of: &AtomicU64) -> u64 {
    of.load(Ordering::SeqCst)
}

fn gated(gate: &Sums) -> Gated {
    [
        count(&gate.first).wrapping_add(count(&gate.second)),
        count(&gate.met),
        count(&gate.clients),
        count(&gate.numbers),
        count(&gate.products),
    ]
}

// What becomes of two scripts that run beside each other.
fn run_both<R: Threads + Wait + Abort + Sync>(
    rt: &R,
    alloc: Global,
    scripts: &[Script; 2],
) -> (Ran, Ran, Gated) {
    let gate = new_gate(scripts[0].0);
    let first = job(rt, alloc, &gate.first, &scripts[0]);
    let second = job(rt, alloc, &gate.second, &scripts[1]);
    let mut jobs = both(rt, alloc, first, second);
    run_all(rt, jobs.as_mut_slice(), &gate);
    (ran(jobs.get(0)), ran(jobs.get(1)), gated(&gate))
}

// Clients that run beside each other meet at their first lines. A halt ends its job alone. The gate is told each line that runs and its
// client, once before it.
#[test]
fn clients_run_beside_each_other(rt: HostRuntime) -> Result<(), Fail> {
    let rows: [([Script; 2], (Ran, Ran, Gated)); 4] = [
        (
            [(1, [1, 2, 3], 0), (2, [1, 2, 3], 0)],
            ([1, 3, 123, 123], [2, 3, 123, 123], [6, 2, 9, 12, 18]),
        ),
        (
            [(1, [1, 2, 3], 0), (2, [1, 2, 3], 2)],
            ([1, 3, 123, 123], [2, 2, 12, 12], [5, 2, 7, 9, 12]),
        ),
        // the lines 1, 4, 9 of client 2, and of client 7 the lines 2 and 3
        (
            [(2, [1, 4, 9], 0), (7, [2, 3, 8], 3)],
            ([2, 3, 149, 123], [7, 2, 23, 12], [5, 2, 20, 19, 63]),
        ),
        (
            [(1, [1, 2, 3], 0), (2, [4, 5, 6], 0)],
            ([1, 3, 123, 123], [2, 3, 456, 123], [6, 2, 9, 21, 36]),
        ),
    ];
    for (number, (scripts, wanted)) in rows.iter().enumerate() {
        let found = run_both(&rt, rt.alloc(), scripts);
        same(&rt, (number, found), (number, *wanted));
    }
    Ok(())
}
