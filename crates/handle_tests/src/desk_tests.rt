//! Clients of desks, and those who serve them, in threads. A desk that forgets a client, or that leaves its server's seat to nobody,
//! stands still here.
ghost use Rattle.std.specs.Prelude.{◌≡◌, ◌+◌, ◌<◌};
ghost use denote.Param.Send.{IsSync};
ghost use Rattle.committer.specs.Sides.{IsClient, Rests};

use committer::{Client, Desk, Protocol};
use std::alloc::Global;
use std::process::Abort;
use std::sync::Wait;
use std::sync::atomic::{AtomicU64, Ordering};
use std::test::Fail;
use std::thread::{self, Threads, join};
use std::time::{Clock, Duration};

const CLIENTS: usize = 64;

const REQUESTS: u64 = 200;

// A number is answered by the next one.
struct Counts;

impl Protocol for Counts {
    type Request = u64;

    type Response = u64;

    ghost allows = { λ n. n < 1000 };

    ghost answers = { λ n m. m ≡ n + 1 };
}

// Puts `REQUESTS` numbers, one after the other, and counts those that were answered by the next one.
fn talk<R: Wait>(rt: &R, desk: &Desk<Counts>, client: Client<Counts>) -> (Client<Counts>, u64)
    requires { IsClient desk.now client × Rests client }
    ensures { IsClient desk.now result.0 × Rests result.0 }
{
    let mut client = client;
    let mut right: u64 = 0;
    for number in 0..REQUESTS {
        desk.request(&mut client, number);
        if desk.response(rt, &mut client) == number + 1 {
            right = right.saturating_add(1);
        }
    }
    (client, right)
}

// Answers what comes until all was answered.
fn serve<R: Wait + Clock>(rt: &R, desk: &Desk<Counts>, answered: &AtomicU64) {
    for _ in rt.forever() {
        if answered.load(Ordering::SeqCst) >= REQUESTS {
            return;
        }
        match desk.accept() {
            Some((job, number)) => {
                desk.respond(job, number + 1);
                answered.fetch_add(1, Ordering::SeqCst);
            }
            None => thread::sleep(rt, Duration::from_micros(5)),
        }
    }
}

// Two threads that serve one desk.
fn serve_both<R: Threads + Wait + Clock + Sync>(rt: &R, desk: &Desk<Counts>, answered: &AtomicU64) {
    join(
        rt,
        ||
            requires { IsSync R.row }
        { serve(rt, desk, answered) },
        ||
            requires { IsSync R.row }
        { serve(rt, desk, answered) },
    );
}

// A client, and two threads that serve it. Answers how many responses were right.
fn one_desk<R: Threads + Wait + Abort + Clock + Sync>(rt: &R, alloc: Global) -> u64 {
    let (desk, client) = match Desk::new(alloc) {
        Ok(made) => made,
        Err(_) => panic!(rt; "memory"),
    };
    let answered = AtomicU64::new(0);
    let ((client, right), _) = join(
        rt,
        || -> (Client<Counts>, u64)
            requires { IsSync R.row × IsClient desk client × Rests client }
            ensures { IsClient desk result.0 × Rests result.0 }
        { talk(rt, &desk, client) },
        ||
            requires { IsSync R.row }
        { serve_both(rt, &desk, &answered) },
    );
    desk.close(client);
    right
}

#[test]
fn sixty_four_clients_are_answered(rt: HostRuntime) -> Result<(), Fail> {
    let alloc = rt.alloc();
    let mut right: [u64; CLIENTS] = [0; CLIENTS];
    thread::for_each_mut(
        &rt,
        &mut right,
        CLIENTS,
        &|_, slot: &mut u64| { *slot = one_desk(&rt, alloc) },
    );
    for count in &right {
        assert!(rt; *count == REQUESTS);
    }
    Ok(())
}
