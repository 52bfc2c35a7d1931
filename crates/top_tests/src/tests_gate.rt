// The gate that `isotope` is handed: it is called once before each line of a client that runs, with the client and the number of the
// line, and for nothing else.
use crate::asked::{gave, same};
use iso_memdisk::CallKind;
use par_runner::Gate;
use std::alloc::Global;
use std::process::Abort;
use std::sync::Wait;
use std::sync::atomic::{AtomicBool, AtomicU64, Ordering};
use std::test::Fail;
use std::thread::{Threads, yield_now};
use top_calls::{Fault, PAR, faulty, gated, small_image, source_of, whole_sink};

/// It adds up what it is told; the products show that each number came with its own client.
#[derive(Drop)]
struct Sums {
    calls: AtomicU64,
    clients: AtomicU64,
    numbers: AtomicU64,
    products: AtomicU64,
}

impl Sums {
    fn new() -> Self {
        Sums {
            calls: AtomicU64::new(0),
            clients: AtomicU64::new(0),
            numbers: AtomicU64::new(0),
            products: AtomicU64::new(0),
        }
    }

    /// The calls, and the sums of clients, numbers and products.
    fn told(&self) -> [u64; 4] {
        [
            self.calls.load(Ordering::SeqCst),
            self.clients.load(Ordering::SeqCst),
            self.numbers.load(Ordering::SeqCst),
            self.products.load(Ordering::SeqCst),
        ]
    }
}

impl Gate for Sums {
    fn before(&self, client: u8, number: u64) {
        let client = u64::from(client);
        let _ = self.calls.fetch_add(1, Ordering::SeqCst);
        let _ = self.clients.fetch_add(client, Ordering::SeqCst);
        let _ = self.numbers.fetch_add(number, Ordering::SeqCst);
        let _ = self
            .products
            .fetch_add(client.wrapping_mul(number), Ordering::SeqCst);
    }
}

/// That the clients of a script at a gate end so, on a small image whose disk fails so.
fn ends_gated<G: Gate, R: Abort + Threads + Wait + Sync>(
    rt: &R,
    alloc: Global,
    fault: Fault,
    script: &[u8],
    gate: &G,
    ended: (u8, &[u8]),
) -> Result<(), Fail> {
    let disk = faulty(alloc, &small_image(alloc)?, fault)?;
    let mut source = source_of(alloc, script)?;
    let sink = whole_sink(alloc);
    let (status, output, _disk) = gated(rt, alloc, PAR, disk, &mut source, sink, gate)?;
    gave(rt, (status, &output), ended.0, ended.1);
    Ok(())
}

/// That such clients end so, and a gate is called so often, and told these sums.
fn told_sums<R: Abort + Threads + Wait + Sync>(
    rt: &R,
    alloc: Global,
    fault: Fault,
    script: &[u8],
    ended: (u8, &[u8]),
    sums: [u64; 4],
) -> Result<(), Fail> {
    let gate = Sums::new();
    ends_gated(rt, alloc, fault, script, &gate, ended)?;
    same(rt, gate.told(), sums);
    Ok(())
}

#[test]
fn a_gate_is_called_once_for_each_line(rt: HostRuntime) -> Result<(), Fail> {
    // the lines 2, 3 and 6 of client 1, and the line 5 of client 9
    let script = b"# a comment\n1 begin\n1 put 0 0 aa\n\n9 mark 0 1\n1 end\n";
    let replies =
        b"1 ok begin 0\n1 ok\n1 ok commit 1\n9 not-in-tx\ncommit 1 by 1 line 6\n".as_slice();
    told_sums(
        &rt,
        rt.alloc(),
        Fault::Never,
        script,
        (0, replies),
        [4, 12, 16, 56],
    )
}

#[test]
fn a_gate_is_not_called_behind_a_client_that_stopped(rt: HostRuntime) -> Result<(), Fail> {
    let fault = Fault::OfKind(CallKind::Write, 1);
    // client 1 stops at line 3, and so line 4 is not run
    let script = b"1 begin\n1 put 0 0 aa\n1 end\n1 begin\n2 mark 0 1\n";
    let said = b"1 ok begin 0\n1 ok\n2 not-in-tx\n! disk fault\n".as_slice();
    told_sums(&rt, rt.alloc(), fault, script, (5, said), [4, 5, 11, 16])
}

#[test]
fn a_gate_is_not_called_where_no_line_runs(rt: HostRuntime) -> Result<(), Fail> {
    let said = b"! bad line 2 cause 2\n".as_slice();
    told_sums(
        &rt,
        rt.alloc(),
        Fault::Never,
        b"1 begin\n1 jump\n",
        (3, said),
        [0; 4],
    )
}

/// Client 1 does not begin before client 2 is at its first line, and client 2 stays there until client 1 has committed.
#[derive(Drop)]
struct Held {
    second_came: AtomicBool,
    first_ended: AtomicBool,
}

/// Waits for another client, not for ever.
fn await_flag(flag: &AtomicBool) {
    for _ in 0..10_000_000 {
        if flag.load(Ordering::SeqCst) {
            return;
        }
        yield_now();
    }
}

impl Gate for Held {
    fn before(&self, _client: u8, number: u64) {
        match number {
            1 => await_flag(&self.second_came),
            // after the `end` of line 3
            4 => self.first_ended.store(true, Ordering::SeqCst),
            5 => {
                self.second_came.store(true, Ordering::SeqCst);
                await_flag(&self.first_ended);
            }
            _ => {}
        }
    }
}

#[test]
fn a_gate_holds_its_line_back(rt: HostRuntime) -> Result<(), Fail> {
    let gate = Held {
        second_came: AtomicBool::new(false),
        first_ended: AtomicBool::new(false),
    };
    let script = b"1 begin\n1 put 0 0 aa\n1 end\n1 begin\n2 begin\n2 get 0 0 1\n2 end\n";
    let replies =
        b"1 ok begin 0\n1 ok\n1 ok commit 1\n1 ok begin 1\n2 ok begin 1\n2 ok aa\n2 ok read-only\ncommit 1 by 1 line 3\n".as_slice();
    ends_gated(&rt, rt.alloc(), Fault::Never, script, &gate, (0, replies))
}
