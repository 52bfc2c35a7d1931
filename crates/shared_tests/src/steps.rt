// What two clients of a shared device do, step by step, and what each step is answered. A test has rows alone, since one that owns a device
// drops it at each of its exits, and each of these drops is proved.
ghost use Rattle.std.specs.Prelude.{◌≡◌, IfSome, None};
ghost use denote.Param.Send.{IsSync};
ghost use Rattle.iso_memdisk.specs.MemDisk.{state_of};
ghost use Rattle.iso_shared.specs.{Ports.{IsPort, port_view}, TestImage.MayStart};
ghost use Rattle.shared_tests.specs.{Clients.IsClient, Starts.IsNew};

use crate::clients::{Answer, Client, Told, begin, check, end, fetch, look, post, read, write};
use crate::groups::end_both;
use crate::turn_tests::same;
use iso_core::Core;
use iso_memdisk::{CallKind, MemDisk};
use iso_model::{CoreError, EndReply, Label, Mode};
use iso_shared::{Origin, Port, Shared};
use std::alloc::Global;
use std::marker::Brand;
use std::process::Abort;
use std::sync::Wait;
use std::thread::{Threads, join};
use test_cores::{blank, core_on, with_long_logs};

/// One thing that a client does.
#[derive(Clone, Copy)]
pub(crate) enum Step<'a> {
    /// Begins a transaction in this mode, or in the image's.
    Begin(Option<Mode>),
    /// Fetches a block, and makes no access.
    Fetch(u32),
    Read(u32),
    /// Writes the first byte of a block.
    Write(u32),
    /// How many more accesses there may be.
    Room,
    Mode,
    /// Compares the transaction with the commits so far.
    Check,
    /// Up to which commit it was compared.
    Checked,
    End,
    /// Puts the transaction under a label.
    Post(&'a [u8]),
    /// Takes the one under a label.
    Look(&'a [u8]),
    /// Begins so many transactions, and puts each under a label of its own.
    PostMany(u32),
    /// Makes so many commits in a block, and tells the last one.
    Commit(u32, u32),
    /// Ends the transactions of both clients as a group.
    EndBoth,
    Sweep,
    Trim,
    Compact,
    Upgrade,
    Stat,
    /// How many bytes of the log the records take.
    Used,
}

/// The number of a client, what it does, and what it is answered.
pub(crate) type Row<'a> = (u8, Step<'a>, Answer);

// What a call that answers a number comes to.
fn number_of(answer: Result<u64, CoreError>) -> Answer {
    match answer {
        Ok(number) => Ok(Told::Number(number)),
        Err(error) => Err(error),
    }
}

// A step without a transaction.
fn upkeep<O: Origin, R: Wait>(
    rt: &R,
    shared: &Shared<MemDisk, O>,
    port: &mut Port<MemDisk, O>,
    step: Step<'_>,
) -> Answer
    requires port { IsPort shared.now port.old }
    ensures port { IsPort shared.now port.new }
    ensures units { (port_view port.new).units ≡ (port_view port.old).units }
{
    match step {
        Step::Sweep => match shared.sweep(rt, port) {
            Some(number) => Ok(Told::Number(number)),
            None => Ok(Told::Nothing),
        },
        Step::Trim => number_of(shared.trim(rt, port)),
        Step::Compact => number_of(shared.compact(rt, port)),
        Step::Upgrade => number_of(shared.upgrade(rt, port)),
        Step::Stat => {
            let stat = shared.stat(rt, port);
            Ok(Told::Stat {
                last: stat.last,
                live: stat.live,
                down: stat.down,
            })
        }
        Step::Used => Ok(Told::Number(shared.stat(rt, port).used.into())),
        _ => Ok(Told::Nothing),
    }
}

// A step in a transaction.
fn step_in<O: Origin, R: Wait>(
    rt: &R,
    shared: &Shared<MemDisk, O>,
    client: &mut Client<O>,
    step: Step<'_>,
) -> Answer
    requires { IsClient shared.now O.start client.old.port client.old.tx }
    ensures { IsClient shared.now O.start client.new.port client.new.tx }
{
    match &mut client.tx {
        None => Ok(Told::Nothing),
        Some(tx) => match step {
            Step::Fetch(block) => fetch(rt, shared, tx, block),
            Step::Read(block) => read(rt, shared, tx, block),
            Step::Write(block) => write(shared, tx, block, 9),
            Step::Check => check(rt, shared, tx),
            Step::Room => Ok(Told::Number(tx.room().into())),
            Step::Mode => Ok(Told::In(tx.mode())),
            Step::Checked => Ok(Told::Number(tx.checked())),
            _ => Ok(Told::Nothing),
        },
    }
}

// Commits in a block. Each begins at the last one before it or later.
fn commits<O: Origin, R: Wait>(
    rt: &R,
    shared: &Shared<MemDisk, O>,
    client: &mut Client<O>,
    block: u32,
    times: u32,
) -> Answer
    requires { IsClient shared.now O.start client.old.port client.old.tx }
    ensures { IsClient shared.now O.start client.new.port client.new.tx }
{
    let mut last = 0;
    for _ in 0..times {
        let begun = begin(rt, shared, client, None);
        let written = step_in(rt, shared, client, Step::Write(block));
        let ended = end(rt, shared, client);
        match (begun, written, ended) {
            (Ok(Told::Number(at)), Ok(Told::Done), Ok(Told::Ended(EndReply::Committed(number))))
                if last <= at && at < number => last = number,
            (Ok(Told::Number(_)), Ok(Told::Done), Err(error)) => return Err(error),
            _ => return Ok(Told::Nothing),
        }
    }
    Ok(Told::Number(last))
}

// Transactions under labels of their own; how many there were.
fn post_many<O: Origin, R: Wait>(
    rt: &R,
    shared: &Shared<MemDisk, O>,
    client: &mut Client<O>,
    times: u32,
) -> Answer
    requires { IsClient shared.now O.start client.old.port client.old.tx }
    ensures { IsClient shared.now O.start client.new.port client.new.tx }
{
    for i in 0..times {
        let text = [
            b'a' + (i / 676 % 26) as u8,
            b'a' + (i / 26 % 26) as u8,
            b'a' + (i % 26) as u8,
        ];
        let begun = begin(rt, shared, client, None);
        let posted = post_as(rt, shared, client, &text);
        if begun.is_err() || posted != Ok(Told::Done) {
            return Ok(Told::Number(i.into()));
        }
    }
    Ok(Told::Number(times.into()))
}

// A post under the label of this text.
fn post_as<O: Origin, R: Wait>(
    rt: &R,
    shared: &Shared<MemDisk, O>,
    client: &mut Client<O>,
    text: &[u8],
) -> Answer
    requires { IsClient shared.now O.start client.old.port client.old.tx }
    ensures { IsClient shared.now O.start client.new.port client.new.tx }
{
    match Label::new(text) {
        Some(label) => post(rt, shared, client, label),
        None => Ok(Told::Nothing),
    }
}

// A look under the label of this text.
fn look_as<O: Origin, R: Wait>(
    rt: &R,
    shared: &Shared<MemDisk, O>,
    client: &mut Client<O>,
    text: &[u8],
) -> Answer
    requires { IsClient shared.now O.start client.old.port client.old.tx }
    ensures { IsClient shared.now O.start client.new.port client.new.tx }
{
    match Label::new(text) {
        Some(label) => look(rt, shared, client, &label),
        None => Ok(Told::Nothing),
    }
}

// A step of one client.
fn take_step<O: Origin, R: Wait>(
    rt: &R,
    shared: &Shared<MemDisk, O>,
    client: &mut Client<O>,
    step: Step<'_>,
) -> Answer
    requires { IsClient shared.now O.start client.old.port client.old.tx }
    ensures { IsClient shared.now O.start client.new.port client.new.tx }
{
    match step {
        Step::Begin(mode) => begin(rt, shared, client, mode),
        Step::End => end(rt, shared, client),
        Step::Post(text) => post_as(rt, shared, client, text),
        Step::Look(text) => look_as(rt, shared, client, text),
        Step::PostMany(times) => post_many(rt, shared, client, times),
        Step::Commit(block, times) => commits(rt, shared, client, block, times),
        Step::Sweep | Step::Trim | Step::Compact | Step::Upgrade | Step::Stat | Step::Used =>
            upkeep(rt, shared, &mut client.port, step),
        _ => step_in(rt, shared, client, step),
    }
}

// A step of one client, or of both.
fn act<O: Origin, R: Wait>(
    rt: &R,
    alloc: Global,
    shared: &Shared<MemDisk, O>,
    first: &mut Client<O>,
    second: &mut Client<O>,
    row: &Row<'_>,
) -> Answer
    requires first { IsClient shared.now O.start first.old.port first.old.tx }
    requires second { IsClient shared.now O.start second.old.port second.old.tx }
    ensures first { IsClient shared.now O.start first.new.port first.new.tx }
    ensures second { IsClient shared.now O.start second.new.port second.new.tx }
{
    match row.1 {
        Step::EndBoth => end_both(rt, alloc, shared, first, second),
        one => {
            if row.0 == 1 {
                take_step(rt, shared, first, one)
            } else {
                take_step(rt, shared, second, one)
            }
        }
    }
}

// Compares what a step comes to.
fn compare(rt: &impl Abort, number: usize, row: &Row<'_>, found: Answer) {
    same(rt, (number, found), (number, row.2));
}

// Does the steps of two clients in their order.
fn play<O: Origin, R: Wait + Abort>(
    rt: &R,
    alloc: Global,
    shared: &Shared<MemDisk, O>,
    first: &mut Client<O>,
    second: &mut Client<O>,
    rows: &[Row<'_>],
)
    requires first { IsClient shared.now O.start first.old.port first.old.tx }
    requires second { IsClient shared.now O.start second.old.port second.old.tx }
    ensures first { IsClient shared.now O.start first.new.port first.new.tx }
    ensures second { IsClient shared.now O.start second.new.port second.new.tx }
{
    for (number, row) in rows.iter().enumerate() {
        let found = act(rt, alloc, shared, first, second, row);
        compare(rt, number, row, found);
    }
}

// Aborts what a client has begun, and gives its port back.
fn leave<O: Origin, R: Wait>(
    rt: &R,
    shared: &Shared<MemDisk, O>,
    client: Client<O>,
) -> Port<MemDisk, O>
    requires { IsClient shared.now O.start client.port client.tx }
    ensures { IsClient shared.now O.start result None }
{
    let Client { mut port, tx } = client;
    if let Some(tx) = tx {
        shared.abort(rt, &mut port, tx);
    }
    port
}

// The commits of one thread.
fn commits_by<O: Origin, R: Wait>(
    rt: &R,
    shared: &Shared<MemDisk, O>,
    port: Port<MemDisk, O>,
    block: u32,
    times: u32,
) -> (Port<MemDisk, O>, Answer)
    requires { IsClient shared.now O.start port None }
    ensures { IsClient shared.now O.start result.0 None }
{
    let mut client = Client { port, tx: None };
    let told = commits(rt, shared, &mut client, block, times);
    (leave(rt, shared, client), told)
}

// The commits of two threads beside each other, in blocks of their own; done where those of each are in order.
fn commits_beside<O: Origin + Send + Sync, R: Threads + Wait + Sync>(
    rt: &R,
    shared: &Shared<MemDisk, O>,
    first: Port<MemDisk, O>,
    second: Port<MemDisk, O>,
    times: u32,
) -> (Port<MemDisk, O>, Port<MemDisk, O>, Answer)
    requires first { IsClient shared.now O.start first None }
    requires second { IsClient shared.now O.start second None }
    ensures first { IsClient shared.now O.start result.0 None }
    ensures second { IsClient shared.now O.start result.1 None }
{
    let ((first, left), (second, right)) = join(
        rt,
        || -> (Port<MemDisk, O>, Answer)
            requires { IsSync R.row × IsClient shared.now O.start first None }
            ensures { IsClient shared.entry.now O.start result.0 None }
        { commits_by(rt, shared, first, 0, times) },
        || -> (Port<MemDisk, O>, Answer)
            requires { IsSync R.row × IsClient shared.now O.start second None }
            ensures { IsClient shared.entry.now O.start result.0 None }
        { commits_by(rt, shared, second, 1, times) },
    );
    (first, second, both_of(left, right))
}

// Whether both made all their commits.
fn both_of(left: Answer, right: Answer) -> Answer {
    match (left, right) {
        (Ok(Told::Number(_)), Ok(Told::Number(_))) => Ok(Told::Done),
        _ => Ok(Told::Nothing),
    }
}

// The commits of two threads on a device over a core, and then the steps of two clients.
fn play_over<O: Origin + Send + Sync, R: Threads + Wait + Abort + Sync>(
    rt: &R,
    alloc: Global,
    core: Core<MemDisk>,
    times: u32,
    rows: &[Row<'_>],
)
    requires start { MayStart state_of O.start O.disk core }
{
    match Shared::<MemDisk, O>::new(alloc, core) {
        Err(_) => panic!(rt; "memory"),
        Ok((shared, mut port)) => {
            let other = shared.port(&mut port, 1 << 32);
            let (port, other, told) = commits_beside(rt, &shared, port, other, times);
            same(rt, told, Ok(Told::Done));
            let mut first = Client { port, tx: None };
            let mut second = Client {
                port: other,
                tx: None,
            };
            play(rt, alloc, &shared, &mut first, &mut second, rows);
            let _ = leave(rt, &shared, first);
            let _ = leave(rt, &shared, second);
        }
    }
}

// A core over a new image, on a disk of which the call of this kind with this number fails alone.
fn core_failing(alloc: Global, kind: CallKind, number: u64) -> Option<Core<MemDisk>>
    ensures { IfSome result IsNew }
{
    let geometry = with_long_logs();
    let mut disk = blank(alloc, &geometry).ok()?;
    disk.fail_kind(kind, number);
    match core_on(alloc, disk, &geometry) {
        Ok(core) => Some(core),
        Err(_) => None,
    }
}

/// The steps of two clients of a new device, and what each is answered. Before them two threads make so many commits each. The disk's call
/// of this kind with this number fails alone.
pub(crate) fn played<R: Threads + Wait + Abort + Sync>(
    rt: &R,
    alloc: Global,
    fault: (CallKind, u64),
    times: u32,
    rows: &[Row<'_>],
) {
    let core = core_failing(alloc, fault.0, fault.1).expect(rt, "a core");
    play_over::<Brand, R>(rt, alloc, core, times, rows);
}
