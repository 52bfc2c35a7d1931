//! Runs of the lock by threads beside each other, over a plain list. A lock in which somebody sleeps whom nobody wakes hangs here: who fell asleep
//! at a gate that was opened after its last look, who came too late and sleeps again, or those who still sleep when one has passed.
ghost use Rattle.std.specs.Prelude.{◌≡◌, ◌+◌, ◌<◌, ◌≤◌, ◌++◌, [], ◌∷◌, None};
ghost use Rattle.turn_lock.specs.{Lock.{lock_id, turn_value}, Pass.{view, IsSamePass, HasNoTurn, HasTurn}};
ghost use mathlib.Core.List.{IsPrefix};
ghost use denote.Param.Send.{IsSync};

use iso_model::Memory;
use std::alloc::Global;
use std::fmt::Debug;
use std::marker::Brand;
use std::process::Abort;
use std::sync::Wait;
use std::test::Fail;
use std::thread::{self, Threads, join};
use std::time::{Clock, CpuClock, Duration, Instant};
use turn_lock::{LAST, Names, Pass, Stands, Turn, TurnLock};

/// Two values that are to be the same. Each test that compared them itself would prove what is printed where they differ.
pub(crate) fn same<T: PartialEq + Debug + Drop>(rt: &impl Abort, found: T, wanted: T) {
    assert_eq!(rt; found, wanted);
}

/// What a turn adds to a log: how many entries were in it.
#[derive(Clone, Copy)]
struct Entry {
    number: u64,
}

/// It represents the list that it has.
#[derive(Drop)]
struct Log {
    owner: u64,
    entries: Vec<Entry>,
}

impl Stands for Log {
    type Entry = Entry;

    ghost stands = { λ log list. log.entries.items ≡ list };

    ghost hands = { λ _. None };

    ghost needs = { λ _. [] };

    ghost takes = { λ _. [] };
}

impl Names<Entry> for Brand {
    ghost entry = { record { number = 0 } };
}

// Gives the turn back with this entry.
fn give<N: Names<Entry>>(lock: &TurnLock<Log>, pass: &mut Pass<Log>, turn: Turn<Log>, entry: Entry)
    requires named { N.entry ≡ entry }
    requires lock { (pass.old.table_id ≡ lock_id lock.now) × HasTurn pass.old turn }
    requires value { (turn_value turn).entries.items ≡ (view pass.old).seen ++ entry ∷ [] }
    ensures rests { IsSamePass pass.old pass.new × HasNoTurn pass.new × ((view pass.new).units ≡ (view pass.old).units) }
    ensures seen { (view pass.new).seen ≡ (view pass.old).seen ++ entry ∷ [] }
{
    let _ = entry;
    lock.give::<N>(pass, turn);
}

// Writes the number of entries after them, and gives the turn back.
fn add<R: Abort>(rt: &R, lock: &TurnLock<Log>, pass: &mut Pass<Log>, turn: Turn<Log>)
    requires lock { (pass.old.table_id ≡ lock_id lock.now) × HasTurn pass.old turn }
    requires value { (turn_value turn).entries.items ≡ (view pass.old).seen }
    ensures rests { IsSamePass pass.old pass.new × HasNoTurn pass.new × ((view pass.new).units ≡ (view pass.old).units) }
    ensures seen { IsPrefix (view pass.old).seen (view pass.new).seen }
{
    let mut turn = turn;
    let log = turn.value();
    let entry = Entry {
        number: log.entries.len() as u64,
    };
    log.entries.push(entry).expect(rt, "memory");
    give::<Brand>(lock, pass, turn, entry);
}

/// What threads beside each other do. All times are in microseconds.
#[derive(Clone, Copy)]
struct Run {
    threads: u64,
    /// The turns of each thread.
    turns: u64,
    /// How long each turn keeps its processor, and below how much longer the later ones.
    busy: u64,
    longer: u64,
    /// How long the first turn of the first thread does.
    first: u64,
    /// How long each turn sleeps.
    asleep: u64,
    /// Below which time each pause behind a turn is. With these, looks at the gate come at nearly the same moment.
    pause: u64,
    /// How much later than the thread before it each thread begins.
    late: u64,
    /// Below which processor time each thread stays.
    most: u64,
}

// Two threads with turns of no length. There are enough of them to stop a lock in which a thread falls asleep at a gate that was opened
// after its last look.
const SHORT: Run = Run {
    threads: 2,
    turns: 100_000,
    busy: 0,
    longer: 1,
    first: 0,
    asleep: 0,
    pause: 1,
    late: 0,
    most: u64::MAX,
};

// Keeps its processor for so long.
fn be_busy<R: Abort + Clock>(rt: &R, time: Duration) {
    let start = Instant::now(rt).expect(rt, "a clock");
    for _ in 0..1_000_000 {
        if start.elapsed(rt).expect(rt, "a clock") >= time {
            return;
        }
    }
}

// Sleeps for so many microseconds, and makes no call where there are none.
fn sleep<R: Clock>(rt: &R, micros: u64) {
    if micros > 0 {
        thread::sleep(rt, Duration::from_micros(micros));
    }
}

// What a turn does while it lasts.
fn last<R: Abort + Clock>(rt: &R, run: &Run, is_first: bool, turn: u64) {
    let more = turn.checked_rem(run.longer).unwrap_or(0);
    let busy = if is_first {
        run.first
    } else {
        run.busy.saturating_add(more)
    };
    if busy > 0 {
        be_busy(rt, Duration::from_micros(busy));
    }
    sleep(rt, run.asleep);
}

// The pause behind a turn.
fn pause<R: Clock>(rt: &R, run: &Run, turn: u64) {
    sleep(
        rt,
        turn.wrapping_mul(193).checked_rem(run.pause).unwrap_or(0),
    );
}

// The turns of the thread of this number, from 0.
fn turned<R: Wait + Abort + Clock>(
    rt: &R,
    lock: &TurnLock<Log>,
    pass: Pass<Log>,
    number: u64,
    run: &Run,
) -> Pass<Log>
    requires { (pass.table_id ≡ lock_id lock.now) × HasNoTurn pass × (0 < (view pass).units) }
    ensures { (result.table_id ≡ lock_id lock.now) × HasNoTurn result × ((view result).units ≡ (view pass).units) }
{
    let mut pass = pass;
    for turn in 0..run.turns {
        let taken = lock.take(rt, &mut pass);
        last(rt, run, number == 0 && turn == 0, turn);
        add(rt, lock, &mut pass, taken);
        pause(rt, run, turn);
    }
    pass
}

// The same. The thread begins when its time has come, and may take no more processor time than it has.
fn timed<R: Wait + Abort + Clock + CpuClock>(
    rt: &R,
    lock: &TurnLock<Log>,
    pass: Pass<Log>,
    number: u64,
    run: &Run,
) -> Pass<Log>
    requires { (pass.table_id ≡ lock_id lock.now) × HasNoTurn pass × (0 < (view pass).units) }
    ensures { (result.table_id ≡ lock_id lock.now) × HasNoTurn result × ((view result).units ≡ (view pass).units) }
{
    sleep(rt, run.late.wrapping_mul(number));
    let before = rt.thread_cpu_time().expect(rt, "a clock");
    let pass = turned(rt, lock, pass, number, run);
    let after = rt.thread_cpu_time().expect(rt, "a clock");
    assert!(rt; after.saturating_sub(before) < Duration::from_micros(run.most));
    pass
}

// So many threads, of which the first has this number: two at once, each of half of them.
fn crowd<R: Threads + Wait + Abort + Sync + Clock + CpuClock>(
    rt: &R,
    lock: &TurnLock<Log>,
    pass: Pass<Log>,
    number: u64,
    threads: u64,
    run: &Run,
) -> Pass<Log>
    requires pass { (pass.table_id ≡ lock_id lock.now) × HasNoTurn pass × (threads ≤ (view pass).units) }
    requires some { 0 < threads }
    ensures { (result.table_id ≡ lock_id lock.now) × HasNoTurn result × ((view result).units ≡ (view pass).units) }
{
    if threads == 1 {
        return timed(rt, lock, pass, number, run);
    }
    let half = threads / 2;
    let rest = threads - half;
    let later = number.wrapping_add(rest);
    let mut first = pass;
    let second = lock.split(&mut first, None, half);
    let (mut left, right) = join(
        rt,
        || -> Pass<Log>
            requires { IsSync R.row × (first.table_id ≡ lock_id lock.now) × HasNoTurn first × (rest ≤ (view first).units) × (0 < rest) }
            ensures { (result.table_id ≡ lock_id lock.entry.now) × HasNoTurn result × ((view result).units ≡ (view first).units) }
        { crowd(rt, lock, first, number, rest, run) },
        || -> Pass<Log>
            requires { IsSync R.row × (second.table_id ≡ lock_id lock.now) × HasNoTurn second × (half ≤ (view second).units) × (0 < half) }
            ensures { (result.table_id ≡ lock_id lock.entry.now) × HasNoTurn result × ((view result).units ≡ (view second).units) }
        { crowd(rt, lock, second, later, half, run) },
    );
    lock.join(&mut left, right);
    left
}

// A lock over an empty log, and its first pass.
fn made(rt: &impl Abort, alloc: Global) -> (TurnLock<Log>, Pass<Log>)
    ensures { (result.1.table_id ≡ lock_id result.0) × HasNoTurn result.1 × ((view result.1).units ≡ LAST) }
{
    let log = Log {
        owner: 7,
        entries: Vec::new(alloc),
    };
    match TurnLock::new(alloc, log) {
        Ok(made) => made,
        Err(_) => panic!(rt; "memory"),
    }
}

// Passes on by a note what the teller has seen.
fn tell(lock: &TurnLock<Log>, teller: &mut Pass<Log>, listener: &mut Pass<Log>)
    requires teller { (teller.old.table_id ≡ lock_id lock.now) × HasNoTurn teller.old × (0 < (view teller.old).units) }
    requires listener { (listener.old.table_id ≡ lock_id lock.now) × HasNoTurn listener.old × (0 < (view listener.old).units) }
    ensures teller { IsSamePass teller.old teller.new × (view teller.new ≡ view teller.old) × HasNoTurn teller.new }
    ensures listener { IsSamePass listener.old listener.new × HasNoTurn listener.new × ((view listener.new).units ≡ (view listener.old).units) }
    ensures told { IsPrefix (view teller.old).seen (view listener.new).seen }
    ensures same { ((view listener.new).mine ≡ (view listener.old).mine) × ((view listener.new).holds ≡ (view listener.old).holds) }
{
    let note = lock.split(teller, None, 0);
    lock.join(listener, note);
}

fn counts_up(log: &Log) -> bool {
    log.entries
        .iter()
        .enumerate()
        .all(|(i, entry)| entry.number == i as u64)
}

// The threads of a run on a new lock: how many entries its list has then, and whether they count up.
fn entries_of<R: Threads + Wait + Abort + Sync + Clock + CpuClock>(
    rt: &R,
    alloc: Global,
    run: &Run,
) -> (usize, bool) {
    assert!(rt; run.threads > 0 && run.threads < LAST);
    let (lock, pass) = made(rt, alloc);
    let all = crowd(rt, &lock, pass, 0, run.threads, run);
    let log = lock.close(all);
    (log.entries.len(), counts_up(&log))
}

// Runs with so many entries each.
fn are_served<R: Threads + Wait + Abort + Sync + Clock + CpuClock>(
    rt: &R,
    alloc: Global,
    rows: &[(usize, Run)],
) {
    for (number, row) in rows.iter().enumerate() {
        let (entries, in_order) = entries_of(rt, alloc, &row.1);
        same(rt, (number, entries, in_order), (number, row.0, true));
    }
}

#[test]
fn threads_with_short_turns_are_served_in_order(rt: HostRuntime) -> Result<(), Fail> {
    let four = Run {
        threads: 4,
        ..SHORT
    };
    let rows = [
        (200_000, SHORT),
        (400_000, four),
        (2_400, Run { turns: 600, ..four }),
        (
            38_400,
            Run {
                threads: 64,
                turns: 600,
                ..SHORT
            },
        ),
    ];
    are_served(&rt, rt.alloc(), &rows);
    Ok(())
}

// Nearly all threads sleep at the gate at once. In the second run the first turn lasts until all others sleep.
#[test]
fn threads_that_hold_their_turns_for_a_while_are_served(rt: HostRuntime) -> Result<(), Fail> {
    let rows = [
        (
            16_000,
            Run {
                threads: 16,
                turns: 1_000,
                busy: 20,
                longer: 31,
                first: 20,
                pause: 500,
                ..SHORT
            },
        ),
        (
            6_000,
            Run {
                threads: 150,
                turns: 40,
                busy: 5,
                first: 100_000,
                ..SHORT
            },
        ),
    ];
    are_served(&rt, rt.alloc(), &rows);
    Ok(())
}

// Who waits for a turn that lasts longer than one looks at the gate sleeps, and who was woken and came too late sleeps again: one that
// looks on and on takes too much of a processor.
#[test]
fn threads_sleep_until_their_turns(rt: HostRuntime) -> Result<(), Fail> {
    let rows = [
        (
            2,
            Run {
                turns: 1,
                asleep: 400_000,
                late: 100_000,
                most: 50_000,
                ..SHORT
            },
        ),
        (
            160,
            Run {
                threads: 8,
                turns: 20,
                asleep: 2_000,
                most: 40_000,
                ..SHORT
            },
        ),
    ];
    are_served(&rt, rt.alloc(), &rows);
    Ok(())
}

// So many turns of one thread.
fn some<R: Wait + Abort + Clock>(
    rt: &R,
    lock: &TurnLock<Log>,
    pass: Pass<Log>,
    turns: u64,
) -> Pass<Log>
    requires { (pass.table_id ≡ lock_id lock.now) × HasNoTurn pass × (0 < (view pass).units) }
    ensures { (result.table_id ≡ lock_id lock.now) × HasNoTurn result × ((view result).units ≡ (view pass).units) }
{
    turned(rt, lock, pass, 0, &Run { turns, ..SHORT })
}

#[test]
fn a_note_tells_what_was_seen(rt: HostRuntime) -> Result<(), Fail> {
    let (lock, first) = made(&rt, rt.alloc());
    let mut first = some(&rt, &lock, first, 3);
    let mut second = lock.split(&mut first, None, 1);
    first = some(&rt, &lock, first, 2);
    tell(&lock, &mut first, &mut second);
    second = some(&rt, &lock, second, 1);
    lock.join(&mut first, second);
    let log = lock.close(first);
    same(&rt, (log.entries.len(), counts_up(&log)), (6, true));
    Ok(())
}

#[test]
fn new_hands_the_value_back_without_memory(rt: HostRuntime) -> Result<(), Fail> {
    let log = Log {
        owner: 7,
        entries: Vec::new(rt.alloc()),
    };
    match TurnLock::new(rt.alloc(), log) {
        Ok((lock, pass)) => assert!(rt; lock.close(pass).owner == 7),
        Err((Memory, log)) => assert!(rt; log.owner == 7),
    }
    Ok(())
}
