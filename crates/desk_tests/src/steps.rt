// What is done with a desk, step by step, and what each step is answered.
use crate::desks::{do_tape, new_desk, reopened};
use crate::same::same;
use device_desk::{Desk, Status, fail, status_of, tape};
use iso_model::Memory;
use queued_disk::QueuedDisk;
use script_model::{Reply, Stop};
use std::alloc::Global;
use std::process::Abort;

/// One thing that is done. Transactions are counted from 0 as they begin.
#[derive(Clone, Copy)]
pub(crate) enum Step {
    Begin,
    /// Fills a block with one byte.
    Fill(usize, u32, u8),
    /// Gets the first byte of a block.
    Show(usize, u32),
    /// The same, and no access.
    Peek(usize, u32),
    End(usize),
    Abort(usize),
    /// Ends two that waited for one another, and shows how many replies there are.
    EndBoth(usize, usize),
    /// Ends the number after the last one that was told.
    EndUntold,
    /// Does the tape to the file.
    DoTape,
    /// Counts the calls on the tape.
    CountTape,
    /// A call of the tape could not be done.
    Fail,
    /// Opens what the file holds; the transactions are gone.
    Reopen,
}

/// What a step came to, and the byte or the count that it showed, else 0.
pub(crate) type Answer = (Status, u8);

pub(crate) const DONE: Answer = (Status::Done, 0);

/// A step, and what it is answered.
pub(crate) type Row = (Step, Answer);

// The number of a transaction, or one that nobody was told.
fn number_of(numbers: &[u64], who: usize) -> u64 {
    numbers.get(who).copied().unwrap_or(u64::MAX)
}

// What an answer comes to.
fn answer_of(answer: &Result<Reply, Stop>) -> Answer {
    let byte = match answer {
        Ok(Reply::Shown(bytes)) => bytes.as_slice().first().copied().unwrap_or(0),
        _ => 0,
    };
    (status_of(answer), byte)
}

// Ends two transactions that waited for one another.
fn end_both(desk: &mut Desk<QueuedDisk>, one: u64, other: u64) -> Answer {
    let waited = desk.end_waiting(&[one, other]);
    let status = match waited.stop {
        None => Status::Done,
        Some(_) => Status::Down,
    };
    (status, waited.replies.len().min(255) as u8)
}

// Begins a transaction, whose number is kept.
fn begin(desk: &mut Desk<QueuedDisk>, numbers: &mut Vec<u64>) -> Result<Answer, Memory> {
    numbers.reserve(1)?;
    let mut number = 0;
    let answer = answer_of(&desk.begin(None, &mut number));
    numbers.push_reserved(number);
    Ok(answer)
}

// Opens what the file holds in the desk's place.
fn reopen(
    alloc: Global,
    desk: &mut Desk<QueuedDisk>,
    file: &[u8],
    numbers: &mut Vec<u64>,
) -> Result<Answer, Memory> {
    *desk = reopened(alloc, file)?;
    numbers.clear();
    Ok((Status::Done, 0))
}

// Does one step.
fn play(
    alloc: Global,
    desk: &mut Desk<QueuedDisk>,
    file: &mut Vec<u8>,
    numbers: &mut Vec<u64>,
    step: Step,
) -> Result<Answer, Memory> {
    let told = numbers.last().copied().unwrap_or(0);
    match step {
        Step::Begin => return begin(desk, numbers),
        Step::Reopen => return reopen(alloc, desk, file, numbers),
        Step::DoTape => do_tape(desk, file),
        Step::Fail => fail(desk),
        Step::CountTape => return Ok((Status::Done, tape(desk).len().min(255) as u8)),
        Step::Fill(who, block, byte) => {
            return Ok(answer_of(&desk.fill(number_of(numbers, who), block, &[byte])));
        }
        Step::Show(who, block) => {
            return Ok(answer_of(&desk.get(number_of(numbers, who), block, 0, 1)));
        }
        Step::Peek(who, block) => {
            return Ok(answer_of(&desk.peek(number_of(numbers, who), block, 0, 1)));
        }
        Step::End(who) => return Ok(answer_of(&desk.end(number_of(numbers, who)))),
        Step::EndBoth(one, other) => {
            return Ok(end_both(desk, number_of(numbers, one), number_of(numbers, other)));
        }
        Step::Abort(who) => return Ok(answer_of(&desk.abort(number_of(numbers, who)))),
        Step::EndUntold => return Ok(answer_of(&desk.end(told.saturating_add(1)))),
    }
    Ok((Status::Done, 0))
}

// Does the steps in order, and compares what each is answered. What fails is told with the number of its row.
fn play_all(
    rt: &impl Abort,
    alloc: Global,
    desk: &mut Desk<QueuedDisk>,
    file: &mut Vec<u8>,
    rows: &[Row],
) -> Result<(), Memory> {
    let mut numbers = Vec::new(alloc);
    for (number, row) in rows.iter().enumerate() {
        let answer = play(alloc, desk, file, &mut numbers, row.0)?;
        same(rt, (number, answer), (number, row.1));
    }
    Ok(())
}

/// Plays these rows on a desk over a small new image, whose making was done to the file.
pub(crate) fn played(rt: &impl Abort, alloc: Global, rows: &[Row]) -> Result<(), Memory> {
    let (mut desk, mut file) = new_desk(alloc)?;
    do_tape(&mut desk, &mut file);
    play_all(rt, alloc, &mut desk, &mut file, rows)
}
