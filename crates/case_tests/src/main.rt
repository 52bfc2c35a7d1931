//! Tests of the top call by cases in files: each call is made over a disk, a source and a sink in memory, and what fails is reported
//! on standard error with its file and line, what was wanted and what was found.
#![tactic(auto)]

mod book;
mod call;
mod disks;
mod left;
mod moments;
mod reached;
mod script;
mod stops;
mod telling;
mod text;
mod words;

use book::Book;
use std::process::ExitCode;
use std::rt::{Env, Files};
use std::sync::Wait;
use std::thread::Threads;
use std::{fs, io};
use telling::{Sums, Telling};
use text::Trouble;

/// Reads a file of cases. What cannot be read as one is told like a case that fails.
fn read<R: Threads + Wait + Sync>(rt: &R, book: &mut Book, text: &str) -> Result<(), Trouble> {
    for (i, line) in text.lines().enumerate() {
        let number = i.saturating_add(1);
        match book.read(rt, number, line) {
            Ok(()) => {}
            Err(Trouble::Said(why)) => return book.telling.tell(number, why),
            Err(Trouble::Memory) => return Err(Trouble::Memory),
        }
    }
    match book.settle(rt) {
        Err(Trouble::Said(why)) => book.telling.tell(0, why),
        other => other,
    }
}

/// Reads the file of this name, and reports what it has. None where memory is wanting. It borrows the book: who owns it drops it at each
/// exit, and that is proved.
fn read_file<R: Files + AllocGlobal + Print + Threads + Wait + Sync>(
    rt: &R,
    book: &mut Book,
    name: &str,
) -> io::Result<Option<Sums>> {
    let text = fs::read_to_string(rt, name)?;
    book.telling.begin_file(String::from_str(rt.alloc(), name)?);
    if read(rt, book, text.as_str()).is_err() {
        println!(rt; "{name}: no memory")?;
        return Ok(None);
    }
    let sums = book.telling.sums;
    println!(rt;
        "{name}: {} cases, {} calls, {} replies",
        sums.cases, sums.calls, sums.replies
    )?;
    Ok(Some(sums))
}

/// Reads the files that the command line names, and adds what they have. None where memory is wanting.
fn read_all<R: Env + Files + AllocGlobal + Print + Threads + Wait + Sync>(
    rt: &R,
    book: &mut Book,
) -> io::Result<Option<Sums>> {
    let mut all = Sums::none();
    for name in std::env::args(rt)?.skip(1) {
        match read_file(rt, book, name.as_str())? {
            Some(sums) => all = all.and(sums),
            None => return Ok(None),
        }
    }
    Ok(Some(all))
}

/// Reports all that failed. The status is 0 where nothing did.
fn report<R: Print + Eprint>(rt: &R, telling: &Telling, all: Sums) -> io::Result<u8> {
    let failed = telling.failed;
    println!(rt; "{} cases, {failed} failed", all.cases)?;
    eprint!(rt; "{}", telling.text.as_str())?;
    Ok(if failed == 0 { 0 } else { 1 })
}

/// The status of the program. Where memory is wanting it is 2.
fn status_of<R: Env + Files + AllocGlobal + Print + Eprint + Threads + Wait + Sync>(
    rt: &R,
    book: &mut Book,
) -> io::Result<u8> {
    match read_all(rt, book)? {
        Some(all) => report(rt, &book.telling, all),
        None => Ok(2),
    }
}

fn main(rt: HostRuntime) -> io::Result<ExitCode> {
    let mut book = Book::new(rt.alloc());
    match status_of(&rt, &mut book) {
        Ok(status) => Ok(ExitCode::from(status)),
        Err(error) => Err(error),
    }
}
