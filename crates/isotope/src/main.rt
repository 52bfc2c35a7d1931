//! The program: it makes the top call over a `Kept` over a `Mirror` of two `FileDisk`s, of which a name without `+` uses the first
//! alone, with standard input and standard output, and ends with its status.
//!
//! Replies are held back until more input is waited for, and come out at the end. The promise is that of the call, on a real file as
//! an opaque disk: of its bytes it rests on what `docs/promises.md` calls trusted.
#![tactic(auto)]

ghost use Rattle.std.specs.{Prelude.{◌≡◌, ◌≢◌, false, true}, Process.exit_status};

use file_disk::FileDisk;
use iso_disk::{Image, Lookup};
use iso_io::{Sink, Source, StdSink, StdSource, put_all};
use iso_top::isotope;
use kept_disk::Kept;
use mirror_disk::Mirror;
use par_runner::Gate;
use std::alloc::{AllocError, Global};
use std::io::BufWriter;
use std::process::ExitCode;
use std::rt::Env;
use std::sync::Wait;
use std::thread::Threads;
use std::{env, io};

/// The words of the command line. Words that are not UTF-8 are outside the grammar, as no words are.
fn words_of<R: Env + AllocGlobal>(rt: &R) -> Result<Vec<String>, AllocError> {
    match env::args(rt) {
        Ok(args) => args.collect(rt.alloc()),
        Err(error) if error.kind() == io::ErrorKind::OutOfMemory => Err(AllocError),
        Err(_) => Ok(Vec::new(rt.alloc())),
    }
}

/// A gate at which no client waits.
#[derive(Drop)]
struct Open;

impl Gate for Open {
    fn before(&self, _client: u8, _number: u64) {}
}

/// The status of the program.
fn exit_of(status: u8) -> ExitCode
    ensures { exit_status result ≡ status }
{
    ExitCode::from(status)
}

/// The status where the call ended with this one: 7 where all was done, and not all of its text came out.
fn status_of(status: u8, is_cut: bool) -> u8
    ensures kept { status ≢ 0 → result ≡ status }
    ensures whole { is_cut ≡ false → result ≡ status }
    ensures cut { status ≡ 0 → is_cut ≡ true → result ≡ 7 }
{
    if is_cut && status == 0 { 7 } else { status }
}

/// The end for want of memory, before anything was done.
fn without_memory<K: Sink>(output: &mut K) -> ExitCode {
    let _ = put_all(output, b"! memory\n");
    let _ = output.hand_on();
    exit_of(8)
}

/// Makes the call over a disk that keeps pages of this one, and hands on what of the call's text still waits.
fn run<I: Image + Send + Drop, S: Source, K: Sink, R: Threads + Wait + Sync>(
    rt: &R,
    alloc: Global,
    words: &[String],
    disk: I,
    input: &mut S,
    output: &mut K,
) -> ExitCode {
    let kept = Kept::new(alloc, disk);
    let ended = isotope(rt, alloc, words, kept, input, output, &Open);
    let is_cut = output.hand_on().is_err();
    exit_of(status_of(ended.status, is_cut))
}

/// The same over a mirror of these two. A name without `+` uses the first alone. Cache, mirror and file are named one at a time: of a
/// call at the type of all three the proof takes minutes.
fn run_on<D: Image + Lookup + Send + Drop, S: Source, K: Sink, R: Threads + Wait + Sync>(
    rt: &R,
    alloc: Global,
    words: &[String],
    sides: (D, D),
    input: &mut S,
    output: &mut K,
) -> ExitCode {
    let mirror = Mirror::of(sides.0, sides.1);
    run(rt, alloc, words, mirror, input, output)
}

fn main(rt: HostRuntime) -> ExitCode {
    let alloc = rt.alloc();
    let mut input = StdSource::new(rt.stdin());
    let Ok(held) = BufWriter::new(alloc, rt.stdout()) else {
        return without_memory(&mut StdSink::new(rt.stdout()));
    };
    let mut output = StdSink::new(held);
    let Ok(words) = words_of(&rt) else {
        return without_memory(&mut output);
    };
    let Ok(files) = rt.clone() else {
        return without_memory(&mut output);
    };
    let Ok(more) = rt.clone() else {
        return without_memory(&mut output);
    };
    let sides = (FileDisk::new(files, alloc), FileDisk::new(more, alloc));
    run_on(&rt, alloc, &words, sides, &mut input, &mut output)
}
