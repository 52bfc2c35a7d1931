// Calls of the top call over a disk, a source and a sink in memory. It is the call that the program makes, with threads.
use crate::outcome::Outcome;
use iso_disk::Image;
use iso_io::{MemSink, MemSource, Source};
use iso_memdisk::MemDisk;
use iso_top::isotope;
use par_runner::Gate;
use std::alloc::{AllocError, Global};
use std::sync::Wait;
use std::thread::Threads;

/// The words that make a small image.
pub const SMALL: &str = "isotope new t.img --block-size 64 --blocks 4 --log 256";

/// The words that run a script on it.
pub const RUN: &str = "isotope run t.img";

/// The words that run its clients in threads.
pub const PAR: &str = "isotope par t.img";

/// The words that open it and show its last commit.
pub const RECOVER: &str = "isotope recover t.img";

/// The words of a command line.
fn words_of(alloc: Global, line: &str) -> Result<Vec<String>, AllocError> {
    let mut words = Vec::new(alloc);
    for word in line.split_whitespace() {
        words.push(String::from_str(alloc, word)?)?;
    }
    Ok(words)
}

/// A source of these bytes that does not fail.
///
/// # Errors
///
/// Want of memory.
pub fn source_of(alloc: Global, input: &[u8]) -> Result<MemSource, AllocError> {
    Ok(MemSource::new(input.to_vec(alloc)?, Vec::new(alloc)))
}

/// A sink that does not fail.
pub fn whole_sink(alloc: Global) -> MemSink {
    MemSink::new(alloc, Vec::new(alloc))
}

/// A gate at which no client waits.
#[derive(Drop)]
pub struct Open;

impl Gate for Open {
    fn before(&self, _client: u8, _number: u64) {}
}

/// The status, the output and the image of a call over any image and source, with a gate that is called before each
/// line of a `par` command.
///
/// # Errors
///
/// Want of memory outside of the call, whose own is a status.
pub fn gated<I: Image + Send + Drop, S: Source, G: Gate, R: Threads + Wait + Sync>(
    rt: &R,
    alloc: Global,
    line: &str,
    image: I,
    source: &mut S,
    sink: MemSink,
    gate: &G,
) -> Result<(u8, Vec<u8>, I), AllocError> {
    let words = words_of(alloc, line)?;
    let mut sink = sink;
    let ended = isotope(rt, alloc, &words, image, source, &mut sink, gate);
    let output = sink.bytes().to_vec(alloc)?;
    Ok((ended.status, output, ended.image))
}

/// The same over any image, without a gate.
///
/// # Errors
///
/// Want of memory outside of the call, whose own is a status.
pub fn call_over<I: Image + Send + Drop, R: Threads + Wait + Sync>(
    rt: &R,
    alloc: Global,
    line: &str,
    image: I,
    source: MemSource,
    sink: MemSink,
) -> Result<(u8, Vec<u8>, I), AllocError> {
    let mut source = source;
    gated(rt, alloc, line, image, &mut source, sink, &Open)
}

/// A call over a disk, in which source and sink do not fail.
///
/// # Errors
///
/// As those of `gated`.
pub fn call_on<R: Threads + Wait + Sync>(
    rt: &R,
    alloc: Global,
    line: &str,
    disk: MemDisk,
    input: &[u8],
) -> Result<Outcome, AllocError> {
    let source = source_of(alloc, input)?;
    let (status, output, disk) = call_over(rt, alloc, line, disk, source, whole_sink(alloc))?;
    Ok(Outcome {
        status,
        output,
        disk,
    })
}

/// A call over a disk without bytes, in which nothing fails.
///
/// # Errors
///
/// As those of `gated`.
pub fn call<R: Threads + Wait + Sync>(
    rt: &R,
    alloc: Global,
    line: &str,
    input: &[u8],
) -> Result<Outcome, AllocError> {
    call_on(rt, alloc, line, MemDisk::new(alloc, Vec::new(alloc)), input)
}

/// A script on an image of these bytes, in which nothing fails.
///
/// # Errors
///
/// As those of `gated`.
pub fn run_image<R: Threads + Wait + Sync>(
    rt: &R,
    alloc: Global,
    image: Vec<u8>,
    input: &[u8],
) -> Result<Outcome, AllocError> {
    call_on(rt, alloc, RUN, MemDisk::new(alloc, image), input)
}

/// The clients of a script in threads, on an image of these bytes, where nothing fails.
///
/// # Errors
///
/// As those of `gated`.
pub fn par_image<R: Threads + Wait + Sync>(
    rt: &R,
    alloc: Global,
    image: Vec<u8>,
    input: &[u8],
) -> Result<Outcome, AllocError> {
    call_on(rt, alloc, PAR, MemDisk::new(alloc, image), input)
}
