// Each form once: calls that fail, pieces, refusals, and the real streams' forms over fakes.
use crate::count_tests::same;
use crate::steps::Outcome::{Count, Done, Failed, Refused};
use crate::steps::{Came, MOST, Row, Shown, Steps, play, show};
use iso_io::{
    MemSink, MemSource, PutError, Sink, Source, StdSink, StdSource, TakeError, put_all, take_all,
};
use std::alloc::Global;
use std::io;
use std::io::{BufWriter, Read, Write};
use std::test::Fail;

// A stream whose every call fails.
#[derive(Drop)]
struct Broken;

impl Read for Broken {
    fn read(&mut self, _buf: &mut [u8]) -> io::Result<usize> {
        Err(io::ErrorKind::BrokenPipe.into())
    }
}

impl Write for Broken {
    fn write(&mut self, _buf: &[u8]) -> io::Result<usize> {
        Err(io::ErrorKind::BrokenPipe.into())
    }

    fn flush(&mut self) -> io::Result<()> {
        Ok(())
    }
}

// A writer that takes at most two bytes at a call, and whose second call fails.
#[derive(Drop)]
struct Narrow {
    bytes: Vec<u8>,
    calls: u64,
}

impl Write for Narrow {
    fn write(&mut self, buf: &[u8]) -> io::Result<usize> {
        self.calls = self.calls.saturating_add(1);
        if self.calls == 2 {
            return Err(io::ErrorKind::BrokenPipe.into());
        }
        let taken = buf.len().min(2);
        self.bytes.extend_from_slice(&buf[..taken])?;
        Ok(taken)
    }

    fn flush(&mut self) -> io::Result<()> {
        Ok(())
    }
}

/// One call of a source.
#[derive(Clone, Copy)]
enum Take {
    /// At most so many bytes.
    Piece(usize),
    /// All that is left, up to a limit.
    All(u64),
}

/// A source that is called.
#[derive(Drop)]
struct OfSource<'a, S> {
    source: &'a mut S,
}

/// Takes all that is left.
fn all_of<S: Source>(alloc: Global, source: &mut S, limit: u64, shown: &mut Shown) -> Came {
    match take_all(alloc, source, limit) {
        Ok(bytes) => (Count(bytes.len() as u64), show(bytes.as_slice(), shown)),
        Err(TakeError::Failed) => (Failed, 0),
        Err(TakeError::Memory) => (Refused, 0),
    }
}

impl<S: Source> Steps for OfSource<'_, S> {
    type Step = Take;

    fn step(&mut self, alloc: Global, step: &Take, shown: &mut Shown) -> Came {
        match *step {
            Take::Piece(len) if len <= MOST => match self.source.take(&mut shown[..len]) {
                Ok(count) => (Count(count as u64), count),
                Err(_) => (Failed, 0),
            },
            Take::Piece(_) => (Refused, 0),
            Take::All(limit) => all_of(alloc, self.source, limit, shown),
        }
    }
}

/// The name of a table, the bytes of the source, its calls that fail, the most bytes at a time, and the calls.
const SOURCES: &[(&str, &[u8], &[u64], usize, &[Row<'static, Take>])] = &[
    (
        "a_call_that_fails_leaves_the_bytes",
        b"abcde",
        &[2],
        100,
        &[
            (Take::Piece(3), Count(3), b"abc"),
            (Take::Piece(3), Failed, &[]),
            (Take::Piece(3), Count(2), b"de"),
            (Take::Piece(3), Count(0), &[]),
        ],
    ),
    // all bytes are taken, whatever the pieces
    (
        "pieces of 1",
        b"abcde",
        &[],
        1,
        &[(Take::All(100), Count(5), b"abcde")],
    ),
    (
        "pieces of 2",
        b"abcde",
        &[],
        2,
        &[(Take::All(100), Count(5), b"abcde")],
    ),
    (
        "pieces of 5",
        b"abcde",
        &[],
        5,
        &[(Take::All(100), Count(5), b"abcde")],
    ),
    (
        "pieces of 100",
        b"abcde",
        &[],
        100,
        &[(Take::All(100), Count(5), b"abcde")],
    ),
    (
        "taking_reports_a_fault",
        b"abcde",
        &[3],
        2,
        &[(Take::All(100), Failed, &[])],
    ),
];

#[test]
fn a_source_in_memory(rt: HostRuntime) -> Result<(), Fail> {
    let alloc = rt.alloc();
    for (name, bytes, failing, piece, rows) in SOURCES {
        let (bytes, failing) = (bytes.to_vec(alloc)?, failing.to_vec(alloc)?);
        let mut source = MemSource::in_pieces(bytes, failing, (*piece).max(1));
        let mut on = OfSource {
            source: &mut source,
        };
        play(&rt, alloc, name, &mut on, rows);
    }
    Ok(())
}

/// The calls of a source of 70,000 bytes that are 7.
const LONG: &[Row<'static, Take>] = &[
    (Take::All(69_999), Count(69_999), &[7; MOST]),
    (Take::All(69_999), Count(1), &[7]),
];

#[test]
fn taking_stops_at_the_limit(rt: HostRuntime) -> Result<(), Fail> {
    let alloc = rt.alloc();
    let bytes = vec![in alloc; 7; 70_000]?;
    let mut source = MemSource::new(bytes, Vec::new(alloc));
    let mut on = OfSource {
        source: &mut source,
    };
    play(&rt, alloc, "70,000 bytes", &mut on, LONG);
    Ok(())
}

#[test]
fn a_reader_is_a_source(rt: HostRuntime) {
    let mut source = StdSource::new(b"abc".as_slice());
    let mut on = OfSource {
        source: &mut source,
    };
    let all: &[Row<'static, Take>] = &[(Take::All(100), Count(3), b"abc")];
    play(&rt, rt.alloc(), "a reader", &mut on, all);
    let mut source = StdSource::new(Broken);
    let mut on = OfSource {
        source: &mut source,
    };
    let failed: &[Row<'static, Take>] = &[(Take::Piece(1), Failed, &[])];
    play(&rt, rt.alloc(), "a broken reader", &mut on, failed);
}

/// One call of a sink.
#[derive(Clone, Copy)]
enum Put<'a> {
    Piece(&'a [u8]),
    All(&'a [u8]),
    HandOn,
}

use Put::HandOn;

/// A sink that is called.
#[derive(Drop)]
struct OfSink<'a, S> {
    sink: &'a mut S,
}

impl<S: Sink> Steps for OfSink<'_, S> {
    type Step = Put<'static>;

    fn step(&mut self, _alloc: Global, step: &Put<'static>, _shown: &mut Shown) -> Came {
        let found = match *step {
            Put::Piece(bytes) => match self.sink.put(bytes) {
                Ok(count) => Count(count as u64),
                Err(_) => Failed,
            },
            Put::All(bytes) => match put_all(self.sink, bytes) {
                Ok(()) => Done,
                Err(PutError::Failed) => Failed,
                Err(PutError::TookNothing) => Refused,
            },
            HandOn => match self.sink.hand_on() {
                Ok(()) => Done,
                Err(_) => Failed,
            },
        };
        (found, 0)
    }
}

/// The name of a table, the calls of the sink that fail, the most bytes at a time, the calls, and the bytes that it has then.
const SINKS: &[(&str, &[u64], usize, &[Row<'static, Put<'static>>], &[u8])] = &[
    (
        "a_whole_piece_is_put_one_byte_at_a_time",
        &[],
        1,
        &[
            (Put::All(b"abc"), Done, &[]),
            (Put::All(b""), Done, &[]),
            (Put::All(b"de"), Done, &[]),
        ],
        b"abcde",
    ),
    (
        "a_put_that_fails_keeps_the_front",
        &[3],
        2,
        &[(Put::All(b"abcdef"), Failed, &[])],
        b"abcd",
    ),
    (
        "a_sink_may_take_nothing",
        &[],
        0,
        &[
            (Put::Piece(b"a"), Count(0), &[]),
            (Put::All(b"a"), Refused, &[]),
            (Put::All(b""), Done, &[]),
        ],
        b"",
    ),
];

#[test]
fn a_sink_in_memory(rt: HostRuntime) -> Result<(), Fail> {
    let alloc = rt.alloc();
    for (name, failing, piece, rows, bytes) in SINKS {
        let mut sink = MemSink::in_pieces(alloc, failing.to_vec(alloc)?, *piece);
        play(&rt, alloc, name, &mut OfSink { sink: &mut sink }, rows);
        same(
            &rt,
            (*name, sink.bytes(), sink.starved()),
            (*name, *bytes, 0),
        );
    }
    Ok(())
}

#[test]
fn a_writer_is_a_sink(rt: HostRuntime) {
    let alloc = rt.alloc();
    let mut bytes = Vec::new(alloc);
    {
        let mut sink = StdSink::new(&mut bytes);
        let put: &[Row<'static, Put<'static>>] = &[(Put::All(b"abc"), Done, &[])];
        play(&rt, alloc, "a writer", &mut OfSink { sink: &mut sink }, put);
    }
    same(&rt, bytes.as_slice(), b"abc".as_slice());
    let mut sink = StdSink::new(Broken);
    let failed: &[Row<'static, Put<'static>>] = &[(Put::Piece(b"a"), Failed, &[])];
    play(
        &rt,
        alloc,
        "a broken writer",
        &mut OfSink { sink: &mut sink },
        failed,
    );
}

#[test]
fn a_writer_that_takes_little_gets_all_in_order(rt: HostRuntime) {
    let alloc = rt.alloc();
    let bytes = Vec::new(alloc);
    let mut narrow = Narrow { bytes, calls: 0 };
    {
        let mut sink = StdSink::new(&mut narrow);
        let put: &[Row<'static, Put<'static>>] = &[
            (Put::All(b"abc"), Failed, &[]),
            (Put::All(b"cdefg"), Done, &[]),
        ];
        play(
            &rt,
            alloc,
            "a narrow writer",
            &mut OfSink { sink: &mut sink },
            put,
        );
    }
    same(&rt, narrow.bytes.as_slice(), b"abcdefg".as_slice());
}

#[test]
fn what_a_writer_holds_back_comes_out_where_the_sink_hands_on(rt: HostRuntime) -> Result<(), Fail> {
    let alloc = rt.alloc();
    let mut bytes = Vec::new(alloc);
    {
        let mut sink = StdSink::new(BufWriter::new(alloc, &mut bytes)?);
        let put: &[Row<'static, Put<'static>>] = &[
            (Put::All(b"abc"), Done, &[]),
            (HandOn, Done, &[]),
            (Put::All(b"de"), Done, &[]),
            (HandOn, Done, &[]),
        ];
        play(
            &rt,
            alloc,
            "a writer that holds back",
            &mut OfSink { sink: &mut sink },
            put,
        );
    }
    same(&rt, bytes.as_slice(), b"abcde".as_slice());
    Ok(())
}

#[test]
fn nothing_is_taken_behind_a_failure_to_hand_on(rt: HostRuntime) -> Result<(), Fail> {
    let alloc = rt.alloc();
    let mut sink = StdSink::new(BufWriter::new(alloc, Broken)?);
    let put: &[Row<'static, Put<'static>>] = &[
        (Put::Piece(b"abc"), Count(3), &[]),
        (HandOn, Failed, &[]),
        (Put::Piece(b"de"), Failed, &[]),
        (HandOn, Failed, &[]),
    ];
    play(
        &rt,
        alloc,
        "a broken writer",
        &mut OfSink { sink: &mut sink },
        put,
    );
    Ok(())
}
