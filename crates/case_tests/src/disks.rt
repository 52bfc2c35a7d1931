// A call over two disks, a source and a sink in memory, and what it gave. A disk alone is the first side of a mirror whose name does not
// end in `+`.
use crate::text::{Trouble, found, number_of, size_of, two};
use crate::words::Word;
use iso_io::{MemSink, MemSource};
use iso_memdisk::{CallKind, MemDisk};
use kept_disk::Kept;
use mirror_disk::Mirror;
use std::alloc::{AllocError, Global};
use std::sync::Wait;
use std::thread::Threads;
use top_calls::{Fault, call_over, faulty, source_of, whole_sink};

/// One of the sides of a mirror. The first one is the disk where there is no mirror.
#[derive(Clone, Copy, PartialEq, Eq)]
pub(crate) enum Side {
    First,
    Second,
}

/// The bytes of both sides, as a call is lent them.
#[derive(Clone, Copy)]
pub(crate) struct Images<'a> {
    pub(crate) first: &'a [u8],
    pub(crate) second: &'a [u8],
}

impl Images<'_> {
    /// Whether both have the same bytes after the headers of a mirror.
    pub(crate) fn are_alike(self) -> bool {
        self.first.get(64..) == self.second.get(64..)
    }
}

/// The bytes of both sides.
#[derive(Drop)]
pub(crate) struct Sides {
    pub(crate) first: Vec<u8>,
    pub(crate) second: Vec<u8>,
}

impl Sides {
    /// No bytes.
    pub(crate) fn none(alloc: Global) -> Self {
        Sides {
            first: Vec::new(alloc),
            second: Vec::new(alloc),
        }
    }

    /// The bytes of this one.
    pub(crate) fn of(&self, side: Side) -> &Vec<u8> {
        match side {
            Side::First => &self.first,
            Side::Second => &self.second,
        }
    }

    /// The bytes of this one, to be changed.
    pub(crate) fn of_mut(&mut self, side: Side) -> &mut Vec<u8> {
        match side {
            Side::First => &mut self.first,
            Side::Second => &mut self.second,
        }
    }

    /// Both, for a call.
    pub(crate) fn lent(&self) -> Images<'_> {
        Images {
            first: &self.first,
            second: &self.second,
        }
    }

    /// A copy of both.
    fn copy(&self, alloc: Global) -> Result<Self, AllocError> {
        let first = self.first.to_vec(alloc)?;
        let second = self.second.to_vec(alloc)?;
        Ok(Sides { first, second })
    }
}

const KINDS: [(&str, CallKind); 4] = [
    ("read", CallKind::Read),
    ("write", CallKind::Write),
    ("sync", CallKind::Sync),
    ("bind", CallKind::Bind),
];

/// How a disk fails.
fn fault_of(text: &str) -> Result<Fault, Trouble> {
    let (word, number) = two(text)?;
    let number = number_of(number)?;
    if word == "behind" {
        return Ok(Fault::Behind(number));
    }
    if word == "at" {
        return Ok(Fault::At(number));
    }
    match found(&KINDS, word) {
        Some(kind) => Ok(Fault::OfKind(kind, number)),
        None => Err(Trouble::Said(
            "a disk fails behind or at a call, or at a read, write, sync or bind",
        )),
    }
}

/// At which call a source or a sink fails, and how long its pieces are.
fn failing_of(text: &str) -> Result<Option<(u64, usize)>, Trouble> {
    let (number, piece) = two(text)?;
    Ok(Some((number_of(number)?, size_of(piece)?)))
}

/// How the disk, or the two sides, the source and the sink of a call fail: the source and the sink at the call of a number, with
/// pieces of a length, and the sink where it is to hand on.
#[derive(Clone, Copy)]
pub(crate) struct Plan {
    pub(crate) first: Fault,
    pub(crate) second: Fault,
    pub(crate) source: Option<(u64, usize)>,
    pub(crate) sink: Option<(u64, usize)>,
    /// The time, from 1, at which the sink cannot hand on, or 0.
    pub(crate) breaks: u64,
    /// Whether pages of the disk are kept.
    pub(crate) is_kept: bool,
}

impl Plan {
    /// Nothing fails, and no page is kept.
    pub(crate) fn none() -> Self {
        Plan {
            first: Fault::Never,
            second: Fault::Never,
            source: None,
            sink: None,
            breaks: 0,
            is_kept: false,
        }
    }

    /// This side fails so.
    pub(crate) fn set(&mut self, side: Side, fault: Fault) {
        match side {
            Side::First => self.first = fault,
            Side::Second => self.second = fault,
        }
    }

    /// Whether a line says more of it.
    pub(crate) fn goes_on(&mut self, side: Side, word: Word, rest: &str) -> Result<bool, Trouble> {
        match word {
            Word::Fails => self.set(side, fault_of(rest)?),
            Word::Source => self.source = failing_of(rest)?,
            Word::Sink => self.sink = failing_of(rest)?,
            Word::Breaks => self.breaks = number_of(rest)?,
            Word::Kept if rest == "pages" => self.is_kept = true,
            _ => return Ok(false),
        }
        Ok(true)
    }

    /// A source of these bytes.
    fn source_of(self, alloc: Global, input: &[u8]) -> Result<MemSource, AllocError> {
        match self.source {
            Some((number, piece)) if piece > 0 => {
                let failing = [number].to_vec(alloc)?;
                Ok(MemSource::in_pieces(input.to_vec(alloc)?, failing, piece))
            }
            _ => source_of(alloc, input),
        }
    }

    /// A sink.
    fn sink_of(self, alloc: Global) -> Result<MemSink, AllocError> {
        let mut sink = match self.sink {
            Some((number, piece)) => {
                let failing = [number].to_vec(alloc)?;
                MemSink::in_pieces(alloc, failing, piece)
            }
            None => whole_sink(alloc),
        };
        sink.break_at(self.breaks);
        Ok(sink)
    }

    /// A mirror of sides of these bytes.
    fn mirror_of(
        self,
        alloc: Global,
        images: Images<'_>,
    ) -> Result<Mirror<MemDisk, MemDisk>, AllocError> {
        let first = faulty(alloc, images.first, self.first)?;
        let second = faulty(alloc, images.second, self.second)?;
        Ok(Mirror::of(first, second))
    }
}

/// What a call gave. The disks are not in it, but what is asked of them: who owns a disk drops it at each exit, and that is proved.
#[derive(Drop)]
pub(crate) struct Outcome {
    pub(crate) status: u8,
    pub(crate) output: Vec<u8>,
    /// How many calls the first side and the second one got.
    pub(crate) calls: (u64, u64),
    /// The images that a crash leaves of both sides, pick by pick: for 0 what they were at the last sync, and for 1 all that was
    /// written.
    pub(crate) left: Vec<Sides>,
}

impl Outcome {
    /// What is before any call.
    pub(crate) fn none(alloc: Global) -> Self {
        Outcome {
            status: 0,
            output: Vec::new(alloc),
            calls: (0, 0),
            left: Vec::new(alloc),
        }
    }

    /// The images of the last sync.
    pub(crate) fn synced(&self, alloc: Global) -> Result<Sides, Trouble> {
        match self.left.first() {
            Some(sides) => Ok(sides.copy(alloc)?),
            None => Ok(Sides::none(alloc)),
        }
    }

    /// Whether each image that a crash leaves of a side has these bytes.
    pub(crate) fn leaves(&self, side: Side, wanted: &[u8]) -> bool {
        for sides in &self.left {
            if sides.of(side).as_slice() != wanted {
                return false;
            }
        }
        !self.left.is_empty()
    }
}

/// Adds the images that a crash leaves of two disks for the first `picks` picks.
fn push_images(
    alloc: Global,
    left: &mut Vec<Sides>,
    one: &MemDisk,
    other: &MemDisk,
    picks: u64,
) -> Result<(), Trouble> {
    for pick in 0..picks {
        let Ok(first) = one.crash(alloc, pick) else {
            return Err(Trouble::Memory);
        };
        let Ok(second) = other.crash(alloc, pick) else {
            return Err(Trouble::Memory);
        };
        left.push(Sides { first, second })?;
    }
    Ok(())
}

/// What a call gave that gave back this mirror.
fn outcome_of(
    alloc: Global,
    (status, output, mirror): (u8, Vec<u8>, Mirror<MemDisk, MemDisk>),
    picks: u64,
) -> Result<Outcome, Trouble> {
    let (one, other) = mirror.into_sides();
    let mut outcome = Outcome {
        status,
        output,
        calls: (one.calls(), other.calls()),
        left: Vec::new(alloc),
    };
    match push_images(alloc, &mut outcome.left, &one, &other, picks) {
        Ok(()) => Ok(outcome),
        Err(trouble) => Err(trouble),
    }
}

/// A call over a mirror, whose pages may be kept.
fn call_over_mirror<R: Threads + Wait + Sync>(
    rt: &R,
    alloc: Global,
    words: &str,
    mirror: Mirror<MemDisk, MemDisk>,
    source: MemSource,
    sink: MemSink,
    is_kept: bool,
) -> Result<(u8, Vec<u8>, Mirror<MemDisk, MemDisk>), AllocError> {
    if !is_kept {
        return call_over(rt, alloc, words, mirror, source, sink);
    }
    match call_over(rt, alloc, words, Kept::new(alloc, mirror), source, sink) {
        Ok((status, output, kept)) => Ok((status, output, kept.into_disk())),
        Err(error) => Err(error),
    }
}

/// A call over disks of these bytes, and what a crash leaves of them for the first `picks` picks.
pub(crate) fn made<R: Threads + Wait + Sync>(
    rt: &R,
    alloc: Global,
    words: &str,
    images: Images<'_>,
    plan: Plan,
    input: &[u8],
    picks: u64,
) -> Result<Outcome, Trouble> {
    let source = plan.source_of(alloc, input)?;
    let sink = plan.sink_of(alloc)?;
    let mirror = plan.mirror_of(alloc, images)?;
    match call_over_mirror(rt, alloc, words, mirror, source, sink, plan.is_kept) {
        Ok(gave) => outcome_of(alloc, gave, picks),
        Err(_) => Err(Trouble::Memory),
    }
}
