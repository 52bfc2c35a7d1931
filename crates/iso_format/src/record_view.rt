// A record that lies in bytes, and its parts.
ghost use Rattle.std.specs.Prelude.{◌≡◌, ◌≤◌, ℕ, length, None, Some, Ok, IfOk, IfErr, IsTrue};
ghost use Rattle.iso_model.specs.{declared.access.Geometry.Geometry, Geometry.is_valid, Premises.AreBytes};
ghost use Rattle.iso_format.specs.Records.{BeginsWith, Recorded, fault_of, record_window, recorded};

use crate::faults::{PART_HEAD, body_of, fault_of, part_size};
use crate::format_error::FormatError;
use crate::numbers::{u16_at, u32_at, u64_at};
use iso_model::Geometry;
use std::marker::Model;

/// A part of a record. Its bytes are those of the input.
#[derive(Clone, Copy)]
pub struct Part<'a> {
    pub block: u32,
    pub off: u16,
    pub bytes: &'a [u8],
}

/// The parts of a record in order. Contracts see the runs that are left.
#[derive(Drop)]
pub struct PartIter<'a> {
    count: u32,
    rest: &'a [u8],
}

impl<'a> Model for PartIter<'a> {
    ghost use Rattle.std.specs.Prelude.{List};
    ghost use Rattle.iso_model.specs.declared.access.Run.{Run};
    ghost use Rattle.iso_format.specs.Records.{HasParts, runs_of};

    ghost Value = { List Run };

    ghost view = { λ a. runs_of a.count a.rest.now };

    ghost invariant = { λ a. HasParts a.count a.rest.now };
}

impl<'a> Iterator for PartIter<'a> {
    ghost use Rattle.std.specs.Iterator.{YieldsFirstBy, item_count};
    ghost use Rattle.iso_format.specs.PartRun.{part_run};

    type Item = Part<'a>;

    ghost next_gives = { YieldsFirstBy part_run (λ s. s) };

    ghost remaining = { item_count (λ s. s) };

    fn next(&mut self) -> Option<Part<'a>> {
        if self.count == 0 {
            return None;
        }
        let body = self.rest;
        let (_, behind) = body.split_at(PART_HEAD);
        let (bytes, _) = behind.split_at(usize::from(u16_at(body, 6)));
        let (_, rest) = body.split_at(part_size(body));
        self.count -= 1;
        self.rest = rest;
        Some(Part {
            block: u32_at(body, 0),
            off: u16_at(body, 4),
            bytes,
        })
    }
}

/// A record that lies in bytes. Contracts see its number, its kind and its runs.
#[derive(Drop)]
pub struct RecordView<'a> {
    number: u64,
    kind: u8,
    count: u32,
    body: &'a [u8],
}

impl<'a> Model for RecordView<'a> {
    ghost use Rattle.iso_format.specs.Records.{HasParts, Recorded, runs_of};

    ghost Value = { Recorded };

    ghost view = { λ a. record { number = a.number; kind = a.kind; parts = runs_of a.count a.body.now } };

    ghost invariant = { λ a. HasParts a.count a.body.now };
}

impl<'a> RecordView<'a> {
    ghost use Rattle.std.specs.Prelude.{◌≡◌};

    /// The number of the commit.
    pub fn number(&self) -> u64
        ensures { result ≡ self.now.number }
    {
        self.number
    }

    /// 1 for a commit in the image's mode, 2 for one in the other mode.
    pub fn kind(&self) -> u8
        ensures { result ≡ self.now.kind }
    {
        self.kind
    }

    /// The parts of the record, in order.
    pub fn parts(&self) -> PartIter<'a>
        ensures { result ≡ self.now.parts }
    {
        PartIter {
            count: self.count,
            rest: self.body,
        }
    }
}

/// How many bytes have to be there for the record to be read that begins with these: its own, and the gate after it.
pub fn record_window(head: &[u8]) -> u64
    requires { 20 ≤ length head.now }
    ensures { result ≡ record_window head.now }
{
    21 + u64::from(u32_at(head, 8))
}

/// What a record says that lies at the front of the bytes. It passes each test, and none is made again.
pub fn view_record(input: &[u8]) -> RecordView<'_>
    requires { (g : Geometry) × (n : ℕ) × (fault_of g n input.now ≡ None) }
    ensures says { result ≡ recorded input.now }
    ensures values { AreBytes input.now }
{
    RecordView {
        number: u64_at(input, 12),
        kind: input[1],
        count: u32_at(input, 4),
        body: body_of(input),
    }
}

/// The body of `read_record`, apart so that the clauses on what is spelled follow from the exact ones, at one exit.
#[inline(always)]
fn record_of<'a>(
    geometry: &Geometry,
    number: u64,
    input: &'a [u8],
) -> Result<RecordView<'a>, FormatError>
    ensures found { IfOk result (λ r. (fault_of geometry.now number input.now ≡ None) × (r ≡ recorded input.now)) }
    ensures fault { IfErr result (λ e. fault_of geometry.now number input.now ≡ Some e) }
{
    if let Some(fault) = fault_of(geometry, number, input) {
        return Err(fault);
    }
    Ok(view_record(input))
}

/// The record at the front of the bytes, which go on to the end of the log. Its gate is not tested.
///
/// # Errors
///
/// The first test that the bytes fail.
#[inline(always)]
pub fn read_record<'a>(
    input: &'a [u8],
    geometry: &Geometry,
    number: u64,
) -> Result<RecordView<'a>, FormatError>
    ensures exact { IfOk result (λ r. (fault_of geometry.now number input.now ≡ None) × (r ≡ recorded input.now)) }
    ensures fault { IfErr result (λ e. fault_of geometry.now number input.now ≡ Some e) }
    // What is read is spelled so.
    ensures spelled { IfOk result (λ r. BeginsWith geometry.now number r input.now) }
    // What is spelled is read.
    ensures only { (r : Recorded) → IsTrue (is_valid geometry.now) → BeginsWith geometry.now number r input.now → result ≡ Ok r }
{
    record_of(geometry, number, input)
}
