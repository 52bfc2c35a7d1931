// The tests of a record's bytes, in their order.
ghost use Rattle.std.specs.Prelude.{◌≡◌, ◌+◌, ◌≤◌, ◌<◌, ◌^◌, None, length, IfNone};
ghost use Rattle.iso_format.specs.Records.{body_of, fault_of, follows, head_fault, lies_in, number_fault, part_end, part_fault, part_size, parts_fault, record_window};

use crate::format_error::FormatError;
use crate::log_record::HEAD;
use crate::numbers::{u16_at, u32_at, u64_at};
use iso_model::{Geometry, LAST};

/// How many bytes of a part come before those of its run.
pub const PART_HEAD: usize = 8;

/// How many bytes the part has that a body begins with.
pub fn part_size(body: &[u8]) -> usize
    requires { 8 ≤ length body.now }
    ensures { result ≡ part_size body.now }
{
    PART_HEAD + usize::from(u16_at(body, 6))
}

fn part_end(body: &[u8]) -> (u32, u32)
    requires { 8 ≤ length body.now }
    ensures { result ≡ part_end body.now }
{
    let end = u32::from(u16_at(body, 4)) + u32::from(u16_at(body, 6));
    (u32_at(body, 0), end)
}

fn follows(before: Option<(u32, u32)>, body: &[u8]) -> bool
    requires { 8 ≤ length body.now }
    ensures { result ≡ follows before body.now }
{
    match before {
        None => true,
        Some((block, end)) => {
            block < u32_at(body, 0)
                || (block == u32_at(body, 0) && end < u32::from(u16_at(body, 4)))
        }
    }
}

fn lies_in(geometry: &Geometry, body: &[u8]) -> bool
    requires { 8 ≤ length body.now }
    ensures { result ≡ lies_in geometry.now body.now }
{
    let (block, end) = part_end(body);
    block < geometry.blocks && u16_at(body, 6) >= 1 && end <= geometry.block
}

fn part_fault(
    geometry: &Geometry,
    before: Option<(u32, u32)>,
    at: u64,
    body: &[u8],
) -> Option<FormatError>
    ensures { result ≡ part_fault geometry.now before at body.now }
{
    if body.len() < PART_HEAD {
        Some(FormatError::Length(at))
    } else if !follows(before, body) {
        Some(FormatError::Order(at))
    } else if !lies_in(geometry, body) {
        Some(FormatError::Range(at))
    } else if body.len() < part_size(body) {
        Some(FormatError::Length(at))
    } else {
        None
    }
}

#[tactic(auto, unfolding(crate::specs::Records::parts_fault))]
fn parts_fault(geometry: &Geometry, count: u32, body: &[u8]) -> Option<FormatError>
    requires { length body.now < 2 ^ 32 }
    ensures { result ≡ parts_fault geometry.now None 20 count body.now }
{
    let mut before = None;
    let mut at = HEAD as u64;
    let mut rest = body;
    for _ in 0..count {
        if let Some(fault) = part_fault(geometry, before, at, rest) {
            return Some(fault);
        }
        let size = part_size(rest);
        before = Some(part_end(rest));
        at += size as u64;
        let (_, after) = rest.split_at(size);
        rest = after;
    }
    if rest.is_empty() {
        None
    } else {
        Some(FormatError::Length(at))
    }
}

fn head_fault(geometry: &Geometry, input: &[u8]) -> Option<FormatError>
    ensures same { result ≡ head_fault geometry.now input.now }
    ensures long { IfNone result (record_window input.now ≤ length input.now) }
{
    if input.len() < HEAD {
        return Some(FormatError::Short(0));
    }
    let kind = input[1];
    let count = u64::from(u32_at(input, 4));
    let length = u64::from(u32_at(input, 8));
    if (input.len() as u64) < 21 + length {
        Some(FormatError::Short(8))
    } else if !(kind == 1 || (kind == 2 && geometry.form == 2)) {
        Some(FormatError::Kind(1))
    } else if input[2] != 0 {
        Some(FormatError::NotZero(2))
    } else if input[3] != 0 {
        Some(FormatError::NotZero(3))
    } else if count == 0 || length < 9 * count {
        Some(FormatError::Count(4))
    } else {
        None
    }
}

fn number_fault(number: u64, input: &[u8]) -> Option<FormatError>
    requires { 20 ≤ length input.now }
    ensures { result ≡ number_fault number input.now }
{
    if u64_at(input, 12) == number && number <= LAST {
        None
    } else {
        Some(FormatError::Number(12))
    }
}

/// The parts of a record whose length is known to fit.
pub fn body_of(input: &[u8]) -> &[u8]
    requires { record_window input.now ≤ length input.now }
    ensures same { result.now ≡ body_of input.now }
    ensures short { length result.now < 2 ^ 32 }
{
    let length = u32_at(input, 8) as usize;
    let (_, rest) = input.split_at(HEAD);
    let (body, _) = rest.split_at(length);
    body
}

/// The first test that the bytes fail as the record with this number.
#[inline(always)]
#[tactic(auto, unfolding(crate::specs::Records::fault_of))]
pub fn fault_of(geometry: &Geometry, number: u64, input: &[u8]) -> Option<FormatError>
    ensures same { result ≡ fault_of geometry.now number input.now }
    ensures long { IfNone result (record_window input.now ≤ length input.now) }
{
    if let Some(fault) = head_fault(geometry, input) {
        return Some(fault);
    }
    let count = u32_at(input, 4);
    if let Some(fault) = parts_fault(geometry, count, body_of(input)) {
        return Some(fault);
    }
    number_fault(number, input)
}
