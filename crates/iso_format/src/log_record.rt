// The record of a commit.
ghost use Rattle.std.specs.Prelude.{◌≡◌, ◌⊎◌, ◌<◌, ◌≤◌, ◌^◌, ◌-◌, min, length, IfOk, vec_len};
ghost use Rattle.iso_model.specs.{Effect.record_length, Image.{body_length, spell}};
ghost use Rattle.iso_format.specs.Writing.{LieInAnImage};

use crate::record_buffer::RecordBuffer;
use iso_model::{LAST, Memory, PartList, Run};
use std::alloc::Global;

/// How many bytes of a record come before its parts.
pub const HEAD: usize = 20;

fn body_length(parts: &[Run]) -> u64
    ensures { result ≡ min (body_length parts.now) (2 ^ 64 - 1) }
{
    let mut total: u64 = 0;
    for run in parts {
        total = total
            .saturating_add(8)
            .saturating_add(run.bytes.len() as u64);
    }
    total
}

/// How many bytes the record of these parts has, as far as a `u64` counts.
pub fn record_length(parts: &PartList) -> u64
    ensures { result ≡ min (record_length parts.now) (2 ^ 64 - 1) }
{
    body_length(parts.as_slice()).saturating_add(HEAD as u64)
}

/// The record of commit `number`, with an open gate. Its kind, 1 or 2, gives the commit's mode.
///
/// # Errors
///
/// Want of memory.
pub fn write_record(
    alloc: Global,
    number: u64,
    kind: u8,
    parts: &PartList,
) -> Result<Vec<u8>, Memory>
    requires number { number ≤ LAST }
    requires kind { (kind ≡ 1) ⊎ (kind ≡ 2) }
    requires some { 0 < length parts.now }
    requires runs { LieInAnImage parts.now }
    ensures bytes { IfOk result (λ v. v.items ≡ spell 1 kind number parts.now) }
    ensures length { IfOk result (λ v. vec_len v ≡ record_length parts.now) }
{
    let mut buffer = RecordBuffer::new(alloc)?;
    for run in parts.as_slice() {
        buffer.push_part(run.block, run.off, run.bytes.as_slice())?;
    }
    buffer.finish(number, kind)?;
    Ok(buffer.into_records())
}
