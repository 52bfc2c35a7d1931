// Commits laid over the bytes of a base.
ghost use Rattle.std.specs.Prelude.{◌≡◌, ◌+◌, ◌*◌, ◌≤◌, ◌<◌, ◌^◌, length, IsTrue};
ghost use Rattle.iso_model.specs.Geometry.{is_valid};
ghost use Rattle.iso_disk.specs.Disk.{spliced};
ghost use Rattle.half_switch.specs.Laid.{LaysRecords, laid};

use iso_format::{PartIter, read_record, record_window};
use iso_model::Geometry;

// Lays the bytes of one run.
fn lay_run(into: &mut [u8], at: usize, bytes: &[u8])
    requires { at + length bytes.now ≤ length into.old }
    ensures { into.new ≡ spliced into.old at bytes.now }
{
    into[at..at + bytes.len()].copy_from_slice(bytes);
}

// Where a run is among the bytes of blocks of this size.
fn run_place(block: u32, size: u32, off: u16) -> usize
    requires { size ≤ 4096 }
    ensures place { result ≡ block * size + off }
    ensures small { result < 2 ^ 45 }
{
    block as usize * size as usize + usize::from(off)
}

// Lays runs over the bytes of blocks of this size.
fn lay_parts<'a>(into: &mut [u8], size: u32, parts: PartIter<'a>)
    requires { size ≤ 4096 }
    ensures { into.new ≡ laid size parts.entry into.old }
{
    let mut parts = parts;
    while let Some(part) = parts.next() {
        let at = run_place(part.block, size, part.off);
        if at + part.bytes.len() <= into.len() {
            lay_run(into, at, part.bytes);
        }
    }
}

/// Lays `count` records over the bytes of a base, the first of them with the number after this one. It answers how many
/// bytes they have. It ends before bytes that are no record, so what is copied from there on still has what was wrong.
pub fn lay_records(
    geometry: &Geometry,
    number: u64,
    count: u64,
    into: &mut [u8],
    log: &[u8],
) -> usize
    requires valid { IsTrue (is_valid geometry.now) }
    requires numbers { number + count < 2 ^ 64 }
    ensures { LaysRecords geometry.now number count log.now into.old into.new result }
{
    let mut at = 0;
    for i in 0..count {
        let (_, rest) = log.split_at(at);
        let Ok(record) = read_record(rest, geometry, number + 1 + i) else {
            return at;
        };
        lay_parts(into, geometry.block, record.parts());
        at += record_window(rest) as usize - 1;
    }
    at
}
