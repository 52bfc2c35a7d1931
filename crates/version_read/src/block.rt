// A block, read by its versions.
ghost use Rattle.std.specs.{Prelude.{◌≡◌, ◌+◌, ◌-◌, ◌<◌, ◌≤◌, ◌++◌, ◌||◌, ℕ, IfOk, OnOk, [], ◌∷◌, count_by, drop, length, not, slice_index_or, take, true}, List.{range_with_len, slice_range}, Option.ForSome};
ghost use Rattle.iso_disk.specs.Disk.{WritesNothing};
ghost use Rattle.counts.specs.Count.{HasCause};
ghost use Rattle.mv_index.specs.{Masks.is_seen, Shown.{AllLie, Lies}, Versions.{in_bytes, no_version}};
ghost use Rattle.version_read.specs.{Blocks.{IsLaidIn, IsOver, IsOverIn}, Fills.IsFilled};

use iso_disk::{Disk, DiskFault};
use merge_write::{next_place, set_bits};
use mv_index::Version;

/// Reads `len` bytes of the image into the front of a slice.
fn read_front<D: Disk>(
    disk: &mut D,
    place: u64,
    len: usize,
    into: &mut [u8],
) -> Result<(), DiskFault>
    requires inside { place + len ≤ (D.state disk.old).size }
    requires fits { len ≤ length into.old }
    ensures bytes { OnOk result (ForSome (D.state disk.old).contents (λ c. into.new ≡ slice_range c place (place + len) ++ drop len into.old)) }
    ensures unwritten { WritesNothing (D.state disk.old) (D.state disk.new) }
    ensures cause { HasCause (D.state disk.old).faults (D.state disk.new).faults result }
{
    let (part, _) = into.split_at_mut(len);
    disk.read(place, part)
}

/// Reads `len` bytes of the image into a part of a block.
fn read_part<D: Disk>(
    disk: &mut D,
    place: u64,
    off: usize,
    len: usize,
    into: &mut [u8],
) -> Result<(), DiskFault>
    requires inside { place + len ≤ (D.state disk.old).size }
    requires fits { off + len ≤ length into.old }
    ensures bytes { OnOk result (ForSome (D.state disk.old).contents (λ c. into.new ≡ take off into.old ++ (slice_range c place (place + len) ++ drop len (drop off into.old)))) }
    ensures unwritten { WritesNothing (D.state disk.old) (D.state disk.new) }
    ensures cause { HasCause (D.state disk.old).faults (D.state disk.new).faults result }
{
    let (_, rest) = into.split_at_mut(off);
    read_front(disk, place, len, rest)
}

/// Reads those bytes of a part that were not seen, one read a stretch, and marks all of them as seen. It answers how many it read.
fn fill<D: Disk>(
    disk: &mut D,
    place: u64,
    off: usize,
    len: usize,
    seen: &mut [u64],
    into: &mut [u8],
) -> Result<usize, DiskFault>
    requires inside { place + len ≤ (D.state disk.old).size }
    requires fits { off + len ≤ length into.old }
    requires size { length into.old ≤ 4096 }
    requires mask { length seen.old ≡ 64 }
    ensures bytes { OnOk result (ForSome (D.state disk.old).contents (λ c. IsFilled c place off len seen.old into.old into.new)) }
    ensures marked { OnOk result ((p : ℕ) → p < 4096 → is_seen seen.new p ≡ (in_bytes off len p || is_seen seen.old p)) }
    ensures count { IfOk result (λ count. count ≡ count_by (λ p. not (is_seen seen.old p)) (range_with_len off len)) }
    ensures unwritten { WritesNothing (D.state disk.old) (D.state disk.new) }
    ensures cause { HasCause (D.state disk.old).faults (D.state disk.new).faults result }
{
    let end = off + len;
    let mut at = next_place(seen, off, end, false);
    let mut count = 0;
    while at < end {
        let to = next_place(seen, at, end, true);
        if let Err(fault) = read_part(disk, place + (at - off) as u64, at, to - at, into) {
            return Err(fault);
        }
        count += to - at;
        at = next_place(seen, to, end, false);
    }
    set_bits(seen, off, end);
    Ok(count)
}

/// Reads those bytes of a version that are from one of the block up to another, into their place in it.
fn lay_one<D: Disk>(
    disk: &mut D,
    version: &Version,
    from: usize,
    to: usize,
    into: &mut [u8],
) -> Result<(), DiskFault>
    requires range { to ≤ length into.old }
    requires version { Lies (length into.old) (D.state disk.old).size version.now }
    ensures bytes { OnOk result (ForSome (D.state disk.old).contents (λ c. IsLaidIn from to c (version.now ∷ []) into.old into.new)) }
    ensures unwritten { WritesNothing (D.state disk.old) (D.state disk.new) }
    ensures cause { HasCause (D.state disk.old).faults (D.state disk.new).faults result }
{
    let off = version.off as usize;
    let first = from.max(off);
    let last = to.min(off + version.len as usize);
    if first >= last {
        return Ok(());
    }
    let place = version.place + (first - off) as u64;
    read_part(disk, place, first, last - first, into)?;
    Ok(())
}

/// Lays each version over the range, from the oldest on, with one read each.
fn lay_over<D: Disk>(
    disk: &mut D,
    versions: &[Version],
    from: usize,
    to: usize,
    into: &mut [u8],
) -> Result<(), DiskFault>
    requires range { to ≤ length into.old }
    requires versions { AllLie (length into.old) (D.state disk.old).size versions.now }
    ensures bytes { OnOk result (ForSome (D.state disk.old).contents (λ c. IsLaidIn from to c versions.now into.old into.new)) }
    ensures unwritten { WritesNothing (D.state disk.old) (D.state disk.new) }
    ensures cause { HasCause (D.state disk.old).faults (D.state disk.new).faults result }
{
    for version in versions {
        if let Err(fault) = lay_one(disk, version, from, to, into) {
            return Err(fault);
        }
    }
    Ok(())
}

/// Whether the first of the versions has all bytes of a block from one up to another.
fn is_whole(versions: &[Version], from: usize, to: usize) -> bool
    ensures { result ≡ true → (0 < length versions.now) × ((slice_index_or versions.now 0 no_version).off ≤ from) × (to ≤ (slice_index_or versions.now 0 no_version).off + (slice_index_or versions.now 0 no_version).len) }
{
    match versions.first() {
        Some(version) => {
            let off = version.off as usize;
            off <= from && to <= off + version.len as usize
        }
        None => false,
    }
}

/// Reads the bytes of a block from one up to another, whose base bytes are at a place, with its versions over them: the
/// base bytes, and then what each version has of the range, from the oldest on, one read each. So it is meant for few
/// versions that hide nothing of each other; where the first one has the whole range, the base bytes are not read. The
/// slice is as long as the block, and its other bytes stay. It takes no memory and writes nothing.
///
/// # Errors
///
/// A read failed. Any bytes may be in the slice.
pub fn read_pieces<D: Disk>(
    disk: &mut D,
    base: u64,
    versions: &[Version],
    from: usize,
    to: usize,
    into: &mut [u8],
) -> Result<(), DiskFault>
    requires order { from ≤ to }
    requires range { to ≤ length into.old }
    requires base { base + length into.old ≤ (D.state disk.old).size }
    requires versions { AllLie (length into.old) (D.state disk.old).size versions.now }
    ensures bytes { OnOk result (ForSome (D.state disk.old).contents (λ c. IsOverIn from to c base versions.now into.new)) }
    ensures unwritten { WritesNothing (D.state disk.old) (D.state disk.new) }
    ensures cause { HasCause (D.state disk.old).faults (D.state disk.new).faults result }
{
    if is_whole(versions, from, to) {
        return lay_over(disk, versions, from, to, into);
    }
    if let Err(fault) = read_part(disk, base + from as u64, from, to - from, into) {
        return Err(fault);
    }
    lay_over(disk, versions, from, to, into)
}

/// Reads a block of at most 4,096 bytes, whose base bytes are at a place, with its versions over them: from the newest
/// version back, of each those bytes that no later one has, and then the base bytes that none has. Each stretch of
/// bytes is one read, straight into its place. It takes no memory and writes nothing.
///
/// # Errors
///
/// A read failed. Any bytes may be in the slice.
pub fn read_block<D: Disk>(
    disk: &mut D,
    base: u64,
    versions: &[Version],
    into: &mut [u8],
) -> Result<(), DiskFault>
    requires size { length into.old ≤ 4096 }
    requires base { base + length into.old ≤ (D.state disk.old).size }
    requires versions { AllLie (length into.old) (D.state disk.old).size versions.now }
    ensures bytes { OnOk result (ForSome (D.state disk.old).contents (λ c. IsOver c base versions.now into.new)) }
    ensures unwritten { WritesNothing (D.state disk.old) (D.state disk.new) }
    ensures cause { HasCause (D.state disk.old).faults (D.state disk.new).faults result }
{
    let mut seen = [0; 64];
    let size = into.len();
    let mut wanted = size;
    let mut left = versions.len();
    while left > 0 && wanted > 0 {
        left -= 1;
        let version = versions[left];
        let Ok(count) = fill(
            disk,
            version.place,
            version.off as usize,
            version.len as usize,
            &mut seen,
            into,
        ) else {
            return Err(DiskFault);
        };
        wanted -= count;
    }
    if wanted > 0 {
        if let Err(fault) = fill(disk, base, 0, size, &mut seen, into) {
            return Err(fault);
        }
    }
    Ok(())
}
