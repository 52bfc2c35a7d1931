// The first 64 bytes of a side.
ghost use Rattle.std.specs.Prelude.{◌≡◌, ◌≢◌, ◌+◌, ◌≤◌, length, take, drop, true, false, IfOk, IfSome, IfNone};
ghost use Rattle.iso_disk.specs.Disk.{IsSettled, WritesNothing};
ghost use Rattle.counts.specs.Count.{HasCause};
ghost use Rattle.mirror_disk.specs.{Adopting.ShowsHeader, Binding.LaysHeader, Header.{IsFramed, IsHeader, IsSlot, last_epoch, slot_epoch}, Raised.HasEpoch};

use crate::raise::ZEROS;
use crate::sides::{HEADER, LAST};
use crate::slot::{FIRST_GATE, Mark, SECOND_GATE, Slot};
use byteorder::{BigEndian, ByteOrder};
use iso_disk::{Disk, DiskFault};

/// How many bytes a header has.
const LENGTH: usize = 64;

/// What a header begins with.
const WORD: [u8; 8] = *b"ISOMIRR1";

/// Where the zeros after that word begin.
const GAP: usize = 8;

/// Where the zeros after the slots begin.
const END: usize = 48;

/// The byte of a gate that is open.
const OPEN: u8 = 1;

/// The header of a blank side: epoch 1 in the first slot.
const BLANK: [u8; LENGTH] =
    *b"ISOMIRR1\0\0\0\0\0\0\0\0\x01\0\0\0\0\0\0\0\0\0\0\0\0\0\0\x01\0\0\0\0\0\0\0\0\0\0\0\0\0\0\0\0\0\0\0\0\0\0\0\0\0\0\0\0\0\0\0\0";

/// Lays the header of a blank side, and makes it stable.
pub(crate) fn lay_header<D: Disk>(disk: &mut D) -> Result<(), DiskFault>
    requires { 64 ≤ (D.state disk.old).size }
    ensures { LaysHeader (D.state disk.old) (D.state disk.new) result }
{
    disk.write(0, &BLANK)?;
    disk.sync()
}

/// Reads the header of a side that was made stable: its epoch, and the slot that holds it. None where it is no side of a
/// mirror.
pub(crate) fn read_header<D: Disk>(disk: &mut D) -> Result<Option<Mark>, DiskFault>
    requires { IsSettled (D.state disk.old) }
    ensures unwritten { WritesNothing (D.state disk.old) (D.state disk.new) }
    ensures header { IfOk result (ShowsHeader (D.state disk.old)) }
    ensures cause { HasCause (D.state disk.old).faults (D.state disk.new).faults result }
{
    if disk.size() < HEADER {
        return Ok(None);
    }
    let mut header = [0; LENGTH];
    disk.read(0, &mut header)?;
    Ok(read_mark(&header))
}

/// The epoch in a header, and the slot that holds it, if these bytes are one.
fn read_mark(header: &[u8; 64]) -> Option<Mark>
    ensures mark { IfSome result (λ m. (m.epoch ≤ last_epoch) × HasEpoch m.slot m.epoch header.now) }
    ensures none { IfNone result (IsHeader header.now → ⊥) }
{
    if !is_framed(header) {
        return None;
    }
    let first = read_slot(header, FIRST_GATE as usize)?;
    let second = read_slot(header, SECOND_GATE as usize)?;
    if first == 0 && second == 0 {
        return None;
    }
    if first < second {
        Some(Mark {
            slot: Slot::Second,
            epoch: second,
        })
    } else {
        Some(Mark {
            slot: Slot::First,
            epoch: first,
        })
    }
}

/// Whether the bytes around the slots are those of a header.
fn is_framed(header: &[u8; 64]) -> bool
    ensures framed { result ≡ true → IsFramed header.now }
    ensures none { result ≡ false → IsHeader header.now → ⊥ }
{
    has_bytes(header, 0, &WORD)
        && has_bytes(header, GAP, &[0; 8])
        && has_bytes(header, END, &[0; LENGTH - END])
}

/// The epoch in a slot, 0 where it is closed. None where it is no slot.
fn read_slot(header: &[u8; 64], gate: usize) -> Option<u64>
    requires { gate + 16 ≤ 64 }
    ensures slot { IfSome result (λ e. IsSlot gate header.now × (slot_epoch gate header.now ≡ e) × (e ≤ last_epoch)) }
    ensures none { IfNone result (IsSlot gate header.now → ⊥) }
{
    if header[gate] != OPEN {
        return Some(0);
    }
    if !has_bytes(header, gate + 1, &[0; ZEROS]) {
        return None;
    }
    let epoch = BigEndian::read_u64(&header[gate + 8..]);
    if epoch == 0 || epoch > LAST {
        return None;
    }
    Some(epoch)
}

/// Whether these bytes are there.
fn has_bytes(header: &[u8; 64], at: usize, bytes: &[u8]) -> bool
    requires { at + length bytes.now ≤ 64 }
    ensures has { result ≡ true → take (length bytes.now) (drop at header.now) ≡ bytes.now }
    ensures not { result ≡ false → take (length bytes.now) (drop at header.now) ≢ bytes.now }
{
    header[at..].starts_with(bytes)
}
