// Each call makes the device calls that its docs name, and no other.
ghost use Rattle.std.specs.{Prelude.{◌≡◌, ◌+◌, ◌<◌, ◌≤◌, ◌↔◌, [], ◌∷◌, ℕ, List, length, slice_index, false, IsTrue, OnOk, OnErr, IfOk}, Option.ForSome};
ghost use Rattle.iso_disk.specs.Disk.{Splices, TornFrom, TellsTorn, IsSettled, LeavesOnly, WritesNothing};
ghost use Rattle.counts.specs.Count.{HasCause};
ghost use Rattle.commit_gate.specs.Gate.{IsOpen, IsClosed, HasBody};

use iso_disk::{Disk, DiskFault};

const OPEN: u8 = 1;

const CLOSED: u8 = 0;

/// Puts a body after a closed gate: writes it from `gate + 1` on, and syncs.
///
/// # Errors
///
/// A call of the disk failed. The body's range may have any bytes, on the disk and in an image; the gate is closed.
pub fn put_body<D: Disk>(disk: &mut D, gate: u64, body: &[u8]) -> Result<(), DiskFault>
    requires fits { gate + 1 + length body.now ≤ (D.state disk.old).size }
    requires closed { (c : List ℕ) → (D.state disk.old).now c → IsClosed gate c }

    // At each moment an image is one from before the call, with any bytes in the body's range; so the gate is closed.
    ensures moments { LeavesOnly (D.state disk.old) (D.state disk.new) (TornFrom (gate + 1) (length body.now) (D.state disk.old).now) }
    ensures closed { LeavesOnly (D.state disk.old) (D.state disk.new) (IsClosed gate) }

    ensures body { OnOk result ((c : List ℕ) → (D.state disk.new).now c → HasBody gate body.now c) }
    ensures written { OnOk result (Splices (gate + 1) body.now (D.state disk.old) (D.state disk.new)) }
    ensures settled { OnOk result (IsSettled (D.state disk.new)) }

    ensures failed { OnErr result (TellsTorn (gate + 1) (length body.now) (D.state disk.old) (D.state disk.new)) }
    ensures cause { HasCause (D.state disk.old).faults (D.state disk.new).faults result }
{
    put_down(disk, gate + 1, body)
}

/// Opens a gate: writes the byte 1, and syncs.
///
/// # Errors
///
/// A call of the disk failed. The gate may have any byte, on the disk and in an image.
pub fn open_gate<D: Disk>(disk: &mut D, gate: u64) -> Result<(), DiskFault>
    requires { gate < (D.state disk.old).size }

    // At each moment an image is one from before the call, but for the gate byte.
    ensures moments { LeavesOnly (D.state disk.old) (D.state disk.new) (TornFrom gate 1 (D.state disk.old).now) }

    ensures open { OnOk result ((c : List ℕ) → (D.state disk.new).now c → IsOpen gate c) }
    ensures written { OnOk result (Splices gate (1 ∷ []) (D.state disk.old) (D.state disk.new)) }
    ensures settled { OnOk result (IsSettled (D.state disk.new)) }

    ensures failed { OnErr result (TellsTorn gate 1 (D.state disk.old) (D.state disk.new)) }
    ensures cause { HasCause (D.state disk.old).faults (D.state disk.new).faults result }
{
    put_down(disk, gate, &[OPEN])
}

/// Shuts a gate: writes the byte 0, and syncs.
///
/// # Errors
///
/// A call of the disk failed. The gate may have any byte, on the disk and in an image.
pub fn shut_gate<D: Disk>(disk: &mut D, gate: u64) -> Result<(), DiskFault>
    requires { gate < (D.state disk.old).size }

    // At each moment an image is one from before the call, but for the gate byte.
    ensures moments { LeavesOnly (D.state disk.old) (D.state disk.new) (TornFrom gate 1 (D.state disk.old).now) }

    ensures shut { OnOk result ((c : List ℕ) → (D.state disk.new).now c → slice_index c gate ≡ 0) }
    ensures written { OnOk result (Splices gate (0 ∷ []) (D.state disk.old) (D.state disk.new)) }
    ensures settled { OnOk result (IsSettled (D.state disk.new)) }

    ensures failed { OnErr result (TellsTorn gate 1 (D.state disk.old) (D.state disk.new)) }
    ensures cause { HasCause (D.state disk.old).faults (D.state disk.new).faults result }
{
    put_down(disk, gate, &[CLOSED])
}

/// Whether a gate is closed: reads its byte, and writes nothing.
///
/// # Errors
///
/// The disk failed.
pub fn stands_closed<D: Disk>(disk: &mut D, gate: u64) -> Result<bool, DiskFault>
    requires { gate < (D.state disk.old).size }
    ensures closed { IfOk result (λ closed. ForSome (D.state disk.old).contents (λ c. IsTrue closed ↔ IsClosed gate c)) }
    ensures open { IfOk result (λ closed. ForSome (D.state disk.old).contents (λ c. (closed ≡ false) ↔ IsOpen gate c)) }
    ensures unwritten { WritesNothing (D.state disk.old) (D.state disk.new) }
    ensures cause { HasCause (D.state disk.old).faults (D.state disk.new).faults result }
{
    let mut byte = [CLOSED];
    disk.read(gate, &mut byte)?;
    Ok(byte[0] != OPEN)
}

// Writes bytes and makes them stable.
fn put_down<D: Disk>(disk: &mut D, at: u64, bytes: &[u8]) -> Result<(), DiskFault>
    requires { at + length bytes.now ≤ (D.state disk.old).size }
    ensures moments { LeavesOnly (D.state disk.old) (D.state disk.new) (TornFrom at (length bytes.now) (D.state disk.old).now) }
    ensures written { OnOk result (Splices at bytes.now (D.state disk.old) (D.state disk.new)) }
    ensures settled { OnOk result (IsSettled (D.state disk.new)) }
    ensures failed { OnErr result (TellsTorn at (length bytes.now) (D.state disk.old) (D.state disk.new)) }
    ensures cause { HasCause (D.state disk.old).faults (D.state disk.new).faults result }
{
    disk.write(at, bytes)?;
    disk.sync()
}
