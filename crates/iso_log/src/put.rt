// The bytes that follow a gate are put, and then the gate.
ghost use Rattle.std.specs.Prelude.{◌≡◌, ◌+◌, ◌≤◌, ℕ, List, length, slice_index, OnOk};
ghost use Rattle.iso_disk.specs.Disk.{IsSettled, LeavesOnly, StaysTold};
ghost use Rattle.counts.specs.Count.{HasCause};
ghost use Rattle.commit_gate.specs.Gate.{IsClosed};
ghost use Rattle.iso_log.specs.Log.{AppendedTo, AppendingFrom};

use commit_gate::{open_gate, put_body};
use iso_disk::{Disk, DiskFault};

/// Puts bytes after their closed gate and opens it. The first of them is the open gate. It makes one write, one sync, a
/// write of one byte and one sync.
///
/// # Errors
///
/// A call of the disk failed. Each image that a crash leaves has the bytes as a whole, or a closed gate.
pub fn put_group<D: Disk>(disk: &mut D, gate: u64, bytes: &[u8]) -> Result<(), DiskFault>
    requires fits { gate + length bytes.now ≤ (D.state disk.old).size }
    requires some { 1 ≤ length bytes.now }
    requires open { slice_index bytes.now 0 ≡ 1 }
    requires closed { (c : List ℕ) → (D.state disk.old).now c → IsClosed gate c }
    ensures moments { LeavesOnly (D.state disk.old) (D.state disk.new) (AppendingFrom gate bytes.now (D.state disk.old).now) }
    ensures whole { OnOk result ((c : List ℕ) → (D.state disk.new).now c → AppendedTo gate bytes.now (D.state disk.old).now c) }
    ensures settled { OnOk result (IsSettled (D.state disk.new)) }
    ensures told { OnOk result (StaysTold (D.state disk.old) (D.state disk.new)) }
    ensures cause { HasCause (D.state disk.old).faults (D.state disk.new).faults result }
{
    put_body(disk, gate, &bytes[1..])?;
    open_gate(disk, gate)
}
