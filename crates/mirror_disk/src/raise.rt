// Raising the epoch of a side.
ghost use Rattle.std.specs.Prelude.{◌≡◌};
ghost use Rattle.mirror_disk.specs.{Header.slot_body, Raised.{Follows, HasGate, RaisesTo, ShutsGate}};

use crate::slot::Slot;
use commit_gate::{open_gate, put_body, shut_gate, stands_closed};
use iso_disk::{Disk, DiskFault};

/// How many zeros are between a gate and its epoch.
pub(crate) const ZEROS: usize = 7;

/// How many bytes come after a gate.
const BODY: usize = 15;

/// Puts an epoch into the slot that does not hold the one so far, and opens its gate.
pub(crate) fn raise_epoch<D: Disk>(disk: &mut D, slot: Slot, next: u64) -> Result<(), DiskFault>
    requires { Follows slot next (D.state disk.old) }
    ensures { RaisesTo slot next (D.state disk.old) (D.state disk.new) result }
{
    let gate = slot.other().place();
    shut_slot(disk, slot, gate)?;
    put_body(disk, gate, &spell(next))?;
    open_gate(disk, gate)
}

/// Shuts the gate of the slot that is not this one, where it is open.
fn shut_slot<D: Disk>(disk: &mut D, slot: Slot, gate: u64) -> Result<(), DiskFault>
    requires { HasGate (D.state disk.old) slot gate }
    ensures { ShutsGate slot gate (D.state disk.old) (D.state disk.new) result }
{
    if stands_closed(disk, gate)? {
        return Ok(());
    }
    shut_gate(disk, gate)
}

/// What comes after the gate of a slot: seven zeros, and the epoch.
fn spell(epoch: u64) -> [u8; 15]
    ensures { result ≡ slot_body epoch }
{
    let mut body = [0; BODY];
    body[ZEROS..].copy_from_slice(&epoch.to_be_bytes());
    body
}
