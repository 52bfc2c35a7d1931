// An image that is made over a blank disk.
ghost use Rattle.std.specs.Prelude.{◌≡◌, ◌≤◌, ℕ, List, length, replicate, IsTrue, OnOk};
ghost use Rattle.iso_model.specs.Geometry.{image_size, is_valid};
ghost use Rattle.iso_disk.specs.Disk.{IsSettled, LeavesOnly, StaysTold};
ghost use Rattle.counts.specs.Count.{HasCause};
ghost use Rattle.commit_gate.specs.Gate.{IsClosed};
ghost use Rattle.iso_recover.specs.Made.{HoldsNothing, IsUnmadeOrEmpty, staged};

use commit_gate::open_gate;
use iso_disk::{Disk, DiskFault};
use iso_format::{HalfHeader, write_half, write_super};
use iso_model::Geometry;

/// The gate of the superblock, which is its last byte.
const GATE: u64 = 63;

/// Writes an image of the geometry's form on which nothing was committed over a blank disk. It makes five calls of the
/// disk: it writes the superblock but for its gate and the header of the first half, syncs, writes the gate, and syncs.
///
/// # Errors
///
/// A call of the disk failed. Each image that a crash leaves is refused as none of this project, or holds no commit.
pub fn put_front<D: Disk>(disk: &mut D, geometry: &Geometry) -> Result<(), DiskFault>
    requires valid { IsTrue (is_valid geometry.now) }
    requires size { (D.state disk.old).size ≡ image_size geometry.now }
    requires blank { (c : List ℕ) → (D.state disk.old).now c → c ≡ replicate (D.state disk.old).size 0 }

    // At each moment an image is refused as none of this project, or holds the empty history.
    ensures moments { LeavesOnly (D.state disk.old) (D.state disk.new) (IsUnmadeOrEmpty geometry.now) }

    ensures made { OnOk result ((c : List ℕ) → (D.state disk.new).now c → HoldsNothing geometry.now c) }
    ensures settled { OnOk result (IsSettled (D.state disk.new)) }
    ensures told { OnOk result (StaysTold (D.state disk.old) (D.state disk.new)) }
    ensures cause { HasCause (D.state disk.old).faults (D.state disk.new).faults result }
{
    let mut superblock = [0; 64];
    write_super(geometry, &mut superblock);
    let mut header = [0; 32];
    write_half(
        &HalfHeader {
            gate: 1,
            form: geometry.form,
            generation: 1,
            base: 0,
            clean: true,
        },
        &mut header,
    );
    let (front, _) = superblock.split_at(63);
    stage(disk, front, &header)?;
    open_gate(disk, GATE)
}

// Writes all of a new image but its gate, and makes it stable: until then each image is refused.
fn stage<D: Disk>(disk: &mut D, front: &[u8], header: &[u8]) -> Result<(), DiskFault>
    requires front { length front.now ≡ 63 }
    requires header { length header.now ≡ 32 }
    requires size { 96 ≤ (D.state disk.old).size }
    requires blank { (c : List ℕ) → (D.state disk.old).now c → c ≡ replicate (D.state disk.old).size 0 }
    ensures closed { LeavesOnly (D.state disk.old) (D.state disk.new) (IsClosed 63) }
    ensures whole { OnOk result ((c : List ℕ) → (D.state disk.new).now c → c ≡ staged front.now header.now (D.state disk.old).size) }
    ensures settled { OnOk result (IsSettled (D.state disk.new)) }
    ensures told { OnOk result (StaysTold (D.state disk.old) (D.state disk.new)) }
    ensures cause { HasCause (D.state disk.old).faults (D.state disk.new).faults result }
{
    disk.write(0, front)?;
    disk.write(64, header)?;
    disk.sync()
}
