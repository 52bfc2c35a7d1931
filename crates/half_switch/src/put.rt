// The bytes of a half that follow its gate.
ghost use Rattle.std.specs.Prelude.{◌≡◌, ◌+◌, ◌≤◌, ℕ, List, length, OnOk};
ghost use Rattle.half_switch.specs.Put.{HasRoom, IsPut, WritesHalf};

use iso_disk::{Disk, DiskFault};
use iso_image::HalfPlace;

/// Writes the base, the header but for its gate, and the records, and syncs.
///
/// # Errors
///
/// A call of the disk failed. The half may have any bytes after its gate.
pub fn put_half<D: Disk>(
    disk: &mut D,
    to: &HalfPlace,
    header: &[u8],
    base: &[u8],
    records: &[u8],
) -> Result<(), DiskFault>
    requires header { length header.now ≡ 32 }
    requires room { HasRoom to.now (length base.now) (length records.now) (D.state disk.old).size }
    ensures writes { (n : ℕ) → to.now.log + length records.now ≤ to.now.header + 1 + n → WritesHalf (D.state disk.old) (D.state disk.new) to.now.header n result }
    ensures put { OnOk result ((c : List ℕ) → (D.state disk.new).now c → IsPut to.now header.now base.now records.now (D.state disk.old).contents c) }
{
    disk.write(to.base, base)?;
    disk.write(to.header + 1, &header[1..])?;
    disk.write(to.log, records)?;
    disk.sync()
}
