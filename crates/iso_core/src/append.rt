// Records of commits, appended to the log.
ghost use Rattle.std.specs.Prelude.{◌≡◌, OnErr};
ghost use Rattle.counts.specs.Count.{HasCause};
ghost use Rattle.iso_core.specs.Ends.{Appends, HasNextRecords};

use iso_disk::{Disk, DiskFault};
use iso_log::Log;

/// Appends records, one or more, with a closed gate after them, to the log of a core: at each moment an image has all of them
/// or none. It answers the place of the first gate.
pub(crate) fn append<D: Disk>(log: &mut Log, disk: &mut D, bytes: &[u8]) -> Result<u64, DiskFault>
    requires { HasNextRecords (D.state disk.old) log.old bytes.now }
    ensures appended { (n : HasNextRecords (D.state disk.old) log.old bytes.now) → Appends (D.state disk.old) (D.state disk.new) log.new n.kept.half n.world n.more result }
    ensures kept { OnErr result (log.new ≡ log.old) }
    ensures cause { HasCause (D.state disk.old).faults (D.state disk.new).faults result }
{
    match log.append_group(disk, bytes) {
        Ok(gate) => Ok(gate),
        Err(_) => Err(DiskFault),
    }
}
