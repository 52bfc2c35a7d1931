// The next record of a log that is opened.
ghost use Rattle.std.specs.{Prelude.{◌≡◌, ◌+◌, ◌-◌, ◌<◌, ◌≤◌, None, length, IfErr, IfOk, IfSome, IsTrue}, Option.ForSome};
ghost use Rattle.iso_model.specs.Geometry.{is_valid};
ghost use Rattle.iso_disk.specs.Disk.{WritesNothing};
ghost use Rattle.commit_gate.specs.Gate.{IsClosed};
ghost use Rattle.iso_log.specs.{Extent.next_place, Scan.{IsFirst, IsFound, StandAt}};
ghost use Rattle.iso_recover.specs.{Cause.{BlamesDisk, IsTest, opening}, Scanned.IsDamagedBy, Shape.IsShaped};

use iso_disk::Disk;
use iso_image::OpenError;
use iso_log::{Log, LogError, ReadAhead};
use iso_model::{Geometry, LAST};

fn opening(error: LogError) -> OpenError
    ensures { result ≡ opening error }
{
    match error {
        LogError::Memory => OpenError::Memory,
        LogError::Damaged { at, cause } => OpenError::Damaged { at, cause },
        LogError::Disk | LogError::LogFull { .. } => OpenError::Disk,
    }
}

/// Finds the next record of a log, as `Log::find_ahead` does, with the errors of an opening.
///
/// # Errors
///
/// - `Disk`: a call of the disk failed.
/// - `Memory`: want of memory.
/// - `Damaged`: where in the image the record is wrong, and the test that it fails.
#[inline(always)]
pub fn find_on<D: Disk>(
    disk: &mut D,
    geometry: &Geometry,
    log: &Log,
    ahead: &mut ReadAhead,
) -> Result<Option<u32>, OpenError>
    requires fits { log.now.place + log.now.room ≤ (D.state disk.old).size }
    requires left { log.now.used < log.now.room }
    requires number { log.now.last ≤ LAST }
    requires valid { IsTrue (is_valid geometry.now) }
    requires within { log.now.used + length ahead.old ≤ log.now.room }
    requires ahead { ForSome (D.state disk.old).contents (StandAt (next_place log.now) ahead.old) }
    ensures closed { IfOk result (λ found. found ≡ None → ForSome (D.state disk.old).contents (IsClosed (next_place log.now))) }
    ensures found { IfOk result (λ found. IfSome found (IsFound geometry.now (log.now.last + 1) ahead.new)) }
    ensures first { IfOk result (λ found. IfSome found (λ n. ForSome (D.state disk.old).contents (IsFirst geometry.now (next_place log.now) (log.now.room - log.now.used) (log.now.last + 1)))) }
    ensures shape { IfErr result (IsShaped (D.state disk.old).size) }
    ensures damaged { IfErr result (λ e. IsTest e → ForSome (D.state disk.old).contents (IsDamagedBy geometry.now (next_place log.now) (log.now.room - log.now.used) (log.now.last + 1) e)) }
    ensures within { log.now.used + length ahead.new ≤ log.now.room }
    ensures ahead { ForSome (D.state disk.old).contents (StandAt (next_place log.now) ahead.new) }
    ensures unwritten { WritesNothing (D.state disk.old) (D.state disk.new) }
    ensures cause { BlamesDisk (D.state disk.old).faults (D.state disk.new).faults result }
{
    match log.find_ahead(disk, geometry, ahead) {
        Ok(found) => Ok(found),
        Err(error) => Err(opening(error)),
    }
}
