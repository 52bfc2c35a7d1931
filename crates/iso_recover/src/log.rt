// The log of an image that is opened.
ghost use Rattle.std.specs.{Prelude.{◌≡◌, ◌+◌, ◌<◌, List, Some, IfErr, IfOk}, Option.ForSome};
ghost use Rattle.iso_model.specs.Image.{Written};
ghost use Rattle.iso_disk.specs.Disk.{WritesNothing};
ghost use Rattle.iso_image.specs.{Half.HasLog, Refusal.{log_at, log_refusal}};
ghost use Rattle.iso_recover.specs.{Cause.{BlamesDisk, IsTest}, Front.IsFront, Scanned.HasRead, Shape.IsShaped};

use crate::front::Front;
use crate::scan::find_on;
use iso_disk::Disk;
use iso_image::OpenError;
use iso_log::{Log, ReadAhead};
use mv_index::MvIndex;
use std::alloc::Global;
use version_read::take_parts;

/// How many bytes of a log are read at once, which lie in a cache of the processor.
const PIECE: u32 = 1 << 17;

/// Reads the log of an image whose front was read, up to its first closed gate. It writes nothing, reads a piece of the
/// log at once, and takes memory for a piece, the longest record and the versions.
///
/// # Errors
///
/// - `Disk`: a call of the disk failed.
/// - `Memory`: want of memory.
/// - `Damaged`: where the first record that is wrong is so, and the test that it fails.
pub fn read_log<D: Disk>(
    alloc: Global,
    disk: &mut D,
    front: &Front,
) -> Result<(Log, MvIndex), OpenError>
    requires { IsFront front.now (D.state disk.old).size }
    ensures read { IfOk result (λ r. (told : List Written) × HasRead front.now told r.0 r.1
        × ForSome (D.state disk.old).contents (HasLog front.now.log front.now.geometry.log front.now.geometry (front.now.base + 1) told)) }
    ensures refused { IfErr result (λ e. IsTest e → ForSome (D.state disk.old).contents
        (λ c. log_refusal front.now.geometry front.now.log (front.now.base + 1) front.now.geometry.log (log_at front.now.geometry front.now.half c) ≡ Some e)) }
    ensures shape { IfErr result (IsShaped (D.state disk.old).size) }
    ensures unwritten { WritesNothing (D.state disk.old) (D.state disk.new) }
    ensures cause { BlamesDisk (D.state disk.old).faults (D.state disk.new).faults result }
{
    let Ok(mut index) = MvIndex::empty(alloc, front.geometry.blocks) else {
        return Err(OpenError::Memory);
    };
    let mut log = Log::start(front.log, front.geometry.log, front.base);
    let mut ahead = ReadAhead::new(alloc, PIECE);
    for _i in 0..front.geometry.log {
        let gate = front.log + u64::from(log.used());
        let size = match find_on(disk, &front.geometry, &log, &mut ahead) {
            Ok(Some(size)) => size,
            Ok(None) => return Ok((log, index)),
            Err(error) => return Err(error),
        };
        let number = log.last() + 1;
        let view = ahead.view_front(size);
        if let Err(_) = take_parts(&mut index, number, gate, &view) {
            return Err(OpenError::Memory);
        }
        log.pass(&mut ahead, size);
    }
    Ok((log, index))
}
