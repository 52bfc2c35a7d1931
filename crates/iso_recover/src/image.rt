// An image that is read to be opened.
ghost use Rattle.std.specs.{Prelude.{◌≡◌, ◌⊎◌, Some, IfErr, IfOk, IsErrOf}, Option.ForSome};
ghost use Rattle.iso_model.specs.History.{History};
ghost use Rattle.iso_disk.specs.Disk.{IsSettled, WritesNothing};
ghost use Rattle.iso_image.specs.Refusal.{refusal};
ghost use Rattle.iso_recover.specs.{Cause.{BlamesDisk, IsTest}, Opened.IsOpened, Shape.IsShaped};

use crate::front::read_front;
use crate::log::read_log;
use iso_core::Opened;
use iso_disk::Disk;
use iso_format::RecordBuffer;
use iso_image::OpenError;
use std::alloc::Global;

/// Reads an image that is opened. It begins with a sync, writes nothing, and reads the front and then the log; it takes
/// memory in proportion to the parts of records. After any answer but a fault of the disk, each image that a crash may
/// leave is what a read gives.
///
/// # Errors
///
/// - `Disk`: a call of the disk failed.
/// - `Memory`: want of memory.
/// - Any other: the first test that the image fails.
pub fn read_image<D: Disk>(alloc: Global, disk: &mut D) -> Result<Opened, OpenError>
    ensures opened { IfOk result (λ o. (H : History) × IsOpened o H (D.state disk.new)) }
    ensures refused { IfErr result (λ e. IsTest e → ForSome (D.state disk.old).contents (λ c. refusal c ≡ Some e)) }
    ensures shape { IfErr result (IsShaped (D.state disk.old).size) }
    ensures settled { IsErrOf result OpenError.Disk ⊎ IsSettled (D.state disk.new) }
    ensures unwritten { WritesNothing (D.state disk.old) (D.state disk.new) }
    ensures cause { BlamesDisk (D.state disk.old).faults (D.state disk.new).faults result }
{
    let front = match read_front(disk) {
        Ok(front) => front,
        Err(error) => return Err(error),
    };
    let Ok(buffer) = RecordBuffer::new(alloc) else {
        return Err(OpenError::Memory);
    };
    match read_log(alloc, disk, &front) {
        Ok((log, index)) => Ok(Opened {
            geometry: front.geometry,
            half: front.half,
            generation: front.generation,
            base: front.base,
            log,
            index,
            buffer,
        }),
        Err(error) => Err(error),
    }
}
