// The front of an image: its geometry, and what its current half says.
ghost use Rattle.std.specs.{Prelude.{◌≡◌, ◌≢◌, ◌⊎◌, Some, IfErr, IfOk, IsErrOf}, Option.ForSome};
ghost use Rattle.iso_disk.specs.Disk.{IsSettled, WritesNothing};
ghost use Rattle.iso_image.specs.Refusal.{refusal};
ghost use Rattle.iso_recover.specs.{Cause.{BlamesDisk, IsTest}, Front.{HasFront, IsFront}, Shape.IsShaped};

use crate::halves::current_front;
use crate::superblock::{read_bytes, read_geometry};
use iso_disk::Disk;
use iso_image::{OpenError, half_size};
use iso_model::Geometry;

/// What the front of an image says: its geometry, with the form of its current half; which half that is, 0 or 1; the
/// generation of this half, the number of its base, and where its log begins.
#[derive(Clone, Copy)]
pub struct Front {
    pub geometry: Geometry,
    pub half: u8,
    pub generation: u64,
    pub base: u64,
    pub log: u64,
}

/// Reads the front of an image, or finds the first test that it fails before its log. It begins with a sync, makes
/// three reads, writes nothing and takes no memory. After any answer but a fault of the disk, each image that a crash
/// may leave is what a read gives.
///
/// # Errors
///
/// - `Disk`: a call of the disk failed.
/// - Any other but `Memory`: the first test that the image fails.
pub fn read_front<D: Disk>(disk: &mut D) -> Result<Front, OpenError>
    ensures front { IfOk result (λ f. IsFront f (D.state disk.old).size) }
    ensures told { IfOk result (λ f. ForSome (D.state disk.old).contents (HasFront f)) }
    ensures refused { IfErr result (λ e. IsTest e → ForSome (D.state disk.old).contents (λ c. refusal c ≡ Some e)) }
    ensures shape { IfErr result (IsShaped (D.state disk.old).size) }
    ensures settled { IsErrOf result OpenError.Disk ⊎ IsSettled (D.state disk.new) }
    ensures unwritten { WritesNothing (D.state disk.old) (D.state disk.new) }
    ensures cause { BlamesDisk (D.state disk.old).faults (D.state disk.new).faults result }
    ensures no_memory { IfErr result (λ e. e ≢ OpenError.Memory) }
{
    if let Err(_) = disk.sync() {
        return Err(OpenError::Disk);
    }
    find_front(disk)
}

fn find_front<D: Disk>(disk: &mut D) -> Result<Front, OpenError>
    ensures front { IfOk result (λ f. IsFront f (D.state disk.old).size) }
    ensures told { IfOk result (λ f. ForSome (D.state disk.old).contents (HasFront f)) }
    ensures refused { IfErr result (λ e. IsTest e → ForSome (D.state disk.old).contents (λ c. refusal c ≡ Some e)) }
    ensures shape { IfErr result (IsShaped (D.state disk.old).size) }
    ensures unwritten { WritesNothing (D.state disk.old) (D.state disk.new) }
    ensures cause { BlamesDisk (D.state disk.old).faults (D.state disk.new).faults result }
    ensures no_memory { IfErr result (λ e. e ≢ OpenError.Memory) }
{
    let geometry = match read_geometry(disk) {
        Ok(geometry) => geometry,
        Err(error) => return Err(error),
    };
    let mut first = [0; 32];
    if let Err(error) = read_bytes(disk, 64, &mut first) {
        return Err(error);
    }
    let mut second = [0; 32];
    if let Err(error) = read_bytes(disk, 64 + half_size(&geometry), &mut second) {
        return Err(error);
    }
    current_front(&geometry, &first, &second)
}
