// The superblock of an image, read and tested.
ghost use Rattle.std.specs.{Prelude.{◌≡◌, ◌≢◌, ◌+◌, ◌≤◌, Ok, Some, drop, length, take, IfErr, IfOk, IsTrue, OnOk}, Option.ForSome};
ghost use Rattle.iso_model.specs.{Geometry.{image_size, is_valid}, Image.superblock};
ghost use Rattle.iso_disk.specs.Disk.{WritesNothing};
ghost use Rattle.iso_format.specs.Reading.{super_of};
ghost use Rattle.iso_image.specs.Refusal.{refusal};
ghost use Rattle.iso_recover.specs.{Cause.{BlamesDisk, IsTest}, Front.super_refusal, Shape.IsShaped};

use iso_disk::Disk;
use iso_format::{SuperError, read_super};
use iso_image::{OpenError, image_size};
use iso_model::Geometry;

/// Reads bytes of the image from a place on.
///
/// # Errors
///
/// `Disk`: the disk failed. Any bytes may be in the slice.
pub fn read_bytes<D: Disk>(disk: &mut D, at: u64, into: &mut [u8]) -> Result<(), OpenError>
    requires { at + length into.old ≤ (D.state disk.old).size }
    ensures told { OnOk result (ForSome (D.state disk.old).contents (λ c. into.new ≡ take (length into.old) (drop at c))) }
    ensures only { IfErr result (λ e. e ≡ OpenError.Disk) }
    ensures unwritten { WritesNothing (D.state disk.old) (D.state disk.new) }
    ensures cause { BlamesDisk (D.state disk.old).faults (D.state disk.new).faults result }
{
    match disk.read(at, into) {
        Ok(()) => Ok(()),
        Err(_) => Err(OpenError::Disk),
    }
}

// What 64 bytes say in an image of this size, or the first test that they fail.
fn tested_geometry(block: &[u8], have: u64) -> Result<Geometry, OpenError>
    requires { length block.now ≡ 64 }
    ensures refused { IfErr result (λ e. super_refusal have (super_of block.now) ≡ Some e) }
    ensures read { IfOk result (λ g. super_of block.now ≡ Ok g) }
    ensures valid { IfOk result (λ g. IsTrue (is_valid g) × (g.form ≡ 1)) }
    ensures size { IfOk result (λ g. have ≡ image_size g) }
    ensures spelled { IfOk result (λ g. block.now ≡ superblock 1 g) }
{
    match read_super(block) {
        Ok(geometry) => {
            let want = image_size(&geometry);
            if have == want {
                Ok(geometry)
            } else {
                Err(OpenError::WrongSize { want, have })
            }
        }
        Err(SuperError::NotIsotope) => Err(OpenError::NotIsotope),
        Err(SuperError::BadGeometry { field }) => Err(OpenError::BadGeometry { field }),
    }
}

/// Reads the geometry of an image, which is of form 1 as a superblock gives no form.
///
/// # Errors
///
/// - `Disk`: a call of the disk failed.
/// - `NotIsotope`, `BadGeometry`, `WrongSize`: the first test that the superblock and the size fail.
pub fn read_geometry<D: Disk>(disk: &mut D) -> Result<Geometry, OpenError>
    ensures refused { IfErr result (λ e. IsTest e → ForSome (D.state disk.old).contents (λ c. refusal c ≡ Some e)) }
    ensures shape { IfErr result (IsShaped (D.state disk.old).size) }
    ensures valid { IfOk result (λ g. IsTrue (is_valid g) × (g.form ≡ 1)) }
    ensures size { IfOk result (λ g. (D.state disk.old).size ≡ image_size g) }
    ensures told { IfOk result (λ g. ForSome (D.state disk.old).contents (λ c. (super_of (take 64 c) ≡ Ok g) × (take 64 c ≡ superblock 1 g))) }
    ensures unwritten { WritesNothing (D.state disk.old) (D.state disk.new) }
    ensures cause { BlamesDisk (D.state disk.old).faults (D.state disk.new).faults result }
    ensures no_memory { IfErr result (λ e. e ≢ OpenError.Memory) }
{
    let have = disk.size();
    if have < 64 {
        return Err(OpenError::NotIsotope);
    }
    let mut block = [0; 64];
    if let Err(error) = read_bytes(disk, 0, &mut block) {
        return Err(error);
    }
    tested_geometry(&block, have)
}
