// The core over an image that is made or opened.
ghost use Rattle.std.specs.{Prelude.{◌≡◌, ◌≤◌, ℕ, List, replicate, Some, IfErr, IfOk, IsTrue}, Option.ForSome};
ghost use Rattle.iso_model.specs.{Geometry.{image_size, is_valid}, declared.access.Geometry.Geometry, History.History, Image.Shows, World.{empty_history, fresh}};
ghost use Rattle.iso_disk.specs.Disk.{LeavesOnly, StaysTold, WritesNothing};
ghost use Rattle.counts.specs.Count.{Rose};
ghost use Rattle.iso_core.specs.{Core.{StandsFor, disk_of}, Standing.up};
ghost use Rattle.iso_image.specs.Refusal.{refusal};
ghost use Rattle.iso_recover.specs.{Cause.{IsBlamed, IsTest}, Made.IsUnmadeOrEmpty, Opened.{HasOpened, HasReopened}, Shape.IsShaped};

use crate::image::read_image;
use crate::make::{MakeError, make_image};
use iso_core::Core;
use iso_disk::Disk;
use iso_image::OpenError;
use iso_model::Geometry;
use std::alloc::Global;

/// Makes an image of the geometry's form on which nothing was committed of a blank disk, by five calls of the disk, and
/// a core over it.
///
/// # Errors
///
/// The disk is handed back.
/// - `Memory`: want of memory. No call of the disk was made.
/// - `Disk`: a call of the disk failed. Each image that a crash leaves is refused as none of this project, or holds no
///   commit.
pub fn format_image<D: Disk>(
    alloc: Global,
    disk: D,
    geometry: &Geometry,
) -> Result<Core<D>, (MakeError, D)>
    requires valid { IsTrue (is_valid geometry.now) }
    requires size { (D.state disk).size ≡ image_size geometry.now }
    requires blank { (c : List ℕ) → (D.state disk).now c → c ≡ replicate (D.state disk).size 0 }
    ensures stands { IfOk result (λ core. StandsFor D.state core (fresh geometry.now 1 (empty_history geometry.now)) up) }

    // At each moment an image is refused as none of this project, or holds the empty history.
    ensures moments { IfOk result (λ core. LeavesOnly (D.state disk) (D.state (disk_of core)) (IsUnmadeOrEmpty geometry.now)) }
    ensures failed { IfErr result (λ e. LeavesOnly (D.state disk) (D.state e.1) (IsUnmadeOrEmpty geometry.now)) }

    ensures told { IfOk result (λ core. StaysTold (D.state disk) (D.state (disk_of core))) }
    ensures later { IfErr result (λ e. (D.state disk).faults ≤ (D.state e.1).faults) }
    ensures fault { IfErr result (λ e. e.0 ≡ MakeError.Disk → Rose (D.state disk).faults (D.state e.1).faults) }
    ensures no_fault { IfOk result (λ core. (D.state (disk_of core)).faults ≡ (D.state disk).faults) }
    ensures memory { IfErr result (λ e. e.0 ≡ MakeError.Memory → e.1 ≡ disk) }
{
    let mut disk = disk;
    match make_image(alloc, &mut disk, geometry) {
        Ok(opened) => Ok(Core::over(alloc, disk, opened)),
        Err(error) => Err((error, disk)),
    }
}

/// Opens an image, or finds the first test that it fails: a core that is up, without transactions. It begins with a
/// sync, and writes nothing.
///
/// # Errors
///
/// The disk is handed back, and nothing was written to it.
/// - `Disk`: a call of the disk failed.
/// - `Memory`: want of memory.
/// - Any other: the first test that the image fails.
pub fn open_image<D: Disk>(alloc: Global, disk: D) -> Result<Core<D>, (OpenError, D)>
    ensures opened { IfOk result (λ core. HasOpened D.state core (D.state disk).contents) }
    ensures refused { IfErr result (λ e. IsTest e.0 → ForSome (D.state disk).contents (λ c. refusal c ≡ Some e.0)) }
    ensures shape { IfErr result (λ e. IsShaped (D.state disk).size e.0) }

    // What shows a history opens to a history that ends at the commit shown, with the arrays shown, and fails no test.
    ensures shown { (c : List ℕ) (g : Geometry) (H : History) (p : ℕ) → (D.state disk).contents ≡ Some c → Shows c g H p → IfOk result (λ core. HasReopened D.state core g H p) }
    ensures opens { (c : List ℕ) (g : Geometry) (H : History) (p : ℕ) → (D.state disk).contents ≡ Some c → Shows c g H p → IfErr result (λ e. IsTest e.0 → ⊥) }

    ensures unwritten { IfOk result (λ core. WritesNothing (D.state disk) (D.state (disk_of core))) }
    ensures untouched { IfErr result (λ e. WritesNothing (D.state disk) (D.state e.1)) }
    ensures no_fault { IfOk result (λ core. (D.state (disk_of core)).faults ≡ (D.state disk).faults) }
    ensures cause { IfErr result (λ e. IsBlamed (D.state disk).faults (D.state e.1).faults e.0) }
{
    let mut disk = disk;
    match read_image(alloc, &mut disk) {
        Ok(opened) => Ok(Core::over(alloc, disk, opened)),
        Err(error) => Err((error, disk)),
    }
}
