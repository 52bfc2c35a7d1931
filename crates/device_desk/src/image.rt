// A desk over an image that is made or opened.
ghost use Rattle.std.specs.{Prelude.{◌≡◌, ◌≤◌, ℕ, List, replicate, Some, IfErr, IfOk, IsTrue}, Option.ForSome};
ghost use Rattle.counts.specs.Count.{Rose};
ghost use Rattle.iso_disk.specs.Disk.{LeavesOnly, StaysTold, WritesNothing};
ghost use Rattle.iso_model.specs.{declared.access.Geometry.Geometry, Geometry.{image_size, is_valid}, History.History, Image.Shows, World.{empty_history, fresh}};
ghost use Rattle.iso_image.specs.Refusal.{refusal};
ghost use Rattle.iso_recover.specs.{Cause.{IsBlamed, IsTest}, Made.IsUnmadeOrEmpty, Shape.IsShaped};
ghost use Rattle.device_desk.specs.{Device.{StandsAt, state_at}, Opened.{IsOpenedAs, IsReopenedAs}};

use crate::desk::Desk;
use iso_disk::Disk;
use iso_model::Geometry;
use iso_recover::{MakeError, OpenError, format_image, open_image};
use std::alloc::Global;

/// Makes an image of the geometry on which nothing was committed of a blank disk, and a desk over it. An error hands the disk
/// back; want of memory comes before the first call of the disk.
///
/// # Errors
///
/// - `Memory`: want of memory. The disk is as it was.
/// - `Disk`: the disk failed. What it holds is refused as no image, or is an image with no commit.
pub fn create<D: Disk>(
    alloc: Global,
    disk: D,
    geometry: &Geometry,
) -> Result<Desk<D>, (MakeError, D)>
    requires valid { IsTrue (is_valid geometry.now) }
    requires size { (D.state disk).size ≡ image_size geometry.now }
    requires blank { (c : List ℕ) → (D.state disk).now c → c ≡ replicate (D.state disk).size 0 }
    ensures stands { IfOk result (λ desk. StandsAt D.state desk (fresh geometry.now 1 (empty_history geometry.now))) }

    // At each moment an image is refused as none of this project, or holds the empty history.
    ensures moments { IfOk result (λ desk. LeavesOnly (D.state disk) (state_at D.state desk) (IsUnmadeOrEmpty geometry.now)) }
    ensures failed { IfErr result (λ e. LeavesOnly (D.state disk) (D.state e.1) (IsUnmadeOrEmpty geometry.now)) }

    ensures told { IfOk result (λ desk. StaysTold (D.state disk) (state_at D.state desk)) }
    ensures fault { IfErr result (λ e. e.0 ≡ MakeError.Disk → Rose (D.state disk).faults (D.state e.1).faults) }
    ensures memory { IfErr result (λ e. e.0 ≡ MakeError.Memory → e.1 ≡ disk) }
{
    match format_image(alloc, disk, geometry) {
        Ok(core) => Ok(Desk::over(alloc, core)),
        Err(error) => Err(error),
    }
}

/// Opens an image, or finds the first test that it fails. It writes nothing. An error hands the disk back.
///
/// # Errors
///
/// The first test that the image fails, want of memory, or a fault of the disk. Nothing is written.
pub fn open<D: Disk>(alloc: Global, disk: D) -> Result<Desk<D>, (OpenError, D)>
    ensures opened { IfOk result (λ desk. IsOpenedAs D.state desk (D.state disk).contents) }
    ensures refused { IfErr result (λ e. IsTest e.0 → ForSome (D.state disk).contents (λ c. refusal c ≡ Some e.0)) }
    ensures shape { IfErr result (λ e. IsShaped (D.state disk).size e.0) }

    // What shows a history opens to one that ends at the commit shown, with the arrays shown, and fails no test.
    ensures shown { (c : List ℕ) (g : Geometry) (H : History) (p : ℕ) → (D.state disk).contents ≡ Some c → Shows c g H p → IfOk result (λ desk. IsReopenedAs D.state desk g H p) }
    ensures opens { (c : List ℕ) (g : Geometry) (H : History) (p : ℕ) → (D.state disk).contents ≡ Some c → Shows c g H p → IfErr result (λ e. IsTest e.0 → ⊥) }

    ensures unwritten { IfOk result (λ desk. WritesNothing (D.state disk) (state_at D.state desk)) }
    ensures untouched { IfErr result (λ e. WritesNothing (D.state disk) (D.state e.1)) }
    ensures cause { IfErr result (λ e. IsBlamed (D.state disk).faults (D.state e.1).faults e.0) }
{
    match open_image(alloc, disk) {
        Ok(core) => Ok(Desk::over(alloc, core)),
        Err(error) => Err(error),
    }
}
