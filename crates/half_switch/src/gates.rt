// The gate of a half that is not the current one.
ghost use Rattle.std.specs.{Prelude.{◌≡◌, ◌⊎◌, ◌+◌, ◌<◌, ◌∷◌, [], ℕ, List, OnOk, OnErr}, Option.ForSome};
ghost use Rattle.iso_model.specs.{declared.access.Geometry.Geometry, Geometry.header_place};
ghost use Rattle.iso_disk.specs.Disk.{IsSettled, LeavesOnly, Splices, StaysTold, TellsTorn, TornFrom, WritesNothing};
ghost use Rattle.counts.specs.Count.{HasCause};
ghost use Rattle.commit_gate.specs.Gate.{IsClosed};
ghost use Rattle.iso_image.specs.Half.{Half, IsHeld, in_form};
ghost use Rattle.half_switch.specs.Plan.{IsReady};

use commit_gate::{open_gate, shut_gate, stands_closed};
use iso_disk::{Disk, DiskFault};
use iso_image::HalfPlace;

/// Closes a half that is not the current one. Where its gate is closed, nothing is written.
///
/// # Errors
///
/// A call of the disk failed. The gate may have any byte, on the disk and in an image, and each image holds what it
/// held.
pub fn close_half<D: Disk>(disk: &mut D, place: &HalfPlace) -> Result<(), DiskFault>
    requires fits { place.now.header < (D.state disk.old).size }
    requires settled { IsSettled (D.state disk.old) }

    // At each moment an image is one from before the call, but for the gate byte, and holds the half that it held.
    ensures moments { LeavesOnly (D.state disk.old) (D.state disk.new) (TornFrom place.now.header 1 (D.state disk.old).now) }
    ensures held { (g : Geometry) (x : Half) (other : ℕ) → x.at + other ≡ 1 → place.now.header ≡ header_place g other
        → ((c : List ℕ) → (D.state disk.old).now c → IsHeld g x c) → LeavesOnly (D.state disk.old) (D.state disk.new) (IsHeld g x) }
    ensures unwritten { ForSome (D.state disk.old).contents (λ c. IsClosed place.now.header c → WritesNothing (D.state disk.old) (D.state disk.new)) }

    ensures closed { OnOk result ((c : List ℕ) → (D.state disk.new).now c → IsClosed place.now.header c) }
    ensures settled { OnOk result (IsSettled (D.state disk.new)) }
    ensures told { OnOk result (StaysTold (D.state disk.old) (D.state disk.new)) }

    ensures failed { OnErr result (TellsTorn place.now.header 1 (D.state disk.old) (D.state disk.new)) }
    ensures cause { HasCause (D.state disk.old).faults (D.state disk.new).faults result }
{
    let Ok(closed) = stands_closed(disk, place.header) else {
        return Err(DiskFault);
    };
    if closed {
        return Ok(());
    }
    shut_gate(disk, place.header)
}

/// Opens a half that was filled. It is the current one then.
///
/// # Errors
///
/// A call of the disk failed. The gate may have any byte, so an image holds the one half or the other.
pub fn open_half<D: Disk>(disk: &mut D, place: &HalfPlace) -> Result<(), DiskFault>
    requires { place.now.header < (D.state disk.old).size }

    // At each moment an image is one from before the call, but for the gate byte, and holds the one half or the other.
    ensures moments { LeavesOnly (D.state disk.old) (D.state disk.new) (TornFrom place.now.header 1 (D.state disk.old).now) }
    ensures held { (g : Geometry) (form : ℕ) (x y : Half) → place.now.header ≡ header_place g y.at → ((c : List ℕ) → (D.state disk.old).now c → IsReady g form x y c)
        → LeavesOnly (D.state disk.old) (D.state disk.new) (λ c. IsHeld g x c ⊎ IsHeld (in_form form g) y c) }

    ensures opened { (g : Geometry) (form : ℕ) (x y : Half) → place.now.header ≡ header_place g y.at → ((c : List ℕ) → (D.state disk.old).now c → IsReady g form x y c)
        → OnOk result ((c : List ℕ) → (D.state disk.new).now c → IsHeld (in_form form g) y c) }
    ensures written { OnOk result (Splices place.now.header (1 ∷ []) (D.state disk.old) (D.state disk.new)) }
    ensures settled { OnOk result (IsSettled (D.state disk.new)) }
    ensures told { OnOk result (StaysTold (D.state disk.old) (D.state disk.new)) }

    ensures failed { OnErr result (TellsTorn place.now.header 1 (D.state disk.old) (D.state disk.new)) }
    ensures cause { HasCause (D.state disk.old).faults (D.state disk.new).faults result }
{
    open_gate(disk, place.header)
}
