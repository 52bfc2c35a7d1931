// The kind of a record.
ghost use Rattle.std.specs.Prelude.{◌≡◌, ◌⊎◌};
ghost use Rattle.iso_model.specs.Image.{kind_of};

use iso_model::{Geometry, Mode};

/// The kind of a record of this mode: 1 is the image's own mode, and 2 the other one.
pub fn kind_of(geometry: &Geometry, mode: Mode) -> u8
    ensures kind { result ≡ kind_of geometry.now mode }
    ensures known { (result ≡ 1) ⊎ (result ≡ 2) }
{
    match (mode, geometry.mode) {
        (Mode::Serial, Mode::Serial) | (Mode::Snapshot, Mode::Snapshot) => 1,
        _ => 2,
    }
}
