// Which half is the current one.
ghost use Rattle.std.specs.Prelude.{◌≡◌, ◌≢◌, ◌↔◌, ◌==◌, ℕ, List, None, take, drop};
ghost use Rattle.iso_model.specs.{declared.access.Geometry.Geometry, Geometry.header_place, Image.{chosen_half, current_half}};
ghost use Rattle.iso_format.specs.Reading.{half_of};

use iso_format::HalfHeader;

/// The half whose gate is open and whose generation is the larger one, the first on a tie. None where both are closed.
pub fn choose_half(first: &HalfHeader, second: &HalfHeader) -> Option<u8>
    ensures chosen { result ≡ chosen_half (first.now.gate == 1) first.now.generation (second.now.gate == 1) second.now.generation }
    ensures none { result ≡ None ↔ ((first.now.gate ≢ 1) × (second.now.gate ≢ 1)) }
    // Of the headers of an image it is the current half.
    ensures current { (g : Geometry) (bytes : List ℕ) → first.now ≡ half_of (take 32 (drop (header_place g 0) bytes))
        → second.now ≡ half_of (take 32 (drop (header_place g 1) bytes)) → result ≡ current_half g bytes }
{
    match (first.gate == 1, second.gate == 1) {
        (true, true) => Some(if first.generation < second.generation {
            1
        } else {
            0
        }),
        (true, false) => Some(0),
        (false, true) => Some(1),
        (false, false) => None,
    }
}
