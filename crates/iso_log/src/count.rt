// How many records come one after another.
ghost use Rattle.std.specs.Prelude.{◌≡◌, ◌++◌, ◌^◌, ◌<◌, [], ◌∷◌, ℕ, List, length};
ghost use Rattle.iso_model.specs.{declared.access.Geometry.Geometry, Image.{Written, records}};

use iso_format::record_window;

// How many bytes of a record come before its parts.
const HEAD: usize = 20;

/// How many records these are, with one byte after them.
pub fn count_records(bytes: &[u8]) -> u64
    requires { length bytes.now < 2 ^ 32 }
    ensures { (g : Geometry) (n : ℕ) (more : List Written) → bytes.now ≡ records g n more ++ 0 ∷ [] → result ≡ length more }
{
    let mut count = 0;
    let mut rest = bytes;
    while rest.len() > HEAD {
        let size = (record_window(rest) - 1).min(rest.len() as u64) as usize;
        let (_, behind) = rest.split_at(size);
        rest = behind;
        count += 1;
    }
    count
}
