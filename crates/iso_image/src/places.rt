// Sizes of an image, and where things are in it.
ghost use Rattle.std.specs.Prelude.{◌≡◌, ◌≤◌, ◌*◌, IsTrue};
ghost use Rattle.iso_model.specs.Geometry.{base_place, half_size, header_place, image_size, is_valid, log_place};

use iso_model::Geometry;

/// Where the header, the base and the log of a half begin.
#[derive(Clone, Copy, Debug, PartialEq, Eq)]
pub struct HalfPlace {
    pub header: u64,
    pub base: u64,
    pub log: u64,
}

/// How many bytes the base of a half has.
pub fn base_size(geometry: &Geometry) -> u64
    requires { IsTrue (is_valid geometry.now) }
    ensures size { result ≡ geometry.now.blocks * geometry.now.block }
    ensures small { result ≤ 67108864 }
{
    u64::from(geometry.blocks) * u64::from(geometry.block)
}

/// How many bytes a half has.
pub fn half_size(geometry: &Geometry) -> u64
    requires { IsTrue (is_valid geometry.now) }
    ensures size { result ≡ half_size geometry.now }
    ensures small { result ≤ 134217760 }
{
    32 + base_size(geometry) + u64::from(geometry.log)
}

/// How many bytes the image has.
pub fn image_size(geometry: &Geometry) -> u64
    requires { IsTrue (is_valid geometry.now) }
    ensures { result ≡ image_size geometry.now }
{
    64 + 2 * half_size(geometry)
}

/// Where the parts of half 0 or 1 begin.
pub fn half_place(geometry: &Geometry, half: u8) -> HalfPlace
    requires valid { IsTrue (is_valid geometry.now) }
    requires half { half ≤ 1 }
    ensures { result ≡ record { header = header_place geometry.now half; base = base_place geometry.now half; log = log_place geometry.now half } }
{
    let header = 64 + u64::from(half) * half_size(geometry);
    let base = header + 32;
    HalfPlace {
        header,
        base,
        log: base + base_size(geometry),
    }
}
