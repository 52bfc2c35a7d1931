// A small image has four blocks of 64 bytes and logs of 256 bytes, so 1,152 bytes: half 0 begins at 64 and its log at 352,
// half 1 at 608 and its log at 896.
ghost use Rattle.std.specs.Prelude.{◌≡◌, ◌⊎◌, length, replicate, IfOk, IsTrue};
ghost use Rattle.iso_memdisk.specs.MemDisk.{Starts};
ghost use Rattle.iso_model.specs.Geometry.{image_size, is_valid};
ghost use Rattle.test_cores.specs.Small.{small};

use iso_image::image_size;
use iso_memdisk::MemDisk;
use iso_model::{Geometry, Mode};
use std::alloc::{AllocError, Global};

/// Four blocks of 64 bytes, and logs of 256.
#[tactic(auto, unfolding(iso_model::specs::Geometry::is_valid))]
pub fn small() -> Geometry
    ensures same { result ≡ small }
    ensures valid { IsTrue (is_valid result) }
{
    Geometry {
        block: 64,
        blocks: 4,
        log: 256,
        mode: Mode::Serial,
        hash: 0,
        tree: 0,
        form: 1,
    }
}

/// The same in this form.
#[tactic(auto, unfolding(iso_model::specs::Geometry::is_valid))]
pub fn small_in(form: u8) -> Geometry
    requires { (form ≡ 1) ⊎ (form ≡ 2) }
    ensures same { result ≡ record small { form = form } }
    ensures valid { IsTrue (is_valid result) }
{
    Geometry { form, ..small() }
}

/// The same with logs of 4,096 bytes.
#[tactic(auto, unfolding(iso_model::specs::Geometry::is_valid))]
pub fn with_long_logs() -> Geometry
    ensures same { result ≡ record small { log = 4096 } }
    ensures valid { IsTrue (is_valid result) }
{
    Geometry {
        log: 4096,
        ..small()
    }
}

/// `count` zeros.
///
/// # Errors
///
/// Want of memory.
pub fn zeros(alloc: Global, count: usize) -> Result<Vec<u8>, AllocError>
    ensures { IfOk result (λ v. v.items ≡ replicate count 0) }
{
    Ok(vec![in alloc; 0; count]?)
}

/// A blank disk of the size of an image, on which nothing was called.
///
/// # Errors
///
/// Want of memory.
pub fn blank(alloc: Global, geometry: &Geometry) -> Result<MemDisk, AllocError>
    requires { IsTrue (is_valid geometry.now) }
    ensures { IfOk result (λ d. Starts d (replicate (image_size geometry.now) 0)) }
{
    let bytes = zeros(alloc, image_size(geometry) as usize)?;
    Ok(MemDisk::new(alloc, bytes))
}

/// Puts bytes in the place of those from `at` on.
pub fn change(image: &mut Vec<u8>, at: usize, bytes: &[u8]) {
    for (i, byte) in bytes.iter().enumerate() {
        if let Some(place) = image.get_mut(at.saturating_add(i)) {
            *place = *byte;
        }
    }
}
