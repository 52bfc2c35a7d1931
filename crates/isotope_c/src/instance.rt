// What a slot holds, and how it is made.
ghost use Rattle.std.specs.Prelude.{◌≡◌, ℕ, IfErr, IfOk, IfSome, IsSome, IsTrue, Some, replicate};
ghost use Rattle.iso_image.specs.Refusal.{refusal};
ghost use Rattle.iso_model.specs.{declared.access.Geometry.Geometry, Geometry.is_valid, History.History, Image.Shows};
ghost use Rattle.iso_recover.specs.Cause.{IsTest};
ghost use Rattle.isotope_c.specs.{Exports.{HasMade, HasOpened, HasReopened}, Instances.laid_in};

use device_desk::{Desk, create, open};
use iso_image::{OpenError, image_size};
use iso_model::{Geometry, Memory};
use queued_disk::QueuedDisk;
use std::alloc::Global;
use std::mem;

/// The bytes of an image that is being laid, or an open device: a desk over a disk that makes no call.
#[derive(Drop)]
pub enum Instance {
    Laid(Vec<u8>),
    Open(Desk<QueuedDisk>),
}

/// So many zeros.
pub(crate) fn zeros(alloc: Global, size: u64) -> Result<Vec<u8>, Memory>
    ensures { IfOk result (λ v. v.items ≡ replicate size 0) }
{
    match vec![in alloc; 0u8; size as usize] {
        Ok(bytes) => Ok(bytes),
        Err(_) => Err(Memory),
    }
}

/// An open device on a new image, or none where memory is wanting. What makes it an image is on its tape.
pub(crate) fn made(alloc: Global, geometry: &Geometry) -> Option<Box<Instance>>
    requires { IsTrue (is_valid geometry.now) }
    ensures { IfSome result (λ b. HasMade (Some b.value) geometry.now) }
{
    let Ok(bytes) = zeros(alloc, image_size(geometry)) else {
        return None;
    };
    match create(alloc, QueuedDisk::new(alloc, bytes), geometry) {
        Ok(desk) => match Box::new(alloc, Instance::Open(desk)) {
            Ok(instance) => Some(instance),
            Err(_) => None,
        },
        Err((_error, _disk)) => None,
    }
}

/// The bytes that were laid, which leaves none.
pub(crate) fn bytes_of(alloc: Global, instance: &mut Instance) -> Vec<u8>
    requires { IsSome (laid_in (Some instance.old)) }
    ensures { laid_in (Some instance.old) ≡ Some result.items }
{
    match mem::replace(instance, Instance::Laid(Vec::new(alloc))) {
        Instance::Laid(bytes) => bytes,
        Instance::Open(_) => unreachable!(),
    }
}

/// An open device on the image of these bytes, which are taken over.
pub(crate) fn opened(alloc: Global, bytes: Vec<u8>) -> Result<Instance, OpenError>
    ensures opened { IfOk result (λ i. HasOpened (Some i) bytes.items) }
    ensures refused { IfErr result (λ e. IsTest e → refusal bytes.items ≡ Some e) }
    ensures shown { (g : Geometry) (H : History) (p : ℕ) → Shows bytes.items g H p → IfOk result (λ i. HasReopened (Some i) g H p) }
    ensures opens { (g : Geometry) (H : History) (p : ℕ) → Shows bytes.items g H p → IfErr result (λ e. IsTest e → ⊥) }
{
    match open(alloc, QueuedDisk::new(alloc, bytes)) {
        Ok(desk) => Ok(Instance::Open(desk)),
        Err((error, _disk)) => Err(error),
    }
}
