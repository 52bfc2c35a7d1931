// Geometries and refusals of images, in numbers.
ghost use Rattle.std.specs.Prelude.{◌≡◌, IfErr, IfOk, IsTrue, Some, pos, ◌≢◌};
ghost use Rattle.iso_model.specs.Geometry.{is_valid};
ghost use Rattle.isotope_c.specs.Told.{geometry_named, geometry_status, refusal_of};

use crate::begin::mode_named;
use crate::code::{BAD_GEOMETRY, BAD_MODE};
use crate::records::{NewImage, Refusal};
use iso_format::is_valid;
use iso_image::OpenError;
use iso_model::Geometry;

// The geometry that these numbers name.
fn geometry_named(numbers: &NewImage) -> Option<Geometry>
    ensures { result ≡ geometry_named numbers.now }
{
    let Some(Some(mode)) = mode_named(numbers.mode) else {
        return None;
    };
    Some(Geometry {
        block: numbers.block_size,
        blocks: numbers.blocks,
        log: numbers.log,
        mode,
        hash: numbers.hash,
        tree: numbers.tree,
        form: 1,
    })
}

/// The same where an image may have it, or the status that says why there is none.
pub(crate) fn valid_geometry(numbers: &NewImage) -> Result<Geometry, i32>
    ensures named { IfOk result (λ g. geometry_named numbers.now ≡ Some g) }
    ensures valid { IfOk result (λ g. IsTrue (is_valid g)) }
    ensures good { IfOk result (λ g. geometry_status (geometry_named numbers.now) ≡ pos 0) }
    ensures bad { IfErr result (λ status. (status ≡ geometry_status (geometry_named numbers.now)) × (status ≢ pos 0)) }
{
    let Some(geometry) = geometry_named(numbers) else {
        return Err(BAD_MODE);
    };
    if !is_valid(&geometry) {
        return Err(BAD_GEOMETRY);
    }
    Ok(geometry)
}

/// Why an image did not open.
pub(crate) fn refusal_of(error: OpenError) -> Refusal
    ensures { result ≡ refusal_of error }
{
    let (why, what, at, have) = match error {
        OpenError::NotIsotope => (1, 0, 0, 0),
        OpenError::BadGeometry { field } => (2, field, 0, 0),
        OpenError::WrongSize { want, have } => (3, 0, want, have),
        OpenError::NoHalf => (4, 0, 0, 0),
        OpenError::Damaged { at, cause } => (5, cause, at, 0),
        OpenError::UnknownForm { form } => (6, form, 0, 0),
        OpenError::Disk | OpenError::Memory => (0, 0, 0, 0),
    };
    Refusal {
        why,
        what: u32::from(what),
        at,
        have,
    }
}
