// The core that a call is made on: of an image that is made, or of one that is opened.
ghost use Rattle.std.specs.Prelude.{IfErr, IfOk, IfSome, IsTrue, Some, None};
ghost use Rattle.command_line.specs.Requests.{IsOpenGeometry};
ghost use Rattle.iso_model.specs.Geometry.{is_valid};
ghost use Rattle.iso_top.specs.Begun.{HasCore, HasNoCore};

use iso_core::Core;
use iso_disk::Image;
use iso_image::image_size;
use iso_model::Geometry;
use iso_recover::{MakeError, OpenError, format_image, open_image};
use std::alloc::Global;

/// A core over a new image of this geometry. An error hands the image back.
fn make_core<I: Image>(
    alloc: Global,
    name: &str,
    geometry: &Geometry,
    image: I,
) -> Result<Core<I>, (OpenError, I)>
    requires { IsTrue (is_valid geometry.now) }
    ensures begun { IfOk result (λ core. HasCore I.state (Some geometry.now) name.now image core) }
    ensures unbegun { IfErr result (λ e. HasNoCore (Some geometry.now) name.now e.0 (I.state image) (I.state e.1)) }
{
    let mut image = image;
    if let Err(_) = image.bind(name, Some(image_size(geometry))) {
        return Err((OpenError::Disk, image));
    }
    match format_image(alloc, image, geometry) {
        Ok(core) => Ok(core),
        Err((MakeError::Disk, image)) => Err((OpenError::Disk, image)),
        Err((MakeError::Memory, image)) => Err((OpenError::Memory, image)),
    }
}

/// A core over the image of this name. An error hands the image back.
fn open_core<I: Image>(alloc: Global, name: &str, image: I) -> Result<Core<I>, (OpenError, I)>
    ensures begun { IfOk result (λ core. HasCore I.state None name.now image core) }
    ensures unbegun { IfErr result (λ e. HasNoCore None name.now e.0 (I.state image) (I.state e.1)) }
{
    let mut image = image;
    if let Err(_) = image.bind(name, None) {
        return Err((OpenError::Disk, image));
    }
    match open_image(alloc, image) {
        Ok(core) => Ok(core),
        Err(error) => Err(error),
    }
}

/// A core over the image of this name, which is made where there is a geometry for it. An error hands the image back.
pub(crate) fn core_on<I: Image>(
    alloc: Global,
    name: &str,
    made: Option<Geometry>,
    image: I,
) -> Result<Core<I>, (OpenError, I)>
    requires { IfSome made IsOpenGeometry }
    ensures begun { IfOk result (λ core. HasCore I.state made name.now image core) }
    ensures unbegun { IfErr result (λ e. HasNoCore made name.now e.0 (I.state image) (I.state e.1)) }
{
    match made {
        Some(geometry) => make_core(alloc, name, &geometry, image),
        None => open_core(alloc, name, image),
    }
}
