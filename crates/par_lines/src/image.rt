// The numbers of the clients' image.
ghost use Rattle.std.specs.Prelude.{◌≡◌, ◌≤◌, IsTrue};
ghost use Rattle.iso_model.specs.Geometry.{is_valid};

use iso_model::Geometry;
use iso_shared::Origin;
use std::marker::PhantomData;

/// The numbers of the image that the device had when the list of turns began.
#[derive(Drop)]
pub(crate) struct ImageNumbers<O: Origin> {
    pub(crate) geometry: Geometry,
    pub(crate) origin: PhantomData<O>,
    ghost same: { geometry ≡ O.start.world.geometry },
    ghost valid: { IsTrue (is_valid O.start.world.geometry) },
    ghost small: { geometry.block ≤ 4096 },
}
