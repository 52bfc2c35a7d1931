// The places of a small image, and of the default one.
ghost use Rattle.std.specs.Prelude.{IsTrue};
ghost use Rattle.iso_model.specs.Geometry.{is_valid};

use crate::form_tests::same;
use iso_image::{HalfPlace, half_place, image_size, kind_of};
use iso_model::{Geometry, Mode};
use test_cores::small;

#[tactic(auto, unfolding(iso_model::specs::Geometry::is_valid))]
fn default_geometry() -> Geometry
    ensures { IsTrue (is_valid result) }
{
    Geometry {
        block: 4096,
        blocks: 1024,
        log: 4_194_304,
        ..small()
    }
}

#[test]
fn places_in_images(rt: HostRuntime) {
    let first = HalfPlace {
        header: 64,
        base: 96,
        log: 352,
    };
    let second = HalfPlace {
        header: 608,
        base: 640,
        log: 896,
    };
    let sizes = (image_size(&small()), image_size(&default_geometry()));
    same(&rt, sizes, (1152, 16_777_344));
    let halves = (half_place(&small(), 0), half_place(&small(), 1));
    same(&rt, halves, (first, second));
    let kinds = (
        kind_of(&small(), Mode::Serial),
        kind_of(&small(), Mode::Snapshot),
    );
    same(&rt, kinds, (1, 2));
}
