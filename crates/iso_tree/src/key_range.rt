// What a scan is asked for.
ghost use Rattle.std.specs.Prelude.{◌≡◌, ◌&&◌, ◌<◌, true};
ghost use Rattle.store_model.specs.HashCalls.{is_key};

use store_model::Area;

/// What a scan is asked for: the pairs of an area's tree from a key on and before another, at most `max` of them.
#[derive(Drop)]
pub struct KeyRange<'a> {
    pub area: Area,
    pub from: &'a [u8],
    pub to: &'a [u8],
    pub max: u32,
    ghost keys: { (is_key from.now && is_key to.now) ≡ true },
    ghost some: { 0 < max },
}
