// The root of a region's tree.
ghost use Rattle.std.specs.Prelude.{◌<◌, ◌≤◌};
ghost use Rattle.store_model.specs.TreeRegion.{IsTreeArea};

use store_model::Area;

/// The root of an area's tree: its block in the region, which is 0 where the tree is empty, and its level.
#[derive(Clone, Copy)]
pub struct Root {
    pub area: Area,
    pub block: u32,
    pub level: u8,
    ghost kind: { IsTreeArea area },
    ghost inside: { block < area.blocks },
    ghost low: { level ≤ 31 },
}
