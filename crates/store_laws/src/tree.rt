// The tree store, as the laws take stores.
ghost use Rattle.std.specs.Prelude.{◌≡◌};
ghost use Rattle.store_model.specs.TreeRegion.{IsTreeArea};
ghost use Rattle.store_laws.specs.{Tree.tree_store, TreeBlocks.tree_is_of_its_blocks};

use crate::RegionStore;
use store_model::Area;

/// Where a tree store is.
#[derive(Clone, Copy)]
pub struct TreeStore {
    pub area: Area,
    ghost is_area: { IsTreeArea area },
}

impl TreeStore {
    /// The tree store of an area.
    pub fn new(area: Area) -> TreeStore
        requires { IsTreeArea area }
        ensures { result.area ≡ area }
    {
        TreeStore { area }
    }
}

impl RegionStore for TreeStore {
    ghost store = { λ s. tree_store s.area };

    ghost regional = { λ s. tree_is_of_its_blocks s.area s.is_area };
}
