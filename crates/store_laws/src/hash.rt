// The hash store, as the laws take stores.
ghost use Rattle.std.specs.Prelude.{◌≡◌};
ghost use Rattle.store_model.specs.HashRegion.{IsHashArea};
ghost use Rattle.store_laws.specs.{Hash.hash_store, HashBlocks.hash_is_of_its_blocks};

use crate::RegionStore;
use store_model::Area;

/// Where a hash store is.
#[derive(Clone, Copy)]
pub struct HashStore {
    pub area: Area,
    ghost is_area: { IsHashArea area },
}

impl HashStore {
    /// The hash store of an area.
    pub fn new(area: Area) -> HashStore
        requires { IsHashArea area }
        ensures { result.area ≡ area }
    {
        HashStore { area }
    }
}

impl RegionStore for HashStore {
    ghost store = { λ s. hash_store s.area };

    ghost regional = { λ s. hash_is_of_its_blocks s.area s.is_area };
}
