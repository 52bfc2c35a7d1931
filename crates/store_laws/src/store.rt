// Stores, as the laws take them.
ghost use Rattle.store_laws.specs.Region.{IsOfItsBlocks, MapStore};

/// A store whose region, so far as it is well formed and holds a map, depends on the region's blocks alone.
pub trait RegionStore {
    // Its region, its map and its calls.
    ghost store: { Self → MapStore };

    ghost regional: { (s : Self) → IsOfItsBlocks (store s) };
}
