// Where the stores of an image are.
ghost use Rattle.std.specs.Prelude.{◌≡◌, ◌+◌, ◌≤◌, IfNone, IfSome, IsTrue};
ghost use Rattle.iso_model.specs.Geometry.{is_valid};
ghost use Rattle.store_model.specs.{Areas.{hash_area, tree_area}, HashRegion.IsHashArea, TreeRegion.IsTreeArea};
ghost use Rattle.device_calls.specs.Regions.{area_in};

use iso_model::Geometry;
use store_model::Region;

/// The region of the hash store, and none exactly where the image has no such store. A call of the store may be made there.
pub fn hash_region(geometry: &Geometry) -> Option<Region>
    requires valid { IsTrue (is_valid geometry.now) }
    ensures none { IfNone result (geometry.now.hash ≡ 0) }
    ensures area { IfSome result (λ r. (area_in geometry.now r ≡ hash_area geometry.now) × IsHashArea (area_in geometry.now r)) }
    ensures fits { IfSome result (λ r. r.start + r.size ≤ geometry.now.blocks) }
{
    if geometry.hash == 0 {
        return None;
    }
    Some(Region {
        start: 0,
        size: geometry.hash,
    })
}

/// The region of the tree store, and none exactly where the image has no such store. A call of the store may be made there.
pub fn tree_region(geometry: &Geometry) -> Option<Region>
    requires valid { IsTrue (is_valid geometry.now) }
    ensures none { IfNone result (geometry.now.tree ≡ 0) }
    ensures area { IfSome result (λ r. (area_in geometry.now r ≡ tree_area geometry.now) × IsTreeArea (area_in geometry.now r)) }
    ensures fits { IfSome result (λ r. r.start + r.size ≤ geometry.now.blocks) }
{
    if geometry.tree == 0 {
        return None;
    }
    Some(Region {
        start: geometry.hash,
        size: geometry.tree,
    })
}
