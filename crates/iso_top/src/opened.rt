// A core over an image that was opened.
ghost use Rattle.iso_model.specs.World.{World};
ghost use Rattle.iso_top.specs.Founded.{BeginsWith};

use crate::beginning::Beginning;
use iso_core::Core;
use iso_disk::Disk;
use std::snapshot::Snapshot;

/// A core, and the disk as it was given.
pub struct Opened<D: Disk> {
    pub core: Core<D>,
    pub given: Snapshot<D>,
}

/// A world that the core represents. Which one is known to contracts alone.
pub fn world_of<D: Disk>(opened: &Opened<D>) -> Beginning
    requires { (W : World) × BeginsWith D.state opened.now W }
    ensures { BeginsWith D.state opened.now result.world }
{
    let _ = opened;
    Beginning {}
}
