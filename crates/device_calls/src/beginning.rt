// Where the list of a device begins, for contracts alone.
ghost use base.Fml.{ftrue};
ghost use Rattle.iso_model.specs.World.{World};
ghost use Rattle.device_calls.specs.Beginnings.{BeginsAt};

use iso_core::Core;
use iso_disk::Disk;
use std::marker::Model;

/// A world that a core stands for. It has no bytes, and clauses alone read it.
#[derive(Drop)]
pub struct Beginning {
    pub ghost world: { World },
}

impl Model for Beginning {
    ghost also_owns = { λ _. ftrue };
}

/// A world that a core represents, which is up and has no live transaction, as one that was just made or opened. Which one it is, is
/// known to contracts alone: a caller picks its `Origin` by it.
pub fn beginning_of<D: Disk>(core: &Core<D>) -> Beginning
    requires { (W : World) × BeginsAt D.state core.now W }
    ensures { BeginsAt D.state core.now result.world }
{
    let _ = core;
    Beginning {}
}
