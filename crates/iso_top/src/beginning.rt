// Where a list of entries begins, for contracts alone.
ghost use base.Fml.{ftrue};
ghost use Rattle.iso_model.specs.World.{World};

use std::marker::Model;

/// The world that a list of entries begins with. It has no bytes, and clauses alone read it.
#[derive(Drop)]
pub struct Beginning {
    pub ghost world: { World },
}

impl Model for Beginning {
    ghost also_owns = { λ _. ftrue };
}
