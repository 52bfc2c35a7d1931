//! The turn: the right to the value until it is given back.
ghost use Rattle.std.specs.{Prelude.◌≡◌, Borrow.sem};

use crate::lock::Pass;
use crate::view::Stands;
use std::snapshot::Snapshot;

/// The value, for as long as a turn lasts. It must be spent by `give` of the same lock.
pub struct Turn<V: Stands> {
    pub(crate) value: Box<V>,
    pub(crate) number: u64,
    // The pass that has it, by which contracts know the lock.
    pub(crate) pass: Snapshot<Pass<V>>,
}

impl<V: Stands> Turn<V> {
    ghost use Rattle.turn_lock.specs.{Lends.LendsValue, Lock.turn_value};

    /// Lends the value.
    pub fn value(&mut self) -> &mut V
        ensures* lends { sem 𝓛 (LendsValue V.row V.Entry.row self.entry result) }
        ensures value { result.now ≡ turn_value self.old }
    {
        &mut *self.value
    }
}
