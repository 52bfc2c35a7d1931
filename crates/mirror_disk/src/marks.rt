// What a mirror knows of its sides.
use crate::slot::Slot;
use crate::used::Used;

/// Which sides of a mirror are in use, and what is in their headers.
#[derive(Clone, Copy)]
pub(crate) struct Marks {
    pub(crate) used: Used,
    /// The epoch at which both sides were last in use.
    pub(crate) epoch: u64,
    /// The slot of the first side that held it then.
    pub(crate) first_slot: Slot,
    /// The slot of the second one.
    pub(crate) second_slot: Slot,
}

impl Marks {
    ghost use Rattle.std.specs.Prelude.{◌≡◌};
    ghost use Rattle.mirror_disk.specs.{declared.used.Used.TheVariants.{Both, Plain}, declared.slot.Slot.TheVariants.First};

    /// Of a mirror that is not bound.
    pub(crate) fn plain() -> Marks
        ensures { result.used ≡ Plain }
    {
        Marks {
            used: Used::Plain,
            epoch: 0,
            first_slot: Slot::First,
            second_slot: Slot::First,
        }
    }

    /// Of a mirror that was just made.
    pub(crate) fn blank() -> Marks
        ensures { result ≡ record { used = Both; epoch = 1; first_slot = First; second_slot = First } }
    {
        Marks {
            used: Used::Both,
            epoch: 1,
            first_slot: Slot::First,
            second_slot: Slot::First,
        }
    }
}
