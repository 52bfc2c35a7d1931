// Where a side keeps its epoch.

/// Where the gate of the first slot is.
pub(crate) const FIRST_GATE: u64 = 16;

/// Where that of the second one is.
pub(crate) const SECOND_GATE: u64 = 32;

/// One of the two slots of a header.
#[derive(Clone, Copy, Debug, PartialEq, Eq)]
pub enum Slot {
    First,
    Second,
}

impl Slot {
    ghost use Rattle.std.specs.Prelude.{◌≡◌};
    ghost use Rattle.mirror_disk.specs.Slots.{other, place};

    /// Where its gate lies.
    pub fn place(self) -> u64
        ensures { result ≡ place self }
    {
        match self {
            Slot::First => FIRST_GATE,
            Slot::Second => SECOND_GATE,
        }
    }

    /// The other one.
    pub fn other(self) -> Slot
        ensures { result ≡ other self }
    {
        match self {
            Slot::First => Slot::Second,
            Slot::Second => Slot::First,
        }
    }
}

/// The epoch of a side, and the slot that holds it.
#[derive(Clone, Copy, Debug, PartialEq, Eq)]
pub struct Mark {
    pub slot: Slot,
    pub epoch: u64,
}
