// What a transaction was when a store's call began on it.

use std::marker::Brand;

/// What a transaction of a core was when a call of a store began on it. A caller picks it at the call.
pub trait Origin {
    ghost use Rattle.std.specs.Prelude.{ℕ, Option};
    ghost use Rattle.iso_disk.specs.Disk.{DiskState};
    ghost use Rattle.iso_model.specs.{Array.Array, World.World};
    ghost use Rattle.tx_table.specs.Work.{Doing};

    /// The worlds that the core represented.
    ghost stood: { World → Type 0 };

    /// The disk.
    ghost disk: { DiskState };

    /// What the transaction did.
    ghost doing: { Doing };

    /// The array at its begin, where the disk's bytes are known.
    ghost array: { Option Array };

    /// Where the core is.
    ghost core_name: { ℕ };

    /// Where the work is.
    ghost work_name: { ℕ };
}

impl Origin for Brand {
    ghost use Rattle.std.specs.Prelude.{None};
    ghost use Rattle.iso_machine.specs.Origins.{no_disk, no_doing};

    ghost stood = { λ W. ⊥ };

    ghost disk = { no_disk };

    ghost doing = { no_doing };

    ghost array = { None };

    ghost core_name = { 0 };

    ghost work_name = { 0 };
}
