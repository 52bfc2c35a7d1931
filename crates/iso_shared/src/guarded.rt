// What lies under the lock.

use crate::entry::Entry;
use iso_core::Core;
use iso_disk::Disk;
use std::marker::{Brand, PhantomData};
use turn_lock::{Names, Stands};
use tx_table::{Rack, Work};

/// Where the list begins, for contracts alone. No value of it is made.
pub trait Origin {
    ghost use Rattle.iso_disk.specs.Disk.{DiskState};
    ghost use Rattle.iso_shared.specs.States.{Start};

    /// The world, and what is known of the disk.
    ghost start: { Start };

    /// The disk.
    ghost disk: { DiskState };
}

impl Origin for Brand {
    ghost use Rattle.std.specs.Prelude.{None};
    ghost use Rattle.iso_disk.specs.Untold.{untold};
    ghost use Rattle.iso_shared.specs.Standing.{some_start};

    ghost start = { some_start };

    ghost disk = { untold 0 0 0 None };
}

/// An entry of the list, and the moment at which its turn ended, by the clock of the disk. No value of it is made.
pub struct Stamped {
    pub entry: Entry,
    pub moment: u64,
}

/// A transaction under a label.
#[derive(Drop)]
pub struct Posted {
    pub(crate) number: u64,
    pub(crate) work: Work,
}

/// A core, and the transactions under labels.
#[derive(Drop)]
pub struct Guarded<D: Disk, O> {
    pub(crate) core: Core<D>,
    pub(crate) rack: Rack<Posted>,
    pub(crate) origin: PhantomData<O>,
}

impl<D: Disk, O: Origin> Stands for Guarded<D, O> {
    ghost use Rattle.iso_shared.specs.{Standing.StandsAt, Legal.{handed, needed, returned}, Stamps.{entries_in, moments_in}};

    type Entry = Stamped;

    ghost stands = { λ g turns. StandsAt D.state O.start O.disk g.core g.rack (entries_in turns) (moments_in turns) };

    ghost hands = { λ s. handed s.entry };

    ghost needs = { λ s. needed s.entry };

    ghost takes = { λ s. returned s.entry };
}

impl Names<Stamped> for Brand {
    ghost use Rattle.iso_shared.specs.declared.entry.Entry.TheVariants.{Trim};

    ghost entry = { record { entry = Trim 0; moment = 0 } };
}
