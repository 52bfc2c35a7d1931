// The calls that need no transaction, and leave the one that there is.
ghost use Rattle.std.specs.Prelude.{ℕ};
ghost use Rattle.iso_shared.specs.{declared.entry.Entry.TheVariants.{Stat as OfStat}, Told.{compact_entry, numbers_of, trim_entry, upgrade_entry}};
ghost use Rattle.handle_pass.specs.Sessions.{KeepsTx, Made};

use crate::session::Session;
use iso_core::Stat;
use iso_disk::Disk;
use iso_model::CoreError;
use iso_shared::Origin;
use std::sync::Wait;

impl<'a, D: Disk + Drop, O: Origin> Session<'a, D, O> {
    /// Lets the versions go that no transaction can be shown any more, and answers the floor.
    ///
    /// # Errors
    ///
    /// As those of `Core::trim`, at this turn: `Down`.
    pub fn trim<R: Wait>(&mut self, rt: &R) -> Result<u64, CoreError>
        ensures did { (before : ℕ) × (now : ℕ) × Made O.start self.old self.new (trim_entry before now result) }
        ensures tx { KeepsTx self.old self.new }
    {
        self.shared.trim(rt, &mut self.port)
    }

    /// Moves the base to the floor, in the other half, and answers the floor.
    ///
    /// # Errors
    ///
    /// As those of `Core::compact`, at this turn.
    pub fn compact<R: Wait>(&mut self, rt: &R) -> Result<u64, CoreError>
        ensures did { (before : ℕ) × (now : ℕ) × Made O.start self.old self.new (compact_entry before now result) }
        ensures tx { KeepsTx self.old self.new }
    {
        self.shared.compact(rt, &mut self.port)
    }

    /// Compacts into an image of form 2, in which transactions of either mode may begin, and answers the floor.
    ///
    /// # Errors
    ///
    /// As those of `Core::upgrade`, at this turn.
    pub fn upgrade<R: Wait>(&mut self, rt: &R) -> Result<u64, CoreError>
        ensures did { (before : ℕ) × (now : ℕ) × Made O.start self.old self.new (upgrade_entry before now result) }
        ensures tx { KeepsTx self.old self.new }
    {
        self.shared.upgrade(rt, &mut self.port)
    }

    /// The numbers of the image and of its transactions.
    pub fn stat<R: Wait>(&mut self, rt: &R) -> Stat
        ensures did { Made O.start self.old self.new (OfStat (numbers_of result)) }
        ensures tx { KeepsTx self.old self.new }
    {
        self.shared.stat(rt, &mut self.port)
    }
}
