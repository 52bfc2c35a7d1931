// The calls that need no transaction.
ghost use Rattle.std.specs.Prelude.{◌≡◌, ℕ, ◌<◌};
ghost use Rattle.iso_shared.specs.{declared.entry.Entry.TheVariants.{Stat as OfStat}, Ports.{IsPort, Made, port_view}, Told.{compact_entry, numbers_of, trim_entry, upgrade_entry}};

use crate::guarded::Origin;
use crate::shared::{Port, Shared};
use crate::told::Told;
use iso_core::Stat;
use iso_disk::Disk;
use iso_model::CoreError;
use std::snapshot::Snapshot;
use std::sync::Wait;

impl<D: Disk + Drop, O: Origin> Shared<D, O> {
    /// Lets the versions go that no transaction can be shown any more, and answers the floor.
    ///
    /// # Errors
    ///
    /// As those of `Core::trim`, at this turn: `Down`.
    pub fn trim<R: Wait>(&self, rt: &R, port: &mut Port<D, O>) -> Result<u64, CoreError>
        requires port { IsPort self.now port.old }
        ensures port { IsPort self.now port.new }
        ensures units { (port_view port.new).units ≡ (port_view port.old).units }
        ensures made { (before : ℕ) × (now : ℕ) × Made O.start (port_view port.old) (port_view port.old) (trim_entry before now result) (port_view port.new) }
    {
        let mut turn = self.lock.take(rt, &mut port.pass);
        let guarded = turn.value();
        let before = Snapshot::of(&guarded.core);
        let result = guarded.core.trim();
        self.give(&mut port.pass, turn, before, Told::Trim(result));
        result
    }

    /// Moves the base to the floor, in the other half, and answers the floor.
    ///
    /// # Errors
    ///
    /// As those of `Core::compact`, at this turn.
    pub fn compact<R: Wait>(&self, rt: &R, port: &mut Port<D, O>) -> Result<u64, CoreError>
        requires port { IsPort self.now port.old }
        ensures port { IsPort self.now port.new }
        ensures units { (port_view port.new).units ≡ (port_view port.old).units }
        ensures made { (before : ℕ) × (now : ℕ) × Made O.start (port_view port.old) (port_view port.old) (compact_entry before now result) (port_view port.new) }
    {
        let mut turn = self.lock.take(rt, &mut port.pass);
        let guarded = turn.value();
        let before = Snapshot::of(&guarded.core);
        let result = guarded.core.compact();
        self.give(&mut port.pass, turn, before, Told::Compact(result));
        result
    }

    /// Compacts into an image of form 2, in which transactions of either mode may begin, and answers the floor.
    ///
    /// # Errors
    ///
    /// As those of `Core::upgrade`, at this turn.
    pub fn upgrade<R: Wait>(&self, rt: &R, port: &mut Port<D, O>) -> Result<u64, CoreError>
        requires port { IsPort self.now port.old }
        ensures port { IsPort self.now port.new }
        ensures units { (port_view port.new).units ≡ (port_view port.old).units }
        ensures made { (before : ℕ) × (now : ℕ) × Made O.start (port_view port.old) (port_view port.old) (upgrade_entry before now result) (port_view port.new) }
    {
        let mut turn = self.lock.take(rt, &mut port.pass);
        let guarded = turn.value();
        let before = Snapshot::of(&guarded.core);
        let result = guarded.core.upgrade();
        self.give(&mut port.pass, turn, before, Told::Upgrade(result));
        result
    }

    /// The numbers of the image and of its transactions.
    pub fn stat<R: Wait>(&self, rt: &R, port: &mut Port<D, O>) -> Stat
        requires port { IsPort self.now port.old }
        ensures port { IsPort self.now port.new }
        ensures units { (port_view port.new).units ≡ (port_view port.old).units }
        ensures made { Made O.start (port_view port.old) (port_view port.old) (OfStat (numbers_of result)) (port_view port.new) }
    {
        let mut turn = self.lock.take(rt, &mut port.pass);
        let guarded = turn.value();
        let before = Snapshot::of(&guarded.core);
        let stat = guarded.core.stat();
        self.give(&mut port.pass, turn, before, Told::Stat(stat));
        stat
    }
}
