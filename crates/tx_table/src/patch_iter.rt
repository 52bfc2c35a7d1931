// The patches of a transaction, one by one.
ghost use Rattle.std.specs.{Prelude.{◌≡◌, ◌<◌, [], length}, Iterator.{YieldsFirstBy, item_count}, List.AllByRecursion};
ghost use Rattle.tx_table.specs.Slots.{entries_of};

use merge_write::Patch;
use std::marker::Model;

/// The written blocks, rising, each with its patch. Contracts see the list of those that are still to come.
#[derive(Drop)]
pub struct PatchIter<'a> {
    rest: &'a [(u32, u32)],
    slots: &'a [Patch],
}

impl<'a> Model for PatchIter<'a> {
    ghost use Rattle.std.specs.{Prelude.{List, Option, ℕ, ◌<◌, [], length}, List.AllByRecursion};
    ghost use Rattle.tx_table.specs.Slots.{entries_of};

    ghost Value = { List (ℕ × List (Option ℕ)) };

    ghost view = { λ a. entries_of [] a.slots.now a.rest.now };

    ghost invariant = { λ a. AllByRecursion (λ e. e.1 < length a.slots.now) a.rest.now };
}

impl<'a> PatchIter<'a> {
    pub(crate) fn of(rest: &'a [(u32, u32)], slots: &'a [Patch]) -> Self
        requires { AllByRecursion (λ e. e.1 < length slots.now) rest.now }
        ensures { result ≡ entries_of [] slots.now rest.now }
    {
        PatchIter { rest, slots }
    }
}

impl<'a> Iterator for PatchIter<'a> {
    type Item = (u32, &'a Patch);

    ghost next_gives = { YieldsFirstBy (λ item. (item.0, item.1.now)) (λ patches. patches) };

    ghost remaining = { item_count (λ patches. patches) };

    fn next(&mut self) -> Option<(u32, &'a Patch)> {
        let (first, others) = self.rest.split_first()?;
        let item = (first.0, &self.slots[first.1 as usize]);
        self.rest = others;
        Some(item)
    }
}
