// The versions of one block.
ghost use Rattle.std.specs.Prelude.{◌≡◌, ◌+◌, ◌-◌, ◌^◌, ◌<◌, ◌≤◌, ◌++◌, [], ◌∷◌, ℕ, IsOk, OnOk, length};
ghost use Rattle.mv_index.specs.{Moves.{AreSplit, moved_to}, Ranges.{AreShowing, DropsSome, TakesHalves}, Shown.{AllLie, Lies}, Versions.{AreAtMost, Rise, shown_since, upto}, Weights.part_bytes_above};

use crate::moving::move_list;
use crate::pieces::lay;
use crate::search::count_upto;
use crate::trim::trim_list;
use crate::weight::sum_above;
use crate::{Ledger, Steps, Version};
use iso_model::Memory;
use std::alloc::Global;
use std::marker::Model;

/// The versions of one block, rising, and the pieces of them that show at the last number, in the order of their bytes.
/// Contracts see the versions, and for how many more there is room: each takes room for two pieces at most.
#[derive(Drop)]
pub struct Row {
    versions: Vec<Version>,
    pieces: Vec<Version>,
}

impl Model for Row {
    ghost use Rattle.std.specs.Prelude.{◌-◌, ◌/◌, min, vec_len, vec_capacity};
    ghost use Rattle.mv_index.specs.{Pieces.IsRow, Versions.BlockVersions};

    ghost Value = { BlockVersions };

    ghost view = { λ a. record { versions = a.versions.items; room = min (vec_capacity a.versions - vec_len a.versions) ((vec_capacity a.pieces - vec_len a.pieces) / 2) } };

    ghost invariant = { λ a. IsRow a.versions.items a.pieces.items };
}

impl Row {
    /// No versions. It takes no memory.
    pub fn empty(alloc: Global) -> Row
        ensures { result.versions ≡ [] }
    {
        Row {
            versions: Vec::new(alloc),
            pieces: Vec::new(alloc),
        }
    }

    /// The versions with a number at or below this one, rising.
    pub fn find<L: Ledger>(&self, at: u64, steps: &mut Steps<L>) -> &[Version]
        ensures exact { result.now ≡ upto at self.now.versions }
        ensures rising { Rise result.now }
        ensures took { TakesHalves (length self.now.versions) steps.old steps.new }
    {
        let count = count_upto(self.versions.as_slice(), at, steps);
        &self.versions.as_slice()[..count]
    }

    /// The pieces of the versions that show at the last number, in the order of their bytes.
    pub fn showing(&self) -> &[Version]
        ensures { AreShowing result.now self.now.versions }
    {
        self.pieces.as_slice()
    }

    /// Makes room for `count` more versions. Where the room is there already it takes no memory.
    ///
    /// # Errors
    ///
    /// Want of memory. The versions stay.
    pub fn reserve(&mut self, count: u32) -> Result<(), Memory>
        ensures same { self.new.versions ≡ self.old.versions }
        ensures room { OnOk result (count ≤ self.new.room) }
        ensures no_less { self.old.room ≤ self.new.room }
        ensures succeeds { count ≤ self.old.room → IsOk result }
    {
        self.versions.reserve(count as usize)?;
        self.pieces.reserve(2 * count as usize)?;
        Ok(())
    }

    /// Adds a version. There is room for it.
    #[inline(always)]
    pub fn add(&mut self, version: Version)
        requires room { 0 < self.old.room }
        requires rising { AreAtMost version.number self.old.versions }
        requires placed { Lies 4096 (2 ^ 64 - 1) version }
        ensures added { self.new.versions ≡ self.old.versions ++ version ∷ [] }
        ensures room { self.old.room ≤ self.new.room + 1 }
    {
        lay(&mut self.pieces, &version);
        self.versions.push_reserved(version);
    }

    /// Drops the versions at or below the number that show no byte there. It answers how many.
    pub fn trim_to(&mut self, number: u64, seen: &mut [u64]) -> u64
        requires seen { length seen.old ≡ 64 }
        ensures kept { self.new.versions ≡ shown_since number self.old.versions }
        ensures drops { DropsSome (length self.old.versions) result (length self.new.versions) self.old.room self.new.room }
    {
        trim_list(&mut self.versions, number, seen)
    }

    /// Drops the versions whose bytes lie before a place, and moves those after it to another one: what was at `from`
    /// is at `to`. It answers how many it dropped.
    pub fn move_to(&mut self, from: u64, to: u64) -> u64
        requires split { AreSplit from self.old.versions }
        requires room { (block size : ℕ) × AllLie block size self.old.versions × (to + size < 2 ^ 64) }
        ensures moved { self.new.versions ≡ moved_to from to self.old.versions }
        ensures drops { DropsSome (length self.old.versions) result (length self.new.versions) self.old.room self.new.room }
    {
        move_list(&mut self.pieces, from, to);
        move_list(&mut self.versions, from, to)
    }

    /// How many bytes the parts of the versions above the number take in their records.
    pub fn bytes_above(&self, number: u64) -> u64
        requires { part_bytes_above number self.now.versions < 2 ^ 64 }
        ensures { result ≡ part_bytes_above number self.now.versions }
    {
        sum_above(self.versions.as_slice(), number)
    }
}
