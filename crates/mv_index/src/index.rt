// The versions of all blocks.
ghost use Rattle.std.specs.Prelude.{◌≡◌, ◌≢◌, ◌+◌, ◌-◌, ◌*◌, ◌^◌, ◌<◌, ◌≤◌, [], ℕ, IfOk, IsOk, OnOk, length};
ghost use Rattle.mv_index.specs.{Moves.{AreSplit, moved_to}, Ranges.AreShowing, Shown.{AllLie, AllMeet, ShowTheSameIn}, Versions.{AreAtMost, IsAdded, Rise, block_of, count_of, room_of, shown_since, upto, versions_in}, Weights.bytes_above};

use crate::pieces::meeting;
use crate::row::Row;
use crate::{Ledger, Steps, Version};
use iso_model::Memory;
use std::alloc::Global;
use std::marker::Model;

/// For each block its versions, rising. Contracts see a list with an entry for each block.
#[derive(Drop)]
pub struct MvIndex {
    rows: Vec<Row>,
    count: u64,
}

impl Model for MvIndex {
    ghost use Rattle.std.specs.Prelude.{◌≡◌, List};
    ghost use Rattle.mv_index.specs.Versions.{BlockVersions, count_of};

    ghost Value = { List BlockVersions };

    ghost view = { λ a. a.rows.items };

    ghost invariant = { λ a. a.count ≡ count_of a.rows.items };
}

impl MvIndex {
    /// An index of `blocks` blocks, without versions.
    ///
    /// # Errors
    ///
    /// Want of memory.
    pub fn empty(alloc: Global, blocks: u32) -> Result<MvIndex, Memory>
        ensures blocks { IfOk result (λ index. length index ≡ blocks) }
        ensures none { IfOk result (λ index. (b : ℕ) → versions_in index b ≡ []) }
        ensures count { IfOk result (λ index. count_of index ≡ 0) }
    {
        let mut rows = Vec::with_capacity(alloc, blocks as usize)?;
        for _ in 0..blocks {
            rows.push(Row::empty(alloc))?;
        }
        Ok(MvIndex { rows, count: 0 })
    }

    /// The versions of the block with a number at or below this one, rising.
    pub fn find<L: Ledger>(&self, block: u32, at: u64, steps: &mut Steps<L>) -> &[Version]
        requires { block < length self.now }
        ensures exact { result.now ≡ upto at (versions_in self.now block) }
        ensures rising { Rise result.now }
        ensures steps { steps.old ≤ steps.new }
        ensures cost { 2 ^ (steps.new - steps.old) ≤ 2 * length (versions_in self.now block) + 1 }
    {
        self.rows[block as usize].find(at, steps)
    }

    /// The pieces of the block's versions that show at the last number, in the order of their bytes: laid over the base they
    /// give the same bytes as all its versions in order. Each begins where the one before it ends or later, so no byte is in
    /// two of them.
    pub fn showing(&self, block: u32) -> &[Version]
        requires { block < length self.now }
        ensures { AreShowing result.now (versions_in self.now block) }
    {
        self.rows[block as usize].showing()
    }

    /// Those of the pieces that have a byte of the block from `from` up to `to`, in order, found by two searches by halves.
    pub fn showing_in(&self, block: u32, from: u16, to: u16) -> &[Version]
        requires block { block < length self.now }
        requires rise { from ≤ to }
        ensures same { ShowTheSameIn from to result.now (versions_in self.now block) }
        ensures meet { AllMeet from to result.now }
        ensures within { (size area : ℕ) → AllLie size area (versions_in self.now block) → AllLie size area result.now }
    {
        meeting(self.showing(block), from, to)
    }

    /// Makes room for `count` more versions of the block. Where the room is there already it takes no memory.
    ///
    /// # Errors
    ///
    /// Want of memory. The versions stay.
    pub fn reserve(&mut self, block: u32, count: u32) -> Result<(), Memory>
        requires { block < length self.old }
        ensures blocks { length self.new ≡ length self.old }
        ensures same { (b : ℕ) → versions_in self.new b ≡ versions_in self.old b }
        ensures others { (b : ℕ) → b ≢ block → block_of self.new b ≡ block_of self.old b }
        ensures room { OnOk result (count ≤ room_of self.new block) }
        ensures no_less { room_of self.old block ≤ room_of self.new block }
        ensures succeeds { count ≤ room_of self.old block → IsOk result }
        ensures count { count_of self.new ≡ count_of self.old }
    {
        self.rows[block as usize].reserve(count)
    }

    /// Adds a version to the block. There is room for it, and its number is not below the last one.
    #[inline(always)]
    pub fn add(&mut self, block: u32, version: Version)
        requires block { block < length self.old }
        requires room { 0 < room_of self.old block }
        requires rising { AreAtMost version.number (versions_in self.old block) }
        requires within { version.off + version.len ≤ 4096 }
        requires place { version.place + version.len < 2 ^ 64 }
        requires count { count_of self.old + 1 < 2 ^ 64 }
        ensures added { IsAdded block version self.old self.new }
    {
        self.rows[block as usize].add(version);
        self.count += 1;
    }

    /// Drops the versions at or below the number that show no byte there. It answers how many.
    pub fn trim_to(&mut self, number: u64) -> u64
        ensures blocks { length self.new ≡ length self.old }
        ensures kept { (b : ℕ) → versions_in self.new b ≡ shown_since number (versions_in self.old b) }
        ensures room { (b : ℕ) → room_of self.old b ≤ room_of self.new b }
        ensures count { result + count_of self.new ≡ count_of self.old }
    {
        let mut seen = [0; 64];
        let mut dropped = 0;
        for row in self.rows.as_mut_slice() {
            dropped += row.trim_to(number, &mut seen);
        }
        self.count -= dropped;
        dropped
    }

    /// Drops the versions whose bytes lie before a place of the image, and moves those after it to another place: what
    /// was at `from` is at `to`. It answers how many it dropped, and takes no memory.
    pub fn move_to(&mut self, from: u64, to: u64) -> u64
        requires split { (b : ℕ) → AreSplit from (versions_in self.old b) }
        requires room { (block size : ℕ) × ((b : ℕ) → AllLie block size (versions_in self.old b)) × (to + size < 2 ^ 64) }
        ensures blocks { length self.new ≡ length self.old }
        ensures moved { (b : ℕ) → versions_in self.new b ≡ moved_to from to (versions_in self.old b) }
        ensures room { (b : ℕ) → room_of self.old b ≤ room_of self.new b }
        ensures count { result + count_of self.new ≡ count_of self.old }
    {
        let mut gone = 0;
        for row in self.rows.as_mut_slice() {
            gone += row.move_to(from, to);
        }
        self.count -= gone;
        gone
    }

    /// How many bytes the parts of the versions above the number take in their records: each its bytes, and 8 before them.
    pub fn bytes_above(&self, number: u64) -> u64
        requires { bytes_above number self.now < 2 ^ 64 }
        ensures { result ≡ bytes_above number self.now }
    {
        let mut bytes = 0;
        for row in self.rows.as_slice() {
            bytes += row.bytes_above(number);
        }
        bytes
    }

    /// How many versions there are.
    pub fn count(&self) -> u64
        ensures { result ≡ count_of self.now }
    {
        self.count
    }
}
