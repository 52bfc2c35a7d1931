// The patches of the blocks that a transaction wrote.
ghost use Rattle.std.specs.{Prelude.{◌≡◌, ◌≢◌, ℕ, ◌+◌, ◌<◌, ◌≤◌, ◌==◌, [], true, false, None, IfNone, IfSome, IsOk, IsTrue, OnOk, OnErr, cond, length, replicate, slice_index_or, vec_capacity}, List.{All, insert}};
ghost use Rattle.iso_model.specs.Geometry.{is_block_size};
ghost use Rattle.merge_write.specs.Patch.{laid, written};
ghost use Rattle.tx_table.specs.Patches.{has_patch, patch_at, HasOneMore, HasRoom, HasTheSame, RisesFrom};

use crate::PatchIter;
use iso_model::{Memory, Span};
use merge_write::Patch;
use std::alloc::Global;
use std::marker::Model;

// A slot is numbered in 32 bits.
const MAX_SLOTS: usize = 4_294_967_295;

/// For each written block, rising, the slot of its patch. Patches never move: those of the written blocks are in the first slots,
/// and after them blank ones, so that one more block takes no memory. A block more moves the pairs of the blocks after it
/// alone: 8 bytes for each of at most 4,096, so no more than 32 KiB.
#[derive(Drop)]
pub struct Patches {
    alloc: Global,
    size: u32,
    order: Vec<(u32, u32)>,
    slots: Vec<Patch>,
}

impl Model for Patches {
    ghost use Rattle.std.specs.{Prelude.{◌≡◌, ◌<◌, ◌≤◌, ◌^◌, ◌&&◌, [], IsTrue, length, nat_lt, vec_capacity}, List.AllByRecursion};
    ghost use Rattle.iso_model.specs.Geometry.{is_block_size};
    ghost use Rattle.tx_table.specs.{Patches.{AreBlankFrom, Held, RisesFrom}, Slots.{entries_of, AreSlots}};

    ghost Value = { Held };

    ghost view = { λ a. record {
      size = a.size;
      entries = entries_of [] a.slots.items a.order.items;
      spare = nat_lt (length a.order.items) (length a.slots.items) && nat_lt (length a.order.items) (vec_capacity a.order);
    } };

    ghost invariant = { λ a.
        (IsTrue (is_block_size a.size)) × RisesFrom 0 a.order.items × AreSlots (length a.order.items) a.order.items
        × (length a.order.items ≤ length a.slots.items) × (length a.slots.items < 2 ^ 32)
        × AllByRecursion (λ slot. length slot ≡ a.size) a.slots.items × AreBlankFrom a.size (length a.order.items) a.slots.items };
}

// The place of the first block that is not below this one.
fn place_of(order: &[(u32, u32)], block: u32) -> usize
    requires { RisesFrom 0 order.now }
    ensures within { result ≤ length order.now }
    ensures before { (k : ℕ) → k < result → (d : ℕ × ℕ) → (slice_index_or order.now k d).0 < block }
    ensures after { (k : ℕ) → result ≤ k → k < length order.now → (d : ℕ × ℕ) → block ≤ (slice_index_or order.now k d).0 }
{
    order.partition_point(|entry| entry.0 < block)
}

// The slot of a block, and none exactly where it has none.
fn slot_of(order: &[(u32, u32)], block: u32) -> Option<u32>
    requires { RisesFrom 0 order.now }
    ensures found { IfSome result (λ slot. (i : ℕ) × (i < length order.now) × (slice_index_or order.now i (block, slot) ≡ (block, slot))) }
    ensures none { IfNone result ((k : ℕ) → (d : ℕ × ℕ) → k < length order.now → (slice_index_or order.now k d).0 ≢ block) }
{
    let place = place_of(order, block);
    if place >= order.len() {
        return None;
    }
    let entry = order[place];
    if entry.0 != block {
        return None;
    }
    Some(entry.1)
}

// Puts a slot at a place where there is room for it.
fn insert_within(order: &mut Vec<(u32, u32)>, place: usize, block: u32, slot: u32)
    requires place { place ≤ length order.old.items }
    requires room { length order.old.items < vec_capacity order.old }
    ensures { order.new.items ≡ insert order.old.items place (block, slot) }
{
    let _ = order.insert(place, (block, slot));
}

// Clears the patches of the first slots.
fn clear_slots(slots: &mut Vec<Patch>, count: usize)
    requires { count ≤ length slots.old.items }
    ensures len { length slots.new.items ≡ length slots.old.items }
    ensures cleared { (k : ℕ) → k < count → slice_index_or slots.new.items k [] ≡ replicate (length (slice_index_or slots.old.items k [])) None }
    ensures kept { (k : ℕ) → count ≤ k → slice_index_or slots.new.items k [] ≡ slice_index_or slots.old.items k [] }
{
    for slot in 0..count {
        slots[slot].clear();
    }
}

impl Patches {
    /// No patch. It takes no memory.
    pub fn empty(alloc: Global, size: u32) -> Patches
        requires { IsTrue (is_block_size size) }
        ensures { result ≡ record { size = size; entries = []; spare = false } }
    {
        Patches {
            alloc,
            size,
            order: Vec::new(alloc),
            slots: Vec::new(alloc),
        }
    }

    /// Whether there is a patch of the block.
    pub fn holds(&self, block: u32) -> bool
        ensures { result ≡ has_patch block self.now.entries }
    {
        match slot_of(self.order.as_slice(), block) {
            Some(_) => true,
            None => false,
        }
    }

    /// Makes room for a patch of a block. Where there is one, or room for it, it takes no memory.
    ///
    /// # Errors
    ///
    /// Want of memory. All is as before.
    pub fn reserve(&mut self, block: u32) -> Result<(), Memory>
        ensures size { self.new.size ≡ self.old.size }
        ensures entries { self.new.entries ≡ self.old.entries }
        ensures ok { OnOk result (HasRoom block self.new) }
        ensures err { OnErr result (self.new ≡ self.old) }
        ensures succeeds { HasRoom block self.old → IsOk result }
    {
        if self.holds(block) {
            return Ok(());
        }
        self.make_spare()
    }

    // Makes room for a patch of one more block.
    fn make_spare(&mut self) -> Result<(), Memory>
        ensures ok { OnOk result (self.new ≡ record self.old { spare = true }) }
        ensures err { OnErr result (self.new ≡ self.old) }
        ensures succeeds { self.old.spare ≡ true → IsOk result }
    {
        self.order.reserve(1)?;
        if self.order.len() < self.slots.len() {
            return Ok(());
        }
        if self.slots.len() >= MAX_SLOTS {
            return Err(Memory);
        }
        let patch = Patch::blank(self.alloc, self.size)?;
        self.slots.push(patch)?;
        Ok(())
    }

    // Adds a blank patch of a block.
    fn add(&mut self, block: u32)
        requires new { has_patch block self.old.entries ≡ false }
        requires room { self.old.spare ≡ true }
        ensures { HasOneMore block self.old self.new }
    {
        let place = place_of(self.order.as_slice(), block);
        let slot = self.order.len() as u32;
        insert_within(&mut self.order, place, block, slot);
    }

    /// Has a patch of a block: a blank one where there was none.
    pub fn hold(&mut self, block: u32)
        requires { has_patch block self.old.entries ≡ false → self.old.spare ≡ true }
        ensures { HasOneMore block self.old self.new }
    {
        if self.holds(block) {
            return;
        }
        self.add(block);
    }

    /// Sets the bytes that the spans cover, and the whole block where there are none.
    #[inline(never)]
    pub fn set(&mut self, block: u32, bytes: &[u8], spans: &[Span])
        requires held { has_patch block self.old.entries ≡ true }
        requires bytes { length bytes.now ≡ self.old.size }
        requires spans { All (λ span. span.off + span.len ≤ self.old.size) spans.now }
        ensures same { HasTheSame self.old self.new }
        ensures values { (b : ℕ) → patch_at self.old.size b self.new.entries
            ≡ cond (block == b) (written spans.now 0 (patch_at self.old.size b self.old.entries) bytes.now) (patch_at self.old.size b self.old.entries) }
    {
        let Some(slot) = slot_of(self.order.as_slice(), block) else {
            return;
        };
        self.slots[slot as usize].set_spans(bytes, spans);
    }

    /// Lays what is held for a block over it.
    pub fn lay(&self, block: u32, into: &mut [u8])
        requires { length into.old ≡ self.now.size }
        ensures { into.new ≡ laid (patch_at self.now.size block self.now.entries) into.old }
    {
        let Some(slot) = slot_of(self.order.as_slice(), block) else {
            return;
        };
        self.slots[slot as usize].over(into);
    }

    /// Holds no value any more.
    pub fn clear(&mut self)
        ensures same { HasTheSame self.old self.new }
        ensures values { (b : ℕ) → patch_at self.old.size b self.new.entries ≡ replicate self.old.size None }
    {
        clear_slots(&mut self.slots, self.order.len());
    }

    /// Has no patch any more. The memory stays for what comes.
    pub fn forget(&mut self)
        ensures size { self.new.size ≡ self.old.size }
        ensures none { self.new.entries ≡ [] }
    {
        clear_slots(&mut self.slots, self.order.len());
        self.order.clear();
    }

    /// The written blocks, rising, each with its patch.
    pub fn entries(&self) -> PatchIter<'_>
        ensures is { result ≡ self.now.entries }
        ensures rising { RisesFrom 0 result }
    {
        PatchIter::of(self.order.as_slice(), self.slots.as_slice())
    }
}
