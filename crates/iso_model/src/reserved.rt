// A list with room that was made before it is needed.
ghost use Rattle.std.specs.{Prelude.{◌≡◌, ◌+◌, ◌-◌, ◌<◌, ◌≤◌, ◌==◌, ◌↔◌, [], ◌∷◌, ◌++◌, length, take, IsOk, IsSome, OnOk, OnErr, option_copied, slice_get, vec_capacity, vec_len}, Borrow.sem, List.{IsItemAtMut, ItemMut}, Option.option_to_list};
ghost use Rattle.iso_model.specs.Reserved.{places};

use crate::{Items, Memory};
use std::alloc::Global;
use std::marker::Model;

/// A list that keeps its allocator and its room. Contracts see the items in order and the room: how many more fit
/// without memory.
#[derive(Debug, Drop)]
pub struct Reserved<T> {
    items: Vec<T>,
}

impl<T> Model for Reserved<T> {
    ghost use Rattle.std.specs.Prelude.{◌-◌, vec_capacity, vec_len};
    ghost use Rattle.iso_model.specs.Reserved.{WithRoom};

    ghost Value = { WithRoom T };

    ghost view = { λ a. record { items = a.items.items; room = vec_capacity a.items - vec_len a.items } };
}

impl<T> Reserved<T> {
    ghost use Rattle.iso_model.specs.ReservedLends.{lends_item};

    /// No items and no room. It takes no memory.
    pub fn empty(alloc: Global) -> Self
        ensures { result ≡ record { items = []; room = 0 } }
    {
        Reserved {
            items: Vec::new(alloc),
        }
    }

    // The items of a vector, and the room that it has.
    pub(crate) fn of(items: Vec<T>) -> Self
        ensures { result ≡ record { items = items.items; room = vec_capacity items - vec_len items } }
    {
        Reserved { items }
    }

    /// Makes room for `more` more items. Where there is room for them already it takes no memory.
    ///
    /// # Errors
    ///
    /// Want of memory. The list stays as it is.
    pub fn reserve(&mut self, more: u32) -> Result<(), Memory>
        ensures ok { OnOk result (more ≤ self.new.room) }
        ensures items { self.new.items ≡ self.old.items }
        ensures room { self.old.room ≤ self.new.room }
        ensures succeeds { more ≤ self.old.room → IsOk result }
        ensures err { OnErr result (self.new ≡ self.old) }
    {
        self.items.reserve(more as usize)?;
        Ok(())
    }

    /// Adds an item at the end. Where there is room it takes no memory.
    ///
    /// # Errors
    ///
    /// Want of memory. The list stays as it is.
    pub fn push(&mut self, item: T) -> Result<(), Memory>
    where
        T: Drop,
        ensures ok { OnOk result (self.new.items ≡ self.old.items ++ item ∷ []) }
        ensures room { self.old.room - 1 ≤ self.new.room }
        ensures succeeds { 0 < self.old.room → IsOk result }
        ensures err { OnErr result (self.new ≡ self.old) }
    {
        self.items.reserve(1)?;
        self.items.push_reserved(item);
        Ok(())
    }

    /// Adds an item at the end, where there is room for it.
    pub fn push_within(&mut self, item: T)
        requires { 0 < self.old.room }
        ensures { self.new ≡ record { items = self.old.items ++ item ∷ []; room = self.old.room - 1 } }
    {
        self.items.push_reserved(item);
    }

    /// Takes the last item off, if there is one. Its place is room then.
    pub fn pop(&mut self) -> Option<T>
        ensures items { self.old.items ≡ self.new.items ++ option_to_list result }
        ensures some { IsSome result ↔ (0 < length self.old.items) }
        ensures room { places self.new ≡ places self.old }
    {
        self.items.pop()
    }

    /// Keeps the first `count` items. The places of the others are room then.
    pub fn truncate(&mut self, count: u32)
    where
        T: Drop,
        ensures items { self.new.items ≡ take count self.old.items }
        ensures room { places self.new ≡ places self.old }
    {
        self.items.truncate(count as usize);
    }

    /// Drops all items. Their places are room then.
    pub fn clear(&mut self)
    where
        T: Drop,
        ensures { self.new ≡ record { items = []; room = places self.old } }
    {
        self.items.clear();
    }

    /// How many items there are.
    pub fn len(&self) -> usize
        ensures { result ≡ length self.now.items }
    {
        self.items.len()
    }

    /// Whether there are none.
    pub fn is_empty(&self) -> bool
        ensures { result ≡ (length self.now.items == 0) }
    {
        self.items.is_empty()
    }

    /// How many more items fit without memory.
    pub fn room(&self) -> usize
        ensures { result ≡ self.now.room }
    {
        self.items.capacity() - self.items.len()
    }

    /// The item at a place, and none exactly past the end.
    pub fn get(&self, i: u32) -> Option<&T>
        ensures { option_copied result ≡ slice_get self.now.items i }
    {
        self.items.get(i as usize)
    }

    /// The item at a place, to change it, and none exactly past the end.
    pub fn get_mut(&mut self, i: u32) -> Option<&mut T>
        ensures* writes_back { sem 𝓛 (lends_item T.row self.entry i result) }
        ensures some { IsSome result ↔ (i < length self.old.items) }
        ensures item { IsItemAtMut self.old.items i result }
    {
        self.items.get_mut(i as usize)
    }

    /// The last item, to change it, and none exactly where there is none.
    pub fn last_mut(&mut self) -> Option<&mut T>
        ensures* writes_back { sem 𝓛 (lends_item T.row self.entry (length self.old.items - 1) result) }
        ensures some { IsSome result ↔ (0 < length self.old.items) }
        ensures item { ItemMut self.old.items 0 (length self.old.items - 1) result }
    {
        self.items.last_mut()
    }

    /// All items, borrowed.
    pub fn as_slice(&self) -> &[T]
        ensures { result.now ≡ self.now.items }
    {
        self.items.as_slice()
    }

    /// The items, without their room. It takes no memory.
    pub fn into_items(self) -> Items<T>
        ensures { result ≡ self.items }
    {
        Items::of(self.items)
    }
}
