// Items under labels.
ghost use Rattle.std.specs.{Prelude.{◌≡◌, bytes_eq, [], ◌∷◌, ◌++◌, None, IsErr, IsSome, IfErr, OnOk, drop, is_some, slice_get, option_map}, Map.{lookup, remove_entry}};

use indexmap::IndexMap;
use iso_model::Label;
use std::alloc::Global;
use std::marker::Model;

/// Why an item is not posted.
#[derive(Clone, Copy, Debug, PartialEq, Eq)]
pub enum PostError {
    /// An item is held under the label.
    LabelTaken,
    /// Want of memory.
    Memory,
}

/// Items under labels, in the order of their posts. Contracts see the list of the labels' texts, each with its item.
#[derive(Drop)]
pub struct Rack<T> {
    // Under the key of its label, each item with its label.
    items: IndexMap<u128, (Label, T)>,
}

impl<T> Model for Rack<T> {
    ghost use Rattle.std.specs.{Prelude.{List, ℕ, map}, List.AllByRecursion};
    ghost use Rattle.tx_table.specs.Rack.{IsKeyed};

    ghost Value = { List (List ℕ × T) };

    ghost view = { λ a. map (λ e. e.1) a.items.entries };

    ghost invariant = { λ a. AllByRecursion IsKeyed a.items.entries };
}

impl<T: Drop> Rack<T> {
    /// Nothing. It takes no memory.
    pub fn empty(alloc: Global) -> Self
        ensures { result ≡ [] }
    {
        Rack {
            items: IndexMap::new(alloc),
        }
    }

    /// Whether an item is held under a label. It takes no memory.
    pub fn is_held(&self, label: &Label) -> bool
        ensures { result ≡ is_some (lookup (bytes_eq label.now) self.now) }
    {
        self.items.contains_key(&label.key())
    }

    /// Puts an item under a label, after all others.
    ///
    /// # Errors
    ///
    /// The item is handed back, and all is as before.
    /// - `LabelTaken` exactly where an item is held under the label.
    /// - `Memory`: want of memory.
    pub fn post(&mut self, label: Label, item: T) -> Result<(), (PostError, T)>
        ensures ok { OnOk result (self.new ≡ self.old ++ (label, item) ∷ []) }
        ensures err { IfErr result (λ e. (self.new ≡ self.old) × (e.1 ≡ item)) }
        ensures taken { IsSome (lookup (bytes_eq label) self.old) → IfErr result (λ e. e.0 ≡ PostError.LabelTaken) }
        ensures held { IsSome (lookup (bytes_eq label) self.old) → IsErr result }
        ensures free { lookup (bytes_eq label) self.old ≡ None → IfErr result (λ e. e.0 ≡ PostError.Memory) }
    {
        let key = label.key();
        if self.items.contains_key(&key) {
            return Err((PostError::LabelTaken, item));
        }
        match self.items.insert(key, (label, item)) {
            Ok(_) => Ok(()),
            Err(full) => Err((PostError::Memory, full.value.1.1)),
        }
    }

    /// Takes the item under a label out, and none exactly where none is held there.
    pub fn look(&mut self, label: &Label) -> Option<T>
        ensures item { result ≡ lookup (bytes_eq label.now) self.old }
        ensures rest { self.new ≡ remove_entry (bytes_eq label.now) self.old }
    {
        let (_, item) = self.items.shift_remove(&label.key())?;
        Some(item)
    }

    /// Takes the oldest item out, and none exactly where none is held.
    pub fn pop(&mut self) -> Option<T>
        ensures item { result ≡ option_map (λ e. e.1) (slice_get self.old 0) }
        ensures rest { self.new ≡ drop 1 self.old }
    {
        let (_, (_, item)) = self.items.shift_remove_index(0)?;
        Some(item)
    }
}
