// The one implementation of the list types. Contracts see a list of items.
ghost use Rattle.std.specs.Prelude.{◌≡◌, ◌≤◌, ◌==◌, [], ◌∷◌, ◌++◌, length, IfErr, IfOk, OnOk, OnErr, option_copied, slice_get};

use crate::reserved::Reserved;
use crate::{Access, GroupReply, Label, Memory, Span};
use std::alloc::Global;
use std::marker::Model;

/// A list that keeps its allocator. Contracts see the items in order.
#[derive(Debug, Drop)]
pub struct Items<T> {
    items: Vec<T>,
}

impl<T> Model for Items<T> {
    ghost use Rattle.std.specs.Prelude.{List};

    ghost Value = { List T };

    ghost view = { λ a. a.items.items };
}

/// The spans of an access; no span means the whole block.
pub type SpanList = Items<Span>;

/// A text, or the bytes of a block.
pub type Bytes = Items<u8>;

/// The accesses of a transaction, in order.
pub type AccessList = Items<Access>;

/// The labels of a group, in order.
pub type LabelList = Items<Label>;

/// The answers of a group, a member each.
pub type ReplyList = Items<GroupReply>;

/// The answers to the labels of a group: none for a label under which nothing was found.
pub type LabelReplies = Items<Option<GroupReply>>;

impl<T> Items<T> {
    /// No items. It takes no memory.
    pub fn empty(alloc: Global) -> Self
        ensures { result ≡ [] }
    {
        Items {
            items: Vec::new(alloc),
        }
    }

    /// The items of a vector. It takes no memory.
    pub fn of(items: Vec<T>) -> Self
        ensures { result ≡ items.items }
    {
        Items { items }
    }

    /// Makes room for `more` more items, so that adding them takes no memory. Contracts do not see the room of a list
    /// that is data of the model; with `with_room` they do.
    ///
    /// # Errors
    ///
    /// Want of memory. The items stay, as they do at Ok.
    pub fn reserve(&mut self, more: u32) -> Result<(), Memory>
        ensures { self.new ≡ self.old }
    {
        self.items.reserve(more as usize)?;
        Ok(())
    }

    /// The list with room for `more` more items, within which a push takes no memory; `into_items` is the way back.
    ///
    /// # Errors
    ///
    /// Want of memory. The list is handed back.
    pub fn with_room(self, more: u32) -> Result<Reserved<T>, Items<T>>
        ensures ok { IfOk result (λ r. (r.items ≡ self) × (more ≤ r.room)) }
        ensures err { IfErr result (λ list. list ≡ self) }
    {
        let Items { mut items } = self;
        match items.reserve(more as usize) {
            Ok(()) => Ok(Reserved::of(items)),
            Err(_) => Err(Items { items }),
        }
    }

    /// Adds an item at the end.
    ///
    /// # Errors
    ///
    /// Want of memory. The list stays as it is.
    pub fn push(&mut self, item: T) -> Result<(), Memory>
    where
        T: Drop,
        ensures ok { OnOk result (self.new ≡ self.old ++ item ∷ []) }
        ensures err { OnErr result (self.new ≡ self.old) }
    {
        self.items.push(item)?;
        Ok(())
    }

    /// How many items there are.
    pub fn len(&self) -> usize
        ensures { result ≡ length self.now }
    {
        self.items.len()
    }

    /// Whether there are none.
    pub fn is_empty(&self) -> bool
        ensures { result ≡ (length self.now == 0) }
    {
        self.items.is_empty()
    }

    /// The item at a place, and none exactly past the end.
    pub fn get(&self, i: u32) -> Option<&T>
        ensures { option_copied result ≡ slice_get self.now i }
    {
        self.items.get(i as usize)
    }

    /// All items, borrowed.
    pub fn as_slice(&self) -> &[T]
        ensures { result.now ≡ self.now }
    {
        self.items.as_slice()
    }

    /// The items as a vector. It takes no memory.
    pub fn into_vec(self) -> Vec<T>
        ensures { result.items ≡ self }
    {
        self.items
    }
}
