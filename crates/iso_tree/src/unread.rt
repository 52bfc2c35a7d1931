// The nodes that a scan has still to read.
ghost use Rattle.std.specs.Prelude.{◌≡◌, [], ◌∷◌, IfSome, IfNone};
ghost use Rattle.iso_tree.specs.Walks.{OrMemory};

use std::alloc::Global;
use std::marker::Model;
use store_model::{StoreError, TxError};

/// The nodes that a scan has still to read. Contracts see a list of level and block, the next node first.
#[derive(Drop)]
pub struct Unread {
    nodes: Vec<(u8, u32)>,
}

impl Model for Unread {
    ghost use Rattle.std.specs.Prelude.{ℕ, List, reverse};

    ghost Value = { List (ℕ × ℕ) };

    ghost view = { λ a. reverse a.nodes.items };
}

impl Unread {
    /// No node. It takes no memory.
    pub fn empty(alloc: Global) -> Unread
        ensures { result ≡ [] }
    {
        Unread {
            nodes: Vec::new(alloc),
        }
    }

    /// Puts a node before all others.
    ///
    /// # Errors
    ///
    /// Want of memory, as that of the transaction.
    pub fn push(&mut self, level: u8, block: u32) -> Result<(), StoreError>
        ensures { OrMemory (self.new ≡ (level, block) ∷ self.old) result }
    {
        match self.nodes.push((level, block)) {
            Ok(()) => Ok(()),
            Err(_) => Err(StoreError::Tx(TxError::Memory)),
        }
    }

    /// Takes the next node off, if there is one.
    pub fn pop(&mut self) -> Option<(u8, u32)>
        ensures some { IfSome result (λ node. self.old ≡ node ∷ self.new) }
        ensures none { IfNone result (self.old ≡ []) }
    {
        self.nodes.pop()
    }
}
