// The parts of a record.
ghost use Rattle.std.specs.Prelude.{◌≡◌, ◌==◌, [], ◌∷◌, ◌++◌, length, OnOk, OnErr};

use crate::{Items, Memory, Run};
use std::alloc::Global;
use std::marker::Model;

/// The parts of a record, which it owns. Contracts see a list of runs.
#[derive(Debug, Drop)]
pub struct PartList {
    alloc: Global,
    parts: Items<Run>,
}

impl Model for PartList {
    ghost use Rattle.std.specs.Prelude.{List};
    ghost use Rattle.iso_model.specs.declared.access.Run.{Run};

    ghost Value = { List Run };

    ghost view = { λ a. a.parts };
}

impl PartList {
    /// No parts. It takes no memory.
    pub fn empty(alloc: Global) -> Self
        ensures { result ≡ [] }
    {
        PartList {
            alloc,
            parts: Items::empty(alloc),
        }
    }

    /// Adds a part at the end, with a copy of its bytes.
    ///
    /// # Errors
    ///
    /// Want of memory. The list stays as it is.
    pub fn push(&mut self, block: u32, off: u16, bytes: &[u8]) -> Result<(), Memory>
        ensures ok { OnOk result (self.new ≡ self.old ++ record { block = block; off = off; bytes = bytes.now } ∷ []) }
        ensures err { OnErr result (self.new ≡ self.old) }
    {
        let bytes = Items::of(Vec::from_slice(self.alloc, bytes)?);
        self.parts.push(Run { block, off, bytes })
    }

    /// How many parts there are.
    pub fn len(&self) -> usize
        ensures { result ≡ length self.now }
    {
        self.parts.len()
    }

    /// Whether there are none.
    pub fn is_empty(&self) -> bool
        ensures { result ≡ (length self.now == 0) }
    {
        self.parts.is_empty()
    }

    /// All parts, borrowed.
    pub fn as_slice(&self) -> &[Run]
        ensures { result.now ≡ self.now }
    {
        self.parts.as_slice()
    }
}
