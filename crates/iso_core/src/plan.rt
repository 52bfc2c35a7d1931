// What a group is to append, and to take in once that is done.
ghost use Rattle.iso_core.specs.Planned.{IsEmpty};

use conflict_rule::Notes;
use std::alloc::Global;
use version_read::PartSpan;

/// A record that is to be appended: where its gate is after the first one, and how many parts it has.
#[derive(Drop)]
pub(crate) struct Staged {
    pub(crate) at: u64,
    pub(crate) count: usize,
}

/// The records of a group, spelled one after another, with the parts of all of them, and what each wrote.
#[derive(Drop)]
pub(crate) struct Plan {
    pub(crate) bytes: Vec<u8>,
    pub(crate) staged: Vec<Staged>,
    pub(crate) parts: Vec<PartSpan>,
    pub(crate) notes: Notes,
}

impl Plan {
    /// No record. It takes no memory.
    pub(crate) fn empty(alloc: Global) -> Plan {
        Plan {
            bytes: Vec::new(alloc),
            staged: Vec::new(alloc),
            parts: Vec::new(alloc),
            notes: Notes::empty(alloc),
        }
    }

    /// Has no record any more. The memory stays for those that come.
    pub(crate) fn clear(&mut self, alloc: Global)
        ensures { IsEmpty self.new }
    {
        self.bytes.clear();
        self.staged.clear();
        self.parts.clear();
        self.notes = Notes::empty(alloc);
    }
}
