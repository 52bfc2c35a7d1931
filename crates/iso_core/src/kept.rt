// What a core keeps in memory.

use conflict_rule::Notes;
use iso_format::RecordBuffer;
use iso_log::Log;
use iso_model::Geometry;
use mv_index::MvIndex;
use std::alloc::Global;
use tx_table::Live;
use version_read::PartSpan;

/// All that a core keeps in memory: of the image its numbers, the current half with its log, the versions in it, and what
/// later commits wrote; the live transactions; whether a fault set the core down.
#[derive(Drop)]
pub(crate) struct Kept {
    pub(crate) alloc: Global,
    pub(crate) geometry: Geometry,
    pub(crate) half: u8,
    pub(crate) generation: u64,
    pub(crate) base: u64,
    pub(crate) trim: u64,
    // the number of the next transaction
    pub(crate) next: u64,
    pub(crate) log: Log,
    pub(crate) index: MvIndex,
    pub(crate) notes: Notes,
    pub(crate) live: Live,
    pub(crate) down: bool,
    // for the records of a commit, and for the parts of one
    pub(crate) buffer: RecordBuffer,
    pub(crate) parts: Vec<PartSpan>,
}
