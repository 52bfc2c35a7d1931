// A core over an image whose half was read or made.
ghost use Rattle.std.specs.Prelude.{◌≡◌, false};
ghost use Rattle.iso_model.specs.{History.History, World.fresh};
ghost use Rattle.iso_core.specs.{Kept.IsOf, Opening.IsOpenedTo};

use crate::kept::Kept;
use conflict_rule::Notes;
use iso_format::RecordBuffer;
use iso_log::Log;
use iso_model::Geometry;
use mv_index::MvIndex;
use std::alloc::Global;
use tx_table::Live;

/// What is known of an image once its current half was read or made: its numbers, the half (0 or 1) with its generation and
/// base number, the half's log after its last record, and the versions in it. The buffer is the core's, for the records of
/// its commits.
#[derive(Drop)]
pub struct Opened {
    pub geometry: Geometry,
    pub half: u8,
    pub generation: u64,
    pub base: u64,
    pub log: Log,
    pub index: MvIndex,
    pub buffer: RecordBuffer,
}

/// What a core keeps of an image that was just opened: no transaction has begun, and nothing was trimmed. It takes no memory.
pub(crate) fn keep(alloc: Global, opened: Opened) -> Kept
    ensures kept { (H : History) → IsOpenedTo H opened → IsOf result (fresh opened.geometry opened.generation H) }
    ensures half { result.half ≡ opened.half }
    ensures up { result.down ≡ false }
{
    Kept {
        alloc,
        geometry: opened.geometry,
        half: opened.half,
        generation: opened.generation,
        base: opened.base,
        trim: opened.base,
        next: 1,
        log: opened.log,
        index: opened.index,
        notes: Notes::empty(alloc),
        live: Live::empty(alloc),
        down: false,
        buffer: opened.buffer,
        parts: Vec::new(alloc),
    }
}
