// A transaction over an array in memory.
ghost use Rattle.std.specs.Prelude.{◌≡◌, ◌*◌, ◌<◌, ◌≤◌, length};

use iso_model::{Geometry, MarkError, Mode};
use std::alloc::Global;
use store_model::TxError;
use tx_blocks::TxBlocks;
use tx_table::Work;

/// A transaction over an array in memory. It never answers `Down`, `Disk` or `NotInTx`.
#[derive(Drop)]
pub struct PlainTx {
    blocks: Vec<u8>,
    count: u32,
    work: Work,
    ghost small: { count < 4294967296 },
    ghost least: { 64 ≤ work.size },
    ghost most: { work.size ≤ 4096 },
    ghost same: { work.blocks ≡ count },
    ghost whole: { length blocks.items ≡ count * work.size },
    ghost few: { length work.accesses ≤ 4096 },
}

impl PlainTx {
    ghost use Rattle.std.specs.Prelude.{◌≡◌, ◌+◌, ◌*◌, ◌/◌, ◌%◌, ◌<◌, ◌≤◌, ◌^◌, IsTrue, Some, length, [], true};
    ghost use Rattle.iso_model.specs.Geometry.{is_block_size};
    ghost use Rattle.plain_tx.specs.Plain.{blocks_of, state_of};

    /// A transaction that has done nothing, over these bytes as blocks of `block` bytes each, which they fill. It takes
    /// no memory.
    pub fn new(alloc: Global, blocks: Vec<u8>, block: u32) -> PlainTx
        requires block { IsTrue (is_block_size block) }
        requires whole { length blocks.items % block ≡ 0 }
        requires few { length blocks.items / block < 2 ^ 32 }
        ensures { state_of result ≡ record { size = block; blocks = length blocks.items / block; base = Some (blocks_of block (length blocks.items / block) blocks.items); accesses = []; is_open = true } }
    {
        let count = (blocks.len() / block as usize) as u32;
        let geometry = Geometry {
            block,
            blocks: count,
            log: 64,
            mode: Mode::Serial,
            hash: 0,
            tree: 0,
            form: 1,
        };
        let work = Work::begin(alloc, 0, &geometry);
        PlainTx {
            blocks,
            count,
            work,
        }
    }
}

impl TxBlocks for PlainTx {
    ghost use Rattle.std.specs.Prelude.{false};
    ghost use Rattle.plain_tx.specs.Plain.{state_of, plain_limits};

    ghost state = { state_of };

    ghost device = { λ _. record { faults = 0; is_down = false } };

    fn block_size(&self) -> u32 {
        self.work.block_size()
    }

    fn room(&self) -> u32 {
        self.work.room()
    }

    fn read_block(&mut self, block: u32, into: &mut [u8]) -> Result<(), TxError> {
        if block >= self.count {
            return Err(TxError::BadBlock);
        }
        if self.work.room() == 0 {
            return Err(TxError::TooManyAccesses);
        }
        if let Err(_) = self.work.reserve(block) {
            return Err(TxError::Memory);
        }
        let size = into.len();
        let at = block as usize * size;
        into.copy_from_slice(&self.blocks[at..at + size]);
        self.work.read(block, into);
        Ok(())
    }

    fn write_block(&mut self, block: u32, bytes: &[u8]) -> Result<(), TxError> {
        if block >= self.count {
            return Err(TxError::BadBlock);
        }
        if self.work.room() == 0 {
            return Err(TxError::TooManyAccesses);
        }
        if let Err(_) = self.work.reserve(block) {
            return Err(TxError::Memory);
        }
        self.work.write(block, bytes);
        Ok(())
    }

    fn mark_accessed(&mut self, off: u16, len: u16) -> Result<(), TxError> {
        match self.work.mark(off, len) {
            Ok(()) => Ok(()),
            Err(MarkError::BadRange) => Err(TxError::BadRange),
            Err(MarkError::NoAccess) => Err(TxError::NoAccess),
            Err(MarkError::TooManyMarks) => Err(TxError::TooManyMarks),
        }
    }

    ghost limits = { plain_limits };
}
