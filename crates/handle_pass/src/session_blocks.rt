// The transaction of a session as a transaction over blocks.
ghost use Rattle.std.specs.Prelude.{◌≡◌, Some, IsTrue, false};
ghost use Rattle.iso_model.specs.Geometry.{is_valid};
ghost use Rattle.tx_blocks.specs.Tx.{IsTx};
ghost use Rattle.handle_pass.specs.Visits.{seen_by};

use crate::session::Session;
use crate::visit::Visit;
use crate::visitor::Visitor;
use iso_disk::Disk;
use iso_shared::Origin;
use std::marker::PhantomData;
use std::sync::Wait;
use store_model::TxError;
use tx_blocks::TxBlocks;

/// The transaction of a session, as a store sees it. Its count of faults counts those of this visit. Once a fetch was refused, each
/// further one is refused for the same cause, and none is tried again.
#[derive(Drop)]
pub struct SessionBlocks<'s, 'a, D: Disk + Drop, O: Origin, R: Wait, V: Visit> {
    pub visitor: Visitor<'s, 'a, D, O, R, V>,
    ghost limits: { IsTx visitor.tx },
}

/// A session after calls on its transaction, how often the disk has failed in them, and whether the device was down.
#[derive(Drop)]
pub struct Left<'s, 'a, D: Disk + Drop, O: Origin> {
    pub session: &'s mut Session<'a, D, O>,
    pub failures: u64,
    pub is_down: bool,
}

impl<'a, D: Disk + Drop, O: Origin> Session<'a, D, O> {
    /// Lends the transaction for the calls of stores.
    pub fn blocks<'s, R: Wait, V: Visit>(
        &'s mut self,
        rt: &'s R,
    ) -> SessionBlocks<'s, 'a, D, O, R, V>
        requires valid { IsTrue (is_valid O.start.world.geometry) }
        requires name { self.ghost_name ≡ V.name }
        requires before { V.before ≡ Some self.old }
        ensures { result.visitor ≡ seen_by O.start V.before self.old 0 false }
    {
        let _ = self.room();
        let visitor = Visitor {
            session: self,
            rt,
            failures: 0,
            is_down: false,
            of: PhantomData,
        };
        SessionBlocks { visitor }
    }
}

impl<'s, 'a, D: Disk + Drop, O: Origin, R: Wait, V: Visit> SessionBlocks<'s, 'a, D, O, R, V> {
    ghost use Rattle.handle_pass.specs.Visits.{IsVisit};

    /// The session, after the calls.
    pub fn leave(self) -> Left<'s, 'a, D, O>
        ensures name { result.session.ghost_name ≡ V.name }
        ensures visit { IsVisit O.start V.before result.session.now result.failures result.is_down }
        ensures seen { self.entry.visitor ≡ seen_by O.start V.before result.session.now result.failures result.is_down }
    {
        let SessionBlocks { visitor } = self;
        let Visitor {
            session,
            rt: _,
            failures,
            is_down,
            of: _,
        } = visitor;
        Left {
            session,
            failures,
            is_down,
        }
    }
}

impl<'s, 'a, D: Disk + Drop, O: Origin, R: Wait, V: Visit> TxBlocks
    for SessionBlocks<'s, 'a, D, O, R, V> {
    ghost state = { λ b. b.visitor.tx };

    ghost device = { λ b. b.visitor.device };

    fn block_size(&self) -> u32 {
        self.visitor.block_size()
    }

    fn room(&self) -> u32 {
        self.visitor.room()
    }

    fn read_block(&mut self, block: u32, into: &mut [u8]) -> Result<(), TxError> {
        self.visitor.read(block, into)
    }

    fn write_block(&mut self, block: u32, bytes: &[u8]) -> Result<(), TxError> {
        self.visitor.write(block, bytes)
    }

    fn mark_accessed(&mut self, off: u16, len: u16) -> Result<(), TxError> {
        self.visitor.mark(off, len)
    }

    ghost limits = { λ b. b.limits };
}
