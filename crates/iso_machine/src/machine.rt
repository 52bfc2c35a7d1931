// The machine.
ghost use Rattle.std.specs.{Prelude.{◌≡◌, ◌<◌, [], None, IfSome, MatchOption, length}, List.HoldsAt};
ghost use Rattle.iso_model.specs.{History.last, Step.with_live, World.{World, attached}};

use crate::attached::{Attached, index_at_client};
use crate::finder::Finder;
use crate::leaving::abort_all;
use iso_core::{Core, GroupEnd};
use iso_disk::Disk;
use script_model::{Op, Reply, Stop};
use script_runner::ScriptMachine;
use std::alloc::Global;
use tx_table::Work;

/// Clients and labels over a core.
#[derive(Drop)]
pub struct Machine<D: Disk> {
    pub(crate) alloc: Global,
    pub(crate) core: Core<D>,
    pub(crate) live: Vec<Attached>,
    pub(crate) finder: Finder,
    // the memory of transactions that have left
    pub(crate) spare: Vec<Box<Work>>,
    // places for the members of a group, which keep the memory of those that ended last
    pub(crate) ends: Vec<GroupEnd>,
    // for the bytes of one block
    pub(crate) buffer: Vec<u8>,
}

impl<D: Disk> Machine<D> {
    ghost use Rattle.iso_core.specs.{Core.{StandsFor, disk_of}, Standing.up};
    ghost use Rattle.iso_machine.specs.{Accessing.IsHere, Standing.{IsMachine, IsMachineOf, core_of}};

    /// A machine over a core that is up and has no live transaction. It takes no memory.
    pub fn over(alloc: Global, core: Core<D>) -> Machine<D>
        ensures stands { (W : World) → StandsFor D.state core W up → W.live ≡ [] → IsMachineOf D.state result W }
        ensures core { core_of result ≡ core }
    {
        Machine {
            alloc,
            core,
            live: Vec::new(alloc),
            finder: Finder::empty(alloc),
            spare: Vec::new(alloc),
            ends: Vec::new(alloc),
            buffer: Vec::new(alloc),
        }
    }

    /// Where in the list the transaction of a client is.
    pub(crate) fn place_at(&self, client: u8) -> Option<usize>
        requires { IsMachine D.state self.now }
        ensures within { IfSome result (λ i. i < length self.now.live.items) }
        ensures here { (W : World) → IsMachineOf D.state self.now W → MatchOption result (attached W client ≡ None) (HoldsAt (IsHere W client) self.now.live.items) }
    {
        index_at_client(self.finder.at_client(client), &self.live, client)
    }

    /// The number of the last commit.
    pub fn last_commit(&self) -> u64
        ensures { (W : World) → IsMachineOf D.state self.now W → result ≡ last W.history }
    {
        let stat = self.core.stat();
        stat.last
    }

    /// The core, once all live transactions are aborted. It takes no memory, and makes no call of the disk.
    pub fn finish(self) -> Core<D>
        requires { (W : World) × IsMachineOf D.state self W }
        ensures stands { (W : World) → IsMachineOf D.state self W → StandsFor D.state result (with_live W []) up }
        ensures disk { disk_of result ≡ disk_of (core_of self) }
    {
        let mut core = self.core;
        abort_all(&mut core, &self.finder, &self.live);
        core
    }

    /// The core as it is, with the transactions that are live in it: for a machine that stopped.
    pub fn into_core(self) -> Core<D>
        ensures { result ≡ core_of self }
    {
        self.core
    }
}

impl<D: Disk> ScriptMachine for Machine<D> {
    ghost use Rattle.iso_core.specs.Core.{disk_of};
    ghost use Rattle.iso_machine.specs.{Standing.{IsMachineOf, core_of}, Shown.shows};

    ghost stands = { λ m W. IsMachineOf D.state m W };

    ghost disk = { λ m. D.state (disk_of (core_of m)) };

    ghost sound = { λ m W of. of.core_of.kept_of.world };

    ghost shown = { λ m W c of image. shows D.state m.core W of.core_of c image };

    ghost lawful = { λ m. D.lawful (disk_of (core_of m)) };

    #[inline(always)]
    fn step(&mut self, client: u8, op: &Op, spare: &mut Vec<u8>) -> Result<Reply, Stop> {
        self.answer(client, op, spare)
    }
}
