// The calls of a transaction: its begin, its fetches and its end.
ghost use Rattle.std.specs.Prelude.{◌≡◌, ◌+◌, ◌-◌, ◌<◌, ℕ, [], Some, None, Ok, Err, IsTrue, length, true, IfOk, IfErr, MatchResult};
ghost use Rattle.iso_model.specs.{Geometry.is_block_size, Step.mode_named};
ghost use Rattle.iso_shared.specs.declared.entry.Call.TheVariants as TheCall;
ghost use Rattle.iso_shared.specs.{declared.entry.Entry.TheVariants.{Abort, Begin, Refused}, Ports.{IsPort, IsSameTx, IsTx, Made, MadeBoth, check_of, doing_of, number_of, port_view, tx_view}, Told.{cause_of, fetch_entry}};

use crate::guarded::Origin;
use crate::shared::{Port, Shared};
use crate::told::Told;
use crate::tx::Tx;
use conflict_rule::Checked;
use iso_disk::Disk;
use iso_model::{CoreError, Geometry, Mode};
use std::alloc::Global;
use std::snapshot::Snapshot;
use std::sync::Wait;
use tx_table::Work;

// What a transaction that begins has done, nothing, in the memory of one that has left, where there is some for blocks of its size.
fn begin_work(alloc: Global, spare: Option<Work>, begin: u64, image: &Geometry) -> Work
    requires { IsTrue (is_block_size image.now.block) }
    ensures { result ≡ record { begin = begin; mode = image.now.mode; size = image.now.block; blocks = image.now.blocks; accesses = []; ready = None; settled = true } }
{
    match spare {
        Some(mut work) if work.block_size() == image.block => {
            work.restart(begin, image);
            work
        }
        _ => Work::begin(alloc, begin, image),
    }
}

impl<D: Disk + Drop, O: Origin> Shared<D, O> {
    /// Begins a transaction in the mode that is named, or else in the image's. It gets one of the units of the port,
    /// which has two at least.
    ///
    /// # Errors
    ///
    /// As those of `Core::begin`, at this turn. The port keeps its units.
    pub fn begin<R: Wait>(
        &self,
        rt: &R,
        port: &mut Port<D, O>,
        named: Option<Mode>,
    ) -> Result<Tx<D, O>, CoreError>
        requires port { IsPort self.now port.old × (1 < (port_view port.old).units) }
        ensures port { IsPort self.now port.new }
        ensures tx { IfOk result (λ t. IsTx self.now O.start t × ((doing_of t).accesses ≡ []) × ((doing_of t).mode ≡ mode_named O.start.world named)) }
        ensures new { IfOk result (λ t. ((tx_view t).seen ≡ (port_view port.new).seen) × ((tx_view t).mine ≡ []) × ((tx_view t).units ≡ 1)) }
        ensures checked { IfOk result (λ t. check_of t ≡ record { upto = (doing_of t).begin; clash = None }) }
        ensures made { IfOk result (λ t. Made O.start (port_view port.old) (port_view port.old) (Begin (number_of t) (doing_of t).begin (doing_of t).mode) (port_view port.new)) }
        ensures err { IfErr result (λ e. (before : ℕ) × (now : ℕ) × Made O.start (port_view port.old) (port_view port.old) (Refused (TheCall.Begin named) (cause_of before now e)) (port_view port.new)) }
        ensures units { MatchResult result (λ _. (port_view port.new).units + 1 ≡ (port_view port.old).units) (λ _. (port_view port.new).units ≡ (port_view port.old).units) }
    {
        let mut turn = self.lock.take(rt, &mut port.pass);
        let guarded = turn.value();
        let before = Snapshot::of(&guarded.core);
        let geometry = guarded.core.geometry();
        let result = guarded.core.begin(named);
        self.give(&mut port.pass, turn, before, Told::Begin(named, result));
        match result {
            Ok(begun) => {
                let pass = self.lock.split(&mut port.pass, Some(begun.tx), 1);
                let image = Geometry {
                    mode: begun.mode,
                    ..geometry
                };
                Ok(Tx {
                    pass,
                    number: begun.tx,
                    work: begin_work(self.alloc, port.spare.take(), begun.at, &image),
                    checked: Checked {
                        upto: begun.at,
                        clash: None,
                    },
                })
            }
            Err(error) => Err(error),
        }
    }

    /// Reads a block as it was when the transaction began, without its own writes, into a slice as long as it. It takes
    /// no memory.
    ///
    /// # Errors
    ///
    /// As those of `Core::fetch`: `Down` and `Disk`. What the transaction has done stays.
    pub fn fetch<R: Wait>(
        &self,
        rt: &R,
        tx: &mut Tx<D, O>,
        block: u32,
        into: &mut [u8],
    ) -> Result<(), CoreError>
        requires tx { IsTx self.now O.start tx.old }
        requires block { block < O.start.world.geometry.blocks }
        requires size { length into.old ≡ O.start.world.geometry.block }
        ensures tx { IsTx self.now O.start tx.new }
        ensures same { IsSameTx tx.old tx.new × (doing_of tx.new ≡ doing_of tx.old) × ((tx_view tx.new).units ≡ (tx_view tx.old).units) }
        ensures made { (before : ℕ) × (now : ℕ) × Made O.start (tx_view tx.old) (tx_view tx.old) (fetch_entry before now (number_of tx.old) block into.new result) (tx_view tx.new) }
    {
        let mut turn = self.lock.take(rt, &mut tx.pass);
        let guarded = turn.value();
        let before = Snapshot::of(&guarded.core);
        let result = guarded.core.fetch(tx.number, block, into);
        self.give(
            &mut tx.pass,
            turn,
            before,
            Told::Fetch(tx.number, block, into, result),
        );
        result
    }

    /// Aborts a transaction. Its units go to the port.
    pub fn abort<R: Wait>(&self, rt: &R, port: &mut Port<D, O>, mut tx: Tx<D, O>)
        requires port { IsPort self.now port.old }
        requires tx { IsTx self.now O.start tx }
        ensures port { IsPort self.now port.new }
        ensures made { MadeBoth O.start (port_view port.old) (tx_view tx) (Abort (number_of tx)) (port_view port.new) }
        ensures units { (port_view port.new).units ≡ (port_view port.old).units + (tx_view tx).units }
    {
        self.tell(&mut port.pass, &mut tx.pass);
        let mut turn = self.lock.take(rt, &mut tx.pass);
        let guarded = turn.value();
        let before = Snapshot::of(&guarded.core);
        guarded.core.abort(tx.number);
        self.give(&mut tx.pass, turn, before, Told::Abort(tx.number));
        self.spend(port, tx);
    }
}
