// The desk itself.
ghost use Rattle.std.specs.Prelude.{◌≡◌, ℕ, [], true, false};
ghost use Rattle.iso_disk.specs.Disk.{WritesNothing};
ghost use Rattle.iso_core.specs.{Core.{StandsFor, disk_of}, Standing.up};
ghost use Rattle.iso_model.specs.World.{World};
ghost use Rattle.iso_machine.specs.Answering.{Always, Answers};
ghost use Rattle.script_model.specs.{declared.script.Op.TheVariants.Begin, Operations.IsOp, Step.step};
ghost use Rattle.script_runner.specs.Stopped.{GoesOn};
ghost use Rattle.device_desk.specs.Device.{Answered, IsAsked, IsRefusedDown, StandsAt, disk_under, state_at};

use crate::table::Table;
use iso_core::{Core, Rebinding};
use iso_disk::Disk;
use iso_model::Mode;
use script_model::{Op, Reply, Stop};
use std::alloc::Global;
use std::marker::Model;

/// An open image, and its transactions by their numbers. It is up until a call fails that may have left the image either way.
/// While it is up it stands for a world of the model; contracts see its transactions and whether it is up.
#[derive(Drop)]
pub struct Desk<D: Disk> {
    pub(crate) alloc: Global,
    pub(crate) table: Table<D>,
    pub(crate) up: bool,
}

impl<D: Disk> Model for Desk<D> {
    ghost use Rattle.std.specs.Prelude.{◌≡◌, true};
    ghost use Rattle.iso_model.specs.World.{World};
    ghost use Rattle.device_desk.specs.{Device.Device, Seats.IsTableOf};

    ghost Value = { Device D };

    ghost view = { λ a. record { table = a.table; up = a.up } };

    ghost invariant = { λ a. a.up ≡ true → (W : World) × IsTableOf D.state a.table W };
}

/// Whether an operation that stopped so leaves the image as it was.
fn goes_on(op: &Op, why: Stop) -> bool
    requires { IsAsked op.now }
    ensures on { result ≡ true → GoesOn op.now why }
    ensures back { GoesOn op.now why → result ≡ true }
{
    match op {
        Op::End | Op::Compact | Op::Upgrade => match why {
            Stop::Memory => true,
            Stop::Down => false,
            Stop::Disk => false,
        },
        Op::Group { .. } => false,
        _ => true,
    }
}

impl<D: Disk> Desk<D> {
    /// A desk over a core that was just made or opened. It takes no memory.
    pub fn over(alloc: Global, core: Core<D>) -> Desk<D>
        requires { (W : World) × StandsFor D.state core W up × (W.live ≡ []) }
        ensures stands { (W : World) → StandsFor D.state core W up → W.live ≡ [] → StandsAt D.state result W }
        ensures disk { disk_under result ≡ disk_of core }
    {
        Desk {
            alloc,
            table: Table::over(alloc, core),
            up: true,
        }
    }

    /// Whether it is up.
    pub fn is_up(&self) -> bool
        ensures { result ≡ self.now.up }
    {
        self.up
    }

    /// The disk, to be looked at.
    pub fn disk(&self) -> &D
        ensures { result.now ≡ disk_under self.now }
    {
        self.table.core.disk()
    }

    /// Does an errand that may bind the disk anew.
    pub fn rebind<E: Rebinding<D>>(&mut self, errand: &mut E)
        ensures did { E.did errand.old (disk_under self.old) errand.new (disk_under self.new) }
        ensures same { (W : World) → StandsAt D.state self.old W → StandsAt D.state self.new W }
        ensures still { self.new.up ≡ self.old.up }
        ensures unwritten { WritesNothing (state_at D.state self.old) (record (state_at D.state self.new) { bound = (state_at D.state self.old).bound }) }
        ensures faults { (state_at D.state self.new).faults ≡ (state_at D.state self.old).faults }
    {
        self.table.core.rebind(errand);
    }

    /// It goes down: no call is answered any more but by `Stop::Down`.
    pub fn go_down(&mut self)
        ensures { self.new ≡ record self.old { up = false } }
    {
        self.up = false;
    }

    /// A transaction begins, in the mode that is named, or else in the image's. Its number is told, by which it is asked for.
    ///
    /// # Errors
    ///
    /// A mode that the image does not have, and that too many are live, are replies.
    /// - `Memory`: want of memory. All is as it was.
    /// - `Down`: the desk is down.
    pub fn begin(&mut self, mode: Option<Mode>, number: &mut u64) -> Result<Reply, Stop>
        ensures did { (W : World) → StandsAt D.state self.old W → Answers Always (StandsAt D.state self.new) (state_at D.state self.old) (state_at D.state self.new) W (step W W.next (Begin mode)) result }
        ensures number { (W : World) (at : ℕ) → StandsAt D.state self.old W → result ≡ Ok (Reply.Began at) → number.new ≡ W.next }
        ensures down { self.old.up ≡ false → IsRefusedDown self.old self.new result }
    {
        if !self.up {
            return Err(Stop::Down);
        }
        self.table.begin(mode, number)
    }

    /// Does what is asked for of the transaction of this number, or of the image, and answers it.
    #[inline(always)]
    pub(crate) fn ask(&mut self, number: u64, op: &Op) -> Result<Reply, Stop>
        requires op { IsOp op.now }
        requires asked { IsAsked op.now }
        ensures did { (W : World) → StandsAt D.state self.old W → Answered D.state self.old self.new W number op.now result }
        ensures down { self.old.up ≡ false → IsRefusedDown self.old self.new result }
    {
        if !self.up {
            return Err(Stop::Down);
        }
        match self.table.ask(number, op) {
            Ok(reply) => Ok(reply),
            Err(why) => {
                self.up = goes_on(op, why);
                Err(why)
            }
        }
    }

    /// The same, where nothing else has a use for the operation.
    #[inline(always)]
    pub(crate) fn perform(&mut self, number: u64, op: Op) -> Result<Reply, Stop>
        requires op { IsOp op }
        requires asked { IsAsked op }
        ensures did { (W : World) → StandsAt D.state self.old W → Answered D.state self.old self.new W number op result }
        ensures down { self.old.up ≡ false → IsRefusedDown self.old self.new result }
    {
        self.ask(number, &op)
    }
}
