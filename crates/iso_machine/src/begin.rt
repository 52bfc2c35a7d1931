// Transactions that begin.
ghost use Rattle.std.specs.Prelude.{◌≡◌, IsTrue, IfOk};
ghost use Rattle.script_model.specs.{declared.script.Op.TheVariants.Begin, Step.step};
ghost use Rattle.iso_model.specs.Geometry.{is_block_size};

use crate::attached::{Attached, Spot};
use crate::ending::keep_spare;
use crate::machine::Machine;
use iso_disk::Disk;
use iso_model::{Geometry, Memory, Mode};
use script_model::{Reply, Stop, refused};
use std::alloc::Global;
use tx_table::Work;

/// Memory for the work of one more transaction in blocks of this size: that of one that has left, where there is some.
///
/// # Errors
///
/// Want of memory.
pub fn take_work(
    alloc: Global,
    spare: &mut Vec<Box<Work>>,
    geometry: &Geometry,
) -> Result<Box<Work>, Memory>
    requires { IsTrue (is_block_size geometry.now.block) }
    ensures { IfOk result (λ work. work.value.size ≡ geometry.now.block) }
{
    match spare.pop() {
        Some(work) if work.block_size() == geometry.block => Ok(work),
        _ => match Box::new(alloc, Work::begin(alloc, 0, geometry)) {
            Ok(work) => Ok(work),
            Err(_) => Err(Memory),
        },
    }
}

impl<D: Disk> Machine<D> {
    ghost use Rattle.iso_machine.specs.{Answering.{Always, AnswersFrom}, Standing.IsMachine};

    /// A client without a transaction begins one, in the mode that is named, or else in the image's.
    pub(crate) fn begin(&mut self, client: u8, mode: Option<Mode>) -> Result<Reply, Stop>
        requires { IsMachine D.state self.old }
        ensures { AnswersFrom Always D.state self.old self.new (λ W. step W client (Begin mode)) result }
    {
        if let Some(_) = self.place_at(client) {
            return Ok(Reply::InTx);
        }
        if let Err(_) = self.live.reserve(1) {
            return Err(Stop::Memory);
        }
        let mut geometry = self.core.geometry();
        let mut work = match take_work(self.alloc, &mut self.spare, &geometry) {
            Ok(work) => work,
            Err(_) => return Err(Stop::Memory),
        };
        let begun = match self.core.begin(mode) {
            Ok(begun) => begun,
            Err(error) => {
                keep_spare(&mut self.spare, work);
                return refused(error);
            }
        };
        geometry.mode = begun.mode;
        work.restart(begun.at, &geometry);
        self.live.push_reserved(Attached {
            tx: begun.tx,
            spot: Spot::Client(client),
            work,
        });
        self.finder.set_client(client, Some(begun.tx));
        Ok(Reply::Began(begun.at))
    }
}
