// The live transactions of a core, by their numbers.
ghost use Rattle.std.specs.{Prelude.{◌≡◌, ◌<◌, [], None, IfSome, MatchOption, length}, List.HoldsAt};
ghost use Rattle.iso_model.specs.World.{World, attached};
ghost use Rattle.script_model.specs.{declared.script.Op.TheVariants.Trim, Step.{numbers, step}};

use crate::seat::{Seat, place_of};
use iso_core::{Core, GroupEnd};
use iso_disk::Disk;
use script_model::{Reply, Stop};
use std::alloc::Global;
use tx_table::Work;

/// A core that is up, with what each of its live transactions does.
#[derive(Drop)]
pub(crate) struct Table<D: Disk> {
    pub(crate) alloc: Global,
    pub(crate) core: Core<D>,
    pub(crate) live: Vec<Seat>,
    // the memory of transactions that have left
    pub(crate) spare: Vec<Box<Work>>,
    // places for the members of a group, which keep the memory of those that ended last
    pub(crate) ends: Vec<GroupEnd>,
    // for the bytes of one block
    pub(crate) buffer: Vec<u8>,
}

impl<D: Disk> Table<D> {
    ghost use Rattle.iso_core.specs.{Core.{StandsFor, disk_of}, Standing.up};
    ghost use Rattle.iso_machine.specs.Answering.{Always, Answers};
    ghost use Rattle.device_desk.specs.Seats.{IsHere, IsTableOf};

    /// A table over a core that has no live transaction. It takes no memory.
    pub(crate) fn over(alloc: Global, core: Core<D>) -> Table<D>
        ensures stands { (W : World) → StandsFor D.state core W up → W.live ≡ [] → IsTableOf D.state result W }
        ensures core { result.core ≡ core }
    {
        Table {
            alloc,
            core,
            live: Vec::new(alloc),
            spare: Vec::new(alloc),
            ends: Vec::new(alloc),
            buffer: Vec::new(alloc),
        }
    }

    /// Where in the list the transaction of this number is.
    pub(crate) fn place_at(&self, number: u64) -> Option<usize>
        requires { (W : World) × IsTableOf D.state self.now W }
        ensures within { IfSome result (λ i. i < length self.now.live.items) }
        ensures here { (W : World) → IsTableOf D.state self.now W → MatchOption result (attached W number ≡ None) (HoldsAt (IsHere W number) self.now.live.items) }
    {
        place_of(&self.live, number)
    }

    /// Lets the versions go that no transaction can be shown any more.
    pub(crate) fn trim(&mut self) -> Result<Reply, Stop>
        requires { (W : World) × IsTableOf D.state self.old W }
        ensures { (W : World) → IsTableOf D.state self.old W
            → Answers Always (IsTableOf D.state self.new) (D.state (disk_of self.old.core)) (D.state (disk_of self.new.core)) W (step W 0 Trim) result }
    {
        match self.core.trim() {
            Ok(at) => Ok(Reply::Trimmed(at)),
            Err(_) => unreachable!(),
        }
    }

    /// The numbers of the image.
    pub(crate) fn stat(&self) -> Reply
        ensures { (W : World) → IsTableOf D.state self.now W → result ≡ numbers W }
    {
        let stat = self.core.stat();
        Reply::Numbers {
            last: stat.last,
            base: stat.base,
            trim: stat.trim,
            live: stat.live,
            used: stat.used,
            versions: stat.versions,
        }
    }
}
