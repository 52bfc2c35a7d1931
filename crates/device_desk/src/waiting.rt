// Ends that waited for one another.
ghost use Rattle.std.specs.Prelude.{◌≡◌, ◌≢◌, ◌+◌, ◌≤◌, ◌++◌, List, [], Some, false, true, length, vec_capacity, vec_len};
ghost use Rattle.iso_model.specs.World.{World};
ghost use Rattle.script_model.specs.declared.script.Reply.{Reply};
ghost use Rattle.device_desk.specs.{Device.{StandsAt, state_at}, Waiting.Waits};

use crate::desk::Desk;
use crate::table::Table;
use iso_disk::Disk;
use script_model::{Reply, Stop};

/// How ends were answered that were asked for together: the replies to the first of them, and why the others have none, if
/// there are others. `Stop::Memory` and `Stop::Down` have made nothing of those.
#[derive(Drop)]
pub struct Waited {
    pub replies: Vec<Reply>,
    pub stop: Option<Stop>,
}

/// Whether a desk stays up behind ends that stopped so.
fn stays_up(stop: Option<Stop>) -> bool
    ensures on { result ≡ true → stop ≢ Some Stop.Disk }
    ensures back { stop ≢ Some Stop.Disk → result ≡ true }
{
    match stop {
        Some(Stop::Disk) => false,
        _ => true,
    }
}

impl<D: Disk> Table<D> {
    ghost use Rattle.iso_core.specs.Core.{disk_of};
    ghost use Rattle.device_desk.specs.Seats.{IsTableOf};

    /// Ends the transactions of these numbers one after the other, each by itself, until one has no reply, and puts the replies
    /// behind the others.
    fn end_each(&mut self, numbers: &[u64], replies: &mut Vec<Reply>) -> Option<Stop>
        requires stands { (W : World) × IsTableOf D.state self.old W }
        requires room { vec_len replies.old + length numbers.now ≤ vec_capacity replies.old }
        ensures { (W : World) → IsTableOf D.state self.old W → (more : List Reply) × (replies.new.items ≡ replies.old.items ++ more)
            × Waits (IsTableOf D.state self.new) (D.state (disk_of self.old.core)) (D.state (disk_of self.new.core)) W numbers.now more result }
    {
        for number in numbers {
            match self.end(*number) {
                Ok(reply) => replies.push_reserved(reply),
                Err(why) => return Some(why),
            }
        }
        None
    }

    /// Ends the transactions of these numbers one after the other, as one group where all fit.
    pub(crate) fn end_waiting(&mut self, numbers: &[u64]) -> Waited
        requires { (W : World) × IsTableOf D.state self.old W }
        ensures { (W : World) → IsTableOf D.state self.old W
            → Waits (IsTableOf D.state self.new) (D.state (disk_of self.old.core)) (D.state (disk_of self.new.core)) W numbers.now result.replies.items result.stop }
    {
        let mut replies = Vec::new(self.alloc);
        if let Err(_) = replies.reserve(numbers.len()) {
            return Waited {
                replies,
                stop: Some(Stop::Memory),
            };
        }
        let made = match self.end_together(numbers, &mut replies) {
            Ok(made) => made,
            Err(why) => {
                return Waited {
                    replies,
                    stop: Some(why),
                };
            }
        };
        if made {
            return Waited {
                replies,
                stop: None,
            };
        }
        let stop = self.end_each(numbers, &mut replies);
        Waited { replies, stop }
    }
}

impl<D: Disk> Desk<D> {
    /// Ends these transactions one after the other, and answers each as `end` does. Up to 64 of them end as one group, with one
    /// append and two syncs, where they are different live transactions and the log has room for all; else each ends by itself.
    /// An end that stops for want of memory stays live with those behind it, and the desk stays up; a fault of the disk takes
    /// the desk down, and commits that were answered stand.
    pub fn end_waiting(&mut self, numbers: &[u64]) -> Waited
        ensures did { (W : World) → StandsAt D.state self.old W
            → Waits (StandsAt D.state self.new) (state_at D.state self.old) (state_at D.state self.new) W numbers.now result.replies.items result.stop }
        ensures down { self.old.up ≡ false → (result.replies.items ≡ []) × (result.stop ≡ Some Stop.Down) × (self.new ≡ self.old) }
    {
        if !self.up {
            return Waited {
                replies: Vec::new(self.alloc),
                stop: Some(Stop::Down),
            };
        }
        let waited = self.table.end_waiting(numbers);
        self.up = stays_up(waited.stop);
        waited
    }
}
