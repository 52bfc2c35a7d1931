// A desk over a disk that makes no call: what its caller does to the file, and says of it.
ghost use Rattle.std.specs.Prelude.{◌≡◌, [], true, false};
ghost use Rattle.iso_model.specs.World.{World};
ghost use Rattle.queued_disk.specs.Queued.{calls_of, given, handed_on, is_failed, state_of, tape_of};
ghost use Rattle.device_desk.specs.Device.{StandsAt, disk_under};

use crate::desk::Desk;
use iso_core::Rebinding;
use queued_disk::{Call, QueuedDisk};

#[derive(Drop)]
struct HandOn {}

impl Rebinding<QueuedDisk> for HandOn {
    ghost use Rattle.std.specs.Prelude.{◌≡◌, []};
    ghost use Rattle.queued_disk.specs.Queued.{calls_of, given, handed_on, tape_of};

    ghost did = { λ old_self old new_self new. (tape_of new ≡ []) × (handed_on new ≡ calls_of old) × (given new ≡ given old) };

    fn run(&mut self, disk: &mut QueuedDisk) {
        disk.hand_on();
    }
}

#[derive(Drop)]
struct Failure {}

impl Rebinding<QueuedDisk> for Failure {
    ghost use Rattle.std.specs.Prelude.{◌≡◌, [], true};
    ghost use Rattle.queued_disk.specs.Queued.{calls_of, handed_on, is_failed, tape_of};

    ghost did = { λ old_self old new_self new. (is_failed new ≡ true) × (tape_of new ≡ []) × (handed_on new ≡ calls_of old) };

    fn run(&mut self, disk: &mut QueuedDisk) {
        disk.fail();
    }
}

/// The writes and syncs that were not done to the file yet, in order.
pub fn tape(desk: &Desk<QueuedDisk>) -> &[Call]
    ensures { result.now ≡ tape_of (disk_under desk.now) }
{
    desk.disk().tape()
}

/// All that is on the tape was done: nothing is on it any more.
pub fn hand_on(desk: &mut Desk<QueuedDisk>)
    ensures tape { tape_of (disk_under desk.new) ≡ [] }
    ensures handed { handed_on (disk_under desk.new) ≡ calls_of (disk_under desk.old) }
    ensures given { given (disk_under desk.new) ≡ given (disk_under desk.old) }
    ensures same { (W : World) → StandsAt state_of desk.old W → StandsAt state_of desk.new W }
    ensures still { desk.new.up ≡ desk.old.up }
{
    desk.rebind(&mut HandOn {});
}

/// A call of the tape failed: the desk is down, its disk makes no more calls, and nothing is on the tape any more, so that no call of
/// it is done again.
pub fn fail(desk: &mut Desk<QueuedDisk>)
    ensures down { desk.new.up ≡ false }
    ensures failed { is_failed (disk_under desk.new) ≡ true }
    ensures tape { tape_of (disk_under desk.new) ≡ [] }
    ensures handed { handed_on (disk_under desk.new) ≡ calls_of (disk_under desk.old) }
{
    desk.rebind(&mut Failure {});
    desk.go_down();
}
