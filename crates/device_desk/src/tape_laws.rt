// What a stop leaves of the file that a tape is done to.
ghost use Rattle.std.specs.Prelude.{◌≡◌, ◌≤◌, ◌++◌, ℕ, List, [], length, take};
ghost use Rattle.iso_disk.specs.Disk.{LeavesOnly};
ghost use Rattle.iso_model.specs.{Between.{ShowsEither, ShowsLast}, World.World};
ghost use Rattle.queued_disk.specs.{declared.queued.QueuedDisk.{QueuedDisk}, Queued.{calls_of, given, handed_on, state_of, tape_of}, Tape.IsLeftBy};
ghost use Rattle.device_desk.specs.Device.{Device, StandsAt, disk_under, state_at};

use crate::desk::Desk;
use queued_disk::QueuedDisk;

/// What a stop leaves of the file, in words of bytes: some first calls of the tape were done to it, and each write that no sync came
/// after has left any bytes in its range.
pub fn tapes_leave_commits(desk: &Desk<QueuedDisk>)
    // Once all calls are done, it shows the last commit.
    ensures done { (W : World) (image : List ℕ) → StandsAt state_of desk.now W → IsLeftBy (calls_of (disk_under desk.now)) (given (disk_under desk.now)) image → ShowsLast W image }

    // Where nothing was on the tape before a call of the desk, it shows the last commit before the call or the one after it, as do the
    // images of the call's own moments.
    ensures front { (old : Device QueuedDisk) (W V : World) (n : ℕ) (image : List ℕ) → tape_of (disk_under old) ≡ []
        → LeavesOnly (state_at state_of old) (state_at state_of desk.now) (ShowsEither W V) → n ≤ length (tape_of (disk_under desk.now))
        → IsLeftBy (handed_on (disk_under desk.now) ++ take n (tape_of (disk_under desk.now))) (given (disk_under desk.now)) image → ShowsEither W V image }
{}
