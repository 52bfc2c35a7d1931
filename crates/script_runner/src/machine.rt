// What answers the lines of a script.
ghost use Rattle.std.specs.Prelude.{◌≡◌, ◌≤◌, ℕ, List, IfErr, IfOk, IsErrOf, IsSome, OnOk};
ghost use Rattle.iso_disk.specs.Disk.{DiskState, IsLawful, LeavesOnly};
ghost use Rattle.iso_model.specs.{History.last, Image.Shows, World.World, Worlds.IsWorld, Between.{ShowsEither, ShowsLast}};
ghost use Rattle.script_model.specs.{Step.step, Operations.IsOp};
ghost use Rattle.script_runner.specs.{Counts.BlamesDisk, Stopped.{GoesOn, StandsStill}, Told.{IfTold, IsPlain, SameButShown, StandsSo}};

use script_model::{Op, Reply, Stop};

/// What answers the operations of clients on an image.
pub trait ScriptMachine {
    /// It is up, and answers as this world does.
    ghost stands: { Self → World → Type 0 };

    /// Its disk at this moment.
    ghost disk: { Self → DiskState };

    /// Does what a client asks for, and answers it. At each moment of the call a crash leaves an image that shows the
    /// world before it or the world after it. The spare memory is that of bytes which an earlier reply showed, and it may serve for
    /// those of this one; what is in it is free.
    ///
    /// # Errors
    ///
    /// There is no reply. The machine represents the same world, but for the accesses that a store's call has made;
    /// nothing is promised of it after each error of a group, and after `Disk` of an end, a compaction or an upgrade.
    /// - `Memory`: want of memory. An image shows the last commit before the call.
    /// - `Disk`: the disk failed in this call.
    /// - `Down` never comes.
    fn step(&mut self, client: u8, op: &Op, spare: &mut Vec<u8>) -> Result<Reply, Stop>
        requires stands { (W : World) × stands self.old W }
        requires client { (1 ≤ client) × (client ≤ 64) }
        requires op { IsOp op.now }

        // Over an opaque disk, as a real file, the bytes that a reply shows are not known, and so neither is what a
        // store's call does with what it is shown. It leaves the history as it is in any case.
        ensures reply { (W : World) → stands self.old W → IfOk result (λ r. IfTold (disk self.old) (r ≡ (step W client op.now).0)) }
        ensures but_shown { (W : World) → stands self.old W → IsPlain op.now → IfOk result (λ r. SameButShown r (step W client op.now).0) }
        ensures told { OnOk result (IfTold (disk self.old) (IsSome (disk self.new).contents)) }
        ensures world { (W : World) → stands self.old W
            → OnOk result (StandsSo (stands self.new) (disk self.old) (IsPlain op.now) (step W client op.now).1) }

        // Without a reply it is as before, but for the accesses that a store's call has made, unless this was the end of it.
        ensures stopped { (W : World) → stands self.old W → IfErr result (λ why. GoesOn op.now why → StandsStill (stands self.new) (IsPlain op.now) W) }
        ensures moments { (W : World) → stands self.old W
            → LeavesOnly (disk self.old) (disk self.new) (ShowsEither W (step W client op.now).1) }

        // Where memory was wanting nothing was made: at each moment an image shows the last commit before the call.
        ensures unmade { (W : World) → stands self.old W → IsErrOf result Stop.Memory → LeavesOnly (disk self.old) (disk self.new) (ShowsLast W) }
        ensures up { ¬ IsErrOf result Stop.Down }
        ensures cause { BlamesDisk (disk self.old).faults (disk self.new).faults result };

    /// Its world is a sound one.
    ghost sound: { (m : Self) (W : World) → stands m W → IsWorld W };

    /// Each image of this moment shows the history of its world, at the last commit.
    ghost shown: { (m : Self) (W : World) (c : List ℕ) → stands m W → (disk m).now c → Shows c W.geometry W.history (last W.history) };

    /// The moments and the images of its disk go together.
    ghost lawful: { (m : Self) → IsLawful (disk m) };
}
