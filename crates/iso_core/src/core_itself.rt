// The core itself.
ghost use Rattle.std.specs.Prelude.{◌≡◌, ◌≢◌, ◌⊎◌, ℕ, ◌+◌, ◌-◌, ◌<◌, ◌≤◌, List, [], ◌∷◌, Some, Ok, Err, OnOk, OnErr, IfOk, IfErr, IsErrOf, drop, length, map, take};
ghost use Rattle.iso_model.specs.{declared.access.Commit.Commit, declared.limits.TheConstants.LAST, History.last, Step.{after_begin, after_leaving, after_switch, after_trim, begin_step, end_step, mode_named, switch_step}, World.{World, Live, floor, unattached, used}, declared.core_reply.CoreReply.CoreReply};
ghost use Rattle.iso_model.specs.declared.core_reply.CoreReply.TheVariants as reply;
ghost use Rattle.iso_model.specs.Versions.{versions};

use crate::answers::{Begun, Recent, Stat};
use crate::begin::begin;
use crate::ending::end_tx;
use crate::fetch::{read_by, versions_at};
use crate::group_end::GroupEnd;
use crate::kept::Kept;
use crate::leave::leave;
use crate::members::end_members;
use crate::opening::{Opened, keep};
use crate::plan::Plan;
use crate::rebinding::Rebinding;
use crate::switching::switch_half;
use conflict_rule::Checked;
use counts::{Ledger, Steps};
use iso_disk::Disk;
use iso_image::half_place;
use iso_model::{CoreError, EndReply, Geometry, GroupReply, Mode};
use std::alloc::Global;
use tx_table::Work;

/// An open image with its live transactions. A core represents a world of the model.
#[derive(Drop)]
pub struct Core<D: Disk> {
    disk: D,
    kept: Kept,
    // memory for what a group is to append, and for its replies
    plan: Plan,
    replies: Vec<GroupReply>,
}

impl<D: Disk> Core<D> {
    ghost use Rattle.conflict_rule.specs.Decision.{AreNotesAfter};
    ghost use Rattle.std.specs.Option.{ForSome};
    ghost use Rattle.iso_disk.specs.Disk.{LeavesOnly, StaysTold, WritesNothing};
    ghost use Rattle.iso_model.specs.{History.{History, array_at, with_commits}, Premises.block_at, Step.commit_from, Geometry.image_size, Group.{group, leave_all}, Between.{ShowsEither, ShowsLast}};
    ghost use Rattle.iso_core.specs.{Calls.{BlamesDisk, IsCheckedOf, IsTx, IsWorkOf, Refuses, Writes, reply_of}, Core.{AllHold, StandsFor, disk_of}, Opening.{IsOpenedTo, opened_world}, Planned.{AreEach, IsMember, bare_end, reply_in, unsettled}, declared.group_end.TheConstants.MAX_GROUP, Standing.{Standing, up, down, is_down}, Switching.{HasForm, HasFormOr}};

    /// A core over an image that was just opened or made. It takes no memory.
    pub fn over(alloc: Global, disk: D, opened: Opened) -> Core<D>
        ensures stands { (H : History) → IsOpenedTo H opened → (D.state disk).size ≡ image_size opened.geometry → AllHold (D.state disk) opened.half (opened_world H opened)
            → StandsFor D.state result (opened_world H opened) up }
        ensures disk { disk_of result ≡ disk }
    {
        Core {
            disk,
            kept: keep(alloc, opened),
            plan: Plan::empty(alloc),
            replies: Vec::new(alloc),
        }
    }

    /// The disk, which is handed back.
    pub fn into_disk(self) -> D
        ensures { result ≡ disk_of self }
    {
        self.disk
    }

    /// The disk, to be looked at.
    pub fn disk(&self) -> &D
        ensures { result.now ≡ disk_of self.now }
    {
        &self.disk
    }

    /// Does an errand that may bind the disk anew, up or down.
    pub fn rebind<E: Rebinding<D>>(&mut self, errand: &mut E)
        ensures did { E.did errand.old (disk_of self.old) errand.new (disk_of self.new) }
        ensures same { (W : World) (standing : Standing) → StandsFor D.state self.old W standing → StandsFor D.state self.new W standing }
        ensures unwritten { WritesNothing (D.state (disk_of self.old)) (record (D.state (disk_of self.new)) { bound = (D.state (disk_of self.old)).bound }) }
        ensures faults { (D.state (disk_of self.new)).faults ≡ (D.state (disk_of self.old)).faults }
    {
        errand.run(&mut self.disk);
    }

    /// The numbers of the image.
    pub fn geometry(&self) -> Geometry
        ensures { (W : World) (standing : Standing) → StandsFor D.state self.now W standing → result ≡ W.geometry }
    {
        self.kept.geometry
    }

    /// Begins a transaction in the mode that is named, or else in the image's. It begins at the last commit.
    ///
    /// # Errors
    ///
    /// The first of these, and the core is as before:
    /// - `Down`: an earlier fault set the core down.
    /// - `ModeFixed`: the image is of form 1, and the mode is not its own.
    /// - `TooManyTx`: `MAX_LIVE` transactions are live.
    /// - `Worn`: the number of the next transaction would pass `LAST`.
    /// - `Memory`: want of memory.
    pub fn begin(&mut self, mode: Option<Mode>) -> Result<Begun, CoreError>
        requires { (W : World) × (standing : Standing) × StandsFor D.state self.old W standing }
        ensures begun { (W : World) → StandsFor D.state self.old W up → IfOk result (λ b. (b.tx ≡ W.next) × (b.mode ≡ mode_named W mode)
            × ((begin_step W unattached (mode_named W mode)).0 ≡ reply.Began b.at) × StandsFor D.state self.new (after_begin W unattached (mode_named W mode)) up) }
        ensures refused { (W : World) → StandsFor D.state self.old W up → IfErr result (Refuses (begin_step W unattached (mode_named W mode)).0) }
        ensures down { (W : World) (lost : List Commit) → StandsFor D.state self.old W (down lost) → result ≡ Err CoreError.Down }
        ensures last { (at : ℕ) → IsErrOf result (CoreError.Worn at) → at ≡ LAST }
        ensures kept { OnErr result (self.new ≡ self.old) }
        ensures disk { disk_of self.new ≡ disk_of self.old }
    {
        if self.kept.down {
            return Err(CoreError::Down);
        }
        begin(&mut self.kept, mode)
    }

    /// Reads a block as it was when the transaction began, without its own writes, into a slice as long as it. It takes
    /// no memory.
    ///
    /// # Errors
    ///
    /// All stays as it is, but any bytes may be in the slice.
    /// - `Down`: an earlier fault set the core down.
    /// - `Disk`: the disk failed in this call.
    pub fn fetch(&mut self, tx: u64, block: u32, into: &mut [u8]) -> Result<(), CoreError>
        requires { (W : World) × (standing : Standing) × (t : Live) × StandsFor D.state self.old W standing × IsTx W tx t × (block < W.geometry.blocks) × (length into.old ≡ W.geometry.block) }
        ensures block { (W : World) (t : Live) → StandsFor D.state self.old W up → IsTx W tx t → OnOk result (ForSome (D.state (disk_of self.old)).contents
            (λ _. into.new ≡ block_at (array_at W.history t.begin) block)) }
        ensures same { (W : World) (standing : Standing) → StandsFor D.state self.old W standing → StandsFor D.state self.new W standing }
        ensures down { (W : World) (lost : List Commit) → StandsFor D.state self.old W (down lost) → (result ≡ Err CoreError.Down) × (self.new ≡ self.old) }
        ensures disk { (W : World) → StandsFor D.state self.old W up → IfErr result (λ e. e ≡ CoreError.Disk) }
        ensures unwritten { WritesNothing (D.state (disk_of self.old)) (D.state (disk_of self.new)) }
        ensures cause { BlamesDisk (D.state (disk_of self.old)).faults (D.state (disk_of self.new)).faults result }
    {
        let len = into.len();
        self.fetch_range(tx, block, 0, len, into)
    }

    /// Reads `len` bytes of a block from `off` on, as they were when the transaction began, into their place in a slice
    /// as long as the block, whose other bytes are any. It takes no memory.
    ///
    /// # Errors
    ///
    /// As those of `fetch`.
    pub fn fetch_range(
        &mut self,
        tx: u64,
        block: u32,
        off: usize,
        len: usize,
        into: &mut [u8],
    ) -> Result<(), CoreError>
        requires stands { (W : World) × (standing : Standing) × (t : Live) × StandsFor D.state self.old W standing × IsTx W tx t × (block < W.geometry.blocks) × (length into.old ≡ W.geometry.block) }
        requires fits { off + len ≤ length into.old }
        ensures range { (W : World) (t : Live) → StandsFor D.state self.old W up → IsTx W tx t → OnOk result (ForSome (D.state (disk_of self.old)).contents
            (λ _. take len (drop off into.new) ≡ take len (drop off (block_at (array_at W.history t.begin) block)))) }
        ensures same { (W : World) (standing : Standing) → StandsFor D.state self.old W standing → StandsFor D.state self.new W standing }
        ensures down { (W : World) (lost : List Commit) → StandsFor D.state self.old W (down lost) → (result ≡ Err CoreError.Down) × (self.new ≡ self.old) }
        ensures disk { (W : World) → StandsFor D.state self.old W up → IfErr result (λ e. e ≡ CoreError.Disk) }
        ensures unwritten { WritesNothing (D.state (disk_of self.old)) (D.state (disk_of self.new)) }
        ensures cause { BlamesDisk (D.state (disk_of self.old)).faults (D.state (disk_of self.new)).faults result }
    {
        if self.kept.down {
            return Err(CoreError::Down);
        }
        let kept = &self.kept;
        let last = kept.log.last();
        let at = kept.live.at(tx).unwrap_or(last);
        let place = half_place(&kept.geometry, kept.half);
        let base = place.base + u64::from(block) * u64::from(kept.geometry.block);
        let to = off + len;
        let versions = versions_at(&kept.index, block, at, last, off, to);
        match read_by(&mut self.disk, base, versions, at == last, off, to, into) {
            Ok(()) => Ok(()),
            Err(_) => Err(CoreError::Disk),
        }
    }

    /// Ends a transaction: it commits where it has a write and no commit after its begin conflicts with it. What was
    /// checked of it ahead is not looked at again. All memory is taken before the first call of the disk.
    ///
    /// # Errors
    ///
    /// After any error but `Disk` the transaction is live as before, and the disk is untouched.
    /// - `Down`: an earlier fault set the core down.
    /// - `Worn`: it would commit, and the last commit has the number `LAST`.
    /// - `LogFull`: it would commit, and record and next gate need more bytes than the log has free.
    /// - `Memory`: want of memory.
    /// - `Disk`: the disk failed. The core is down, the transaction is live no more, and its commit is made or not.
    pub fn end<L: Ledger>(
        &mut self,
        tx: u64,
        work: &mut Work,
        checked: &Checked,
        steps: &mut Steps<L>,
    ) -> Result<EndReply, CoreError>
        requires { (W : World) × (standing : Standing) × (t : Live) × StandsFor D.state self.old W standing × IsTx W tx t × IsWorkOf W t work.old × IsCheckedOf W t checked.now }

        // The reply and the world are the model's.
        ensures ended { (W : World) (t : Live) → StandsFor D.state self.old W up → IsTx W tx t → IsWorkOf W t work.old → IsCheckedOf W t checked.now
            → IfOk result (λ r. ((end_step W t).0 ≡ reply_of r) × StandsFor D.state self.new (end_step W t).1 up) }
        ensures refused { (W : World) (t : Live) → StandsFor D.state self.old W up → IsTx W tx t → IsWorkOf W t work.old → IsCheckedOf W t checked.now
            → IfErr result (λ e. (e ≡ CoreError.Disk) ⊎ Refuses (end_step W t).0 e) }
        ensures same { (W : World) → StandsFor D.state self.old W up → IfErr result (λ e. e ≢ CoreError.Disk → StandsFor D.state self.new W up) }
        ensures down { (W : World) (lost : List Commit) → StandsFor D.state self.old W (down lost) → (result ≡ Err CoreError.Down) × (self.new ≡ self.old) }

        // At each moment an image shows the history before the end or after it. Nothing is written but for a commit.
        ensures moments { (W : World) (t : Live) → StandsFor D.state self.old W up → IsTx W tx t → IsWorkOf W t work.old → IsCheckedOf W t checked.now
            → LeavesOnly (D.state (disk_of self.old)) (D.state (disk_of self.new)) (ShowsEither W (end_step W t).1) }
        ensures last { (at : ℕ) → IsErrOf result (CoreError.Worn at) → at ≡ LAST }
        ensures unwritten { Writes result ⊎ (disk_of self.new ≡ disk_of self.old) }
        ensures lost { (W : World) (t : Live) → StandsFor D.state self.old W up → IsTx W tx t → IsWorkOf W t work.old → IsCheckedOf W t checked.now → IsErrOf result CoreError.Disk
            → ((end_step W t).0 ≡ reply.Committed (last W.history + 1)) × StandsFor D.state self.new (after_leaving W t) (down (commit_from t ∷ [])) }

        ensures work { work.new ≡ record work.old { settled = work.new.settled } }
        ensures steps { (W : World) (t : Live) → StandsFor D.state self.old W up → IsTx W tx t → IsCheckedOf W t checked.now
            → steps.new ≤ steps.old + (last W.history - checked.now.upto) }
        ensures no_steps { (W : World) (lost : List Commit) → StandsFor D.state self.old W (down lost) → steps.new ≡ steps.old }
        ensures told { OnOk result (StaysTold (D.state (disk_of self.old)) (D.state (disk_of self.new))) }
        ensures cause { BlamesDisk (D.state (disk_of self.old)).faults (D.state (disk_of self.new)).faults result }
    {
        if self.kept.down {
            return Err(CoreError::Down);
        }
        end_tx(&mut self.kept, &mut self.disk, tx, work, checked, steps)
    }

    /// Ends 1 to `MAX_GROUP` different transactions that are live, one after the other, with one append for all their
    /// commits, and gives each its reply. A member that the log has no room or no number for is aborted. All memory is
    /// taken before the first call of the disk.
    ///
    /// # Errors
    ///
    /// No member has a reply. After `Down` and `Memory` all is as before.
    /// - `Down`: an earlier fault set the core down.
    /// - `Memory`: want of memory.
    /// - `Disk`: the disk failed, which it does for a commit alone. The core is down, no member is live, and all their
    ///   commits are made or none.
    pub fn end_group(&mut self, ends: &mut [GroupEnd]) -> Result<(), CoreError>
        requires ready { (W : World) × (standing : Standing) × (members : List Live) × StandsFor D.state self.old W standing × AreEach (IsMember W) ends.old members }
        requires some { 0 < length ends.old }
        requires most { length ends.old ≤ MAX_GROUP }

        // The replies and the world are the model's.
        ensures ended { (W : World) (members : List Live) → StandsFor D.state self.old W up → AreEach (IsMember W) ends.old members
            → OnOk result ((map reply_in ends.new ≡ map Some (group W members).0) × StandsFor D.state self.new (group W members).1 up) }
        ensures same { (W : World) → StandsFor D.state self.old W up → IfErr result (λ e. e ≢ CoreError.Disk → StandsFor D.state self.new W up) }
        ensures down { (W : World) (lost : List Commit) → StandsFor D.state self.old W (down lost) → (result ≡ Err CoreError.Down) × (self.new ≡ self.old) × (ends.new ≡ ends.old) }
        ensures only { (W : World) → StandsFor D.state self.old W up → IfErr result (λ e. (e ≡ CoreError.Disk) ⊎ (e ≡ CoreError.Memory)) }
        ensures members { map bare_end ends.new ≡ map bare_end ends.old }
        ensures untold { OnErr result (map unsettled ends.new ≡ map unsettled ends.old) }

        // At each moment an image shows the history before the group or after the whole of it.
        ensures moments { (W : World) (members : List Live) → StandsFor D.state self.old W up → AreEach (IsMember W) ends.old members
            → LeavesOnly (D.state (disk_of self.old)) (D.state (disk_of self.new)) (ShowsEither W (group W members).1) }
        ensures lost { (W : World) (members : List Live) → StandsFor D.state self.old W up → AreEach (IsMember W) ends.old members → IsErrOf result CoreError.Disk
            → (more : List Commit) × ((group W members).1.history ≡ with_commits more W.history) × StandsFor D.state self.new (leave_all members W) (down more) }

        // The disk fails for a commit alone. Nothing is written where no member commits, nor where memory is wanting.
        ensures commits { (W : World) (members : List Live) → StandsFor D.state self.old W up → AreEach (IsMember W) ends.old members → IsErrOf result CoreError.Disk → (group W members).1.history ≢ W.history }
        ensures unwritten { (W : World) (members : List Live) → StandsFor D.state self.old W up → AreEach (IsMember W) ends.old members → (group W members).1.history ≡ W.history
            → disk_of self.new ≡ disk_of self.old }
        ensures untouched { IfErr result (λ e. e ≢ CoreError.Disk → disk_of self.new ≡ disk_of self.old) }
        ensures told { OnOk result (StaysTold (D.state (disk_of self.old)) (D.state (disk_of self.new))) }
        ensures cause { BlamesDisk (D.state (disk_of self.old)).faults (D.state (disk_of self.new)).faults result }
    {
        if self.kept.down {
            return Err(CoreError::Down);
        }
        end_members(
            &mut self.kept,
            &mut self.disk,
            &mut self.plan,
            &mut self.replies,
            ends,
        )
    }

    /// Takes a live transaction out, with all that it did. It takes no memory.
    pub fn abort(&mut self, tx: u64)
        requires { (W : World) × (standing : Standing) × (t : Live) × StandsFor D.state self.old W standing × IsTx W tx t }
        ensures left { (W : World) (standing : Standing) (t : Live) → StandsFor D.state self.old W standing → IsTx W tx t
            → StandsFor D.state self.new (after_leaving W t) standing }
        ensures disk { disk_of self.new ≡ disk_of self.old }
    {
        leave(&mut self.kept, tx);
    }

    /// Lets the versions go that no transaction can be shown any more, and answers the floor: the least live begin, or
    /// the last commit's number. It takes no memory.
    ///
    /// # Errors
    ///
    /// `Down`: an earlier fault set the core down. It is as before.
    pub fn trim(&mut self) -> Result<u64, CoreError>
        requires { (W : World) × (standing : Standing) × StandsFor D.state self.old W standing }
        ensures trimmed { (W : World) → StandsFor D.state self.old W up → (result ≡ Ok (floor W)) × StandsFor D.state self.new (after_trim W) up }
        ensures down { (W : World) (lost : List Commit) → StandsFor D.state self.old W (down lost) → (result ≡ Err CoreError.Down) × (self.new ≡ self.old) }
        ensures disk { disk_of self.new ≡ disk_of self.old }
    {
        if self.kept.down {
            return Err(CoreError::Down);
        }
        let floor = self.kept.live.floor(self.kept.log.last());
        version_trim::trim(&mut self.kept.index, floor);
        self.kept.trim = floor;
        Ok(floor)
    }

    /// Moves the base to the floor, in the other half, and answers the floor. What live transactions are shown stays. A
    /// stop at any moment leaves the same commits.
    ///
    /// # Errors
    ///
    /// After any error but `Disk` the core represents the same world.
    /// - `Down`: an earlier fault set the core down.
    /// - `Worn`: the image's generation is `LAST`. The disk is untouched.
    /// - `Memory`: want of memory, which may come after the other half was closed.
    /// - `Disk`: the disk failed. The core is down, and the image has the same commits.
    pub fn compact(&mut self) -> Result<u64, CoreError>
        requires { (W : World) × (standing : Standing) × StandsFor D.state self.old W standing }
        ensures switched { (W : World) → StandsFor D.state self.old W up → IfOk result (λ n. (n ≡ floor W) × ((answer : CoreReply) → switch_step W W.geometry.form answer ≡ (answer, after_switch W W.geometry.form))
            × StandsFor D.state self.new (after_switch W W.geometry.form) up) }
        ensures refused { (W : World) (answer : CoreReply) → StandsFor D.state self.old W up → IfErr result (λ e. (e ≡ CoreError.Disk) ⊎ Refuses (switch_step W W.geometry.form answer).0 e) }
        ensures same { (W : World) → StandsFor D.state self.old W up → IfErr result (λ e. e ≢ CoreError.Disk → StandsFor D.state self.new W up) }
        ensures down { (W : World) (lost : List Commit) → StandsFor D.state self.old W (down lost) → (result ≡ Err CoreError.Down) × (self.new ≡ self.old) }
        ensures lost { (W : World) → StandsFor D.state self.old W up → IsErrOf result CoreError.Disk → StandsFor D.state self.new W (down []) }

        // At each moment an image shows the same history, and has the form that it had.
        ensures moments { (W : World) → StandsFor D.state self.old W up → LeavesOnly (D.state (disk_of self.old)) (D.state (disk_of self.new)) (ShowsLast W) }
        ensures form { (W : World) → StandsFor D.state self.old W up → LeavesOnly (D.state (disk_of self.old)) (D.state (disk_of self.new)) (HasForm W W.geometry.form) }
        ensures unworn { (W : World) (answer : CoreReply) → StandsFor D.state self.old W up → IsErrOf result CoreError.Disk → (switch_step W W.geometry.form answer).0 ≡ answer }
        ensures last { (at : ℕ) → IsErrOf result (CoreError.Worn at) → at ≡ LAST }
        ensures worn { IfErr result (λ e. e ≢ CoreError.Disk → e ≢ CoreError.Memory → disk_of self.new ≡ disk_of self.old) }
        ensures told { OnOk result (StaysTold (D.state (disk_of self.old)) (D.state (disk_of self.new))) }
        ensures still_told { IfErr result (λ e. e ≢ CoreError.Disk → StaysTold (D.state (disk_of self.old)) (D.state (disk_of self.new))) }
        ensures cause { BlamesDisk (D.state (disk_of self.old)).faults (D.state (disk_of self.new)).faults result }
    {
        if self.kept.down {
            return Err(CoreError::Down);
        }
        let form = self.kept.geometry.form;
        switch_half(&mut self.kept, &mut self.disk, form)
    }

    /// Compacts into an image of form 2, in which transactions of either mode may begin, and answers the floor.
    ///
    /// # Errors
    ///
    /// As those of `compact`. After `Disk` the image has the form that it had, or form 2.
    pub fn upgrade(&mut self) -> Result<u64, CoreError>
        requires { (W : World) × (standing : Standing) × StandsFor D.state self.old W standing }
        ensures switched { (W : World) → StandsFor D.state self.old W up → IfOk result (λ n. (n ≡ floor W) × ((answer : CoreReply) → switch_step W 2 answer ≡ (answer, after_switch W 2))
            × StandsFor D.state self.new (after_switch W 2) up) }
        ensures refused { (W : World) (answer : CoreReply) → StandsFor D.state self.old W up → IfErr result (λ e. (e ≡ CoreError.Disk) ⊎ Refuses (switch_step W 2 answer).0 e) }
        ensures same { (W : World) → StandsFor D.state self.old W up → IfErr result (λ e. e ≢ CoreError.Disk → StandsFor D.state self.new W up) }
        ensures down { (W : World) (lost : List Commit) → StandsFor D.state self.old W (down lost) → (result ≡ Err CoreError.Down) × (self.new ≡ self.old) }
        ensures lost { (W : World) → StandsFor D.state self.old W up → IsErrOf result CoreError.Disk → StandsFor D.state self.new W (down []) }

        // At each moment an image shows the same history, and has the form that it had, or form 2.
        ensures moments { (W : World) → StandsFor D.state self.old W up → LeavesOnly (D.state (disk_of self.old)) (D.state (disk_of self.new)) (ShowsLast W) }
        ensures form { (W : World) → StandsFor D.state self.old W up → LeavesOnly (D.state (disk_of self.old)) (D.state (disk_of self.new)) (HasFormOr W 2) }
        ensures unworn { (W : World) (answer : CoreReply) → StandsFor D.state self.old W up → IsErrOf result CoreError.Disk → (switch_step W 2 answer).0 ≡ answer }
        ensures last { (at : ℕ) → IsErrOf result (CoreError.Worn at) → at ≡ LAST }
        ensures worn { IfErr result (λ e. e ≢ CoreError.Disk → e ≢ CoreError.Memory → disk_of self.new ≡ disk_of self.old) }
        ensures told { OnOk result (StaysTold (D.state (disk_of self.old)) (D.state (disk_of self.new))) }
        ensures still_told { IfErr result (λ e. e ≢ CoreError.Disk → StaysTold (D.state (disk_of self.old)) (D.state (disk_of self.new))) }
        ensures cause { BlamesDisk (D.state (disk_of self.old)).faults (D.state (disk_of self.new)).faults result }
    {
        if self.kept.down {
            return Err(CoreError::Down);
        }
        switch_half(&mut self.kept, &mut self.disk, 2)
    }

    /// The commits above a number, from the transaction's begin on, each with the bytes that it wrote.
    ///
    /// # Errors
    ///
    /// - `Down`: an earlier fault set the core down.
    /// - `Memory`: want of memory.
    pub fn recent(&self, tx: u64, after: u64) -> Result<Recent, CoreError>
        requires { (W : World) × (standing : Standing) × (t : Live) × StandsFor D.state self.now W standing × IsTx W tx t × (t.begin ≤ after) × (after ≤ last W.history) }
        ensures notes { (W : World) (t : Live) → StandsFor D.state self.now W up → IsTx W tx t → t.begin ≤ after
            → IfOk result (λ r. (r.after ≡ after) × (r.upto ≡ last W.history) × AreNotesAfter W.geometry W.history after r.notes.notes) }
        ensures memory { (W : World) → StandsFor D.state self.now W up → IfErr result (λ e. e ≡ CoreError.Memory) }
        ensures down { (W : World) (lost : List Commit) → StandsFor D.state self.now W (down lost) → IsErrOf result CoreError.Down }
    {
        let _ = tx;
        if self.kept.down {
            return Err(CoreError::Down);
        }
        match self.kept.notes.copy_after(after) {
            Ok(notes) => Ok(Recent {
                after,
                upto: self.kept.log.last(),
                notes,
            }),
            Err(_) => Err(CoreError::Memory),
        }
    }

    /// The numbers of the image and of its transactions.
    pub fn stat(&self) -> Stat
        ensures { (W : World) (standing : Standing) → StandsFor D.state self.now W standing → result ≡ record {
          last = last W.history;
          base = W.base;
          trim = W.trim;
          live = length W.live;
          used = used W;
          versions = versions W;
          down = is_down standing;
        } }
    {
        Stat {
            last: self.kept.log.last(),
            base: self.kept.base,
            trim: self.kept.trim,
            live: self.kept.live.len(),
            used: self.kept.log.used(),
            versions: self.kept.index.count(),
            down: self.kept.down,
        }
    }
}
