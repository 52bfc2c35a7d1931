// The decision.
ghost use Rattle.std.specs.Prelude.{◌≡◌, ℕ, ◌+◌, ◌≤◌, true, false, Some, None, IsSome, List, length};
ghost use Rattle.byte_marks.specs.Touched.{touches};
ghost use Rattle.iso_model.specs.{declared.access.Access.Access, declared.access.Geometry.Geometry, Conflict.clash, History.History};
ghost use Rattle.conflict_rule.specs.{Notes.above, Decision.{guarded_bytes, IsAsked, IsLeastMeeting}};

use crate::Notes;
use byte_marks::Touched;
use counts::{Ledger, Steps};
use iso_model::{Clash, Mode};

/// What is known already: the commits up to a number, and the least clash with one of them.
#[derive(Clone, Copy, Debug, PartialEq, Eq)]
pub struct Checked {
    pub upto: u64,
    pub clash: Option<Clash>,
}

// The first commit above a number that meets these bytes. A step for each commit looked at.
fn least_meeting<L: Ledger>(
    bytes: &Touched,
    upto: u64,
    notes: &Notes,
    steps: &mut Steps<L>,
) -> Option<Clash>
    ensures least { IsLeastMeeting bytes.now (above upto notes.now.notes) result }
    ensures steps { steps.new ≤ steps.old + length (above upto notes.now.notes) }
{
    let mut rest = notes.after(upto);
    while let Some((commit, marks)) = rest.pass(steps) {
        if let Some((block, at)) = marks.first_meet(bytes) {
            return Some(Clash { commit, block, at });
        }
    }
    None
}

// So, for a transaction that wrote these bytes, and none where it wrote none. No commit is looked at where there is no byte that
// it could meet.
fn least_met<L: Ledger>(
    bytes: &Touched,
    written: &Touched,
    upto: u64,
    notes: &Notes,
    steps: &mut Steps<L>,
) -> Option<Clash>
    ensures read_only { ((b p : ℕ) → touches written.now b p ≡ false) → (result ≡ None) × (steps.new ≡ steps.old) }
    ensures least { (b p : ℕ) → touches written.now b p ≡ true → IsLeastMeeting bytes.now (above upto notes.now.notes) result }
    ensures steps { steps.new ≤ steps.old + length (above upto notes.now.notes) }
    ensures none { ((b p : ℕ) → touches bytes.now b p ≡ false) → steps.new ≡ steps.old }
{
    // That there is nothing to meet is seen at once where nothing was read.
    if bytes.is_empty() {
        return None;
    }
    if written.is_empty() {
        return None;
    }
    least_meeting(bytes, upto, notes, steps)
}

// The bytes that later commits may not have written.
fn guarded<'a>(mode: Mode, reads: &'a Touched, writes: &'a Touched) -> &'a Touched
    ensures { result.now ≡ guarded_bytes mode reads.now writes.now }
{
    match mode {
        Mode::Serial => reads,
        Mode::Snapshot => writes,
    }
}

/// How a transaction with these bytes conflicts, if it does: not at all without a write, as is known already, or with the first
/// commit above. No commit is looked at where there is nothing to guard, as in serial mode without a read.
pub fn decide<L: Ledger>(
    mode: Mode,
    checked: &Checked,
    reads: &Touched,
    writes: &Touched,
    notes: &Notes,
    steps: &mut Steps<L>,
) -> Option<Clash>
    ensures read_only { ((b p : ℕ) → touches writes.now b p ≡ false) → (result ≡ None) × (steps.new ≡ steps.old) }
    ensures known { (b p : ℕ) → touches writes.now b p ≡ true → IsSome checked.now.clash → (result ≡ checked.now.clash) × (steps.new ≡ steps.old) }
    ensures later { (b p : ℕ) → touches writes.now b p ≡ true → checked.now.clash ≡ None
        → IsLeastMeeting (guarded_bytes mode reads.now writes.now) (above checked.now.upto notes.now.notes) result }
    ensures steps { steps.new ≤ steps.old + length (above checked.now.upto notes.now.notes) }
    ensures unguarded { ((b p : ℕ) → touches (guarded_bytes mode reads.now writes.now) b p ≡ false) → steps.new ≡ steps.old }
    ensures exact { (g : Geometry) (H : History) (begin : ℕ) (accesses : List Access)
        → IsAsked g H mode begin accesses checked.now.upto checked.now.clash reads.now writes.now notes.now.notes
        → result ≡ clash g H mode begin accesses }
{
    if let Some(clash) = checked.clash {
        if writes.is_empty() {
            return None;
        }
        return Some(clash);
    }
    let bytes = guarded(mode, reads, writes);
    least_met(bytes, writes, checked.upto, notes, steps)
}
