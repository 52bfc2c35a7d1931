// What is left of a log behind the record of a transaction.
ghost use Rattle.std.specs.{Prelude.{◌≡◌, ◌+◌, ◌<◌, ◌≤◌, ℕ, true, IfSome, get_or, length, map, sum_by}, Bool.OnTrue, List.AllByRecursion};
ghost use Rattle.iso_model.specs.{declared.access.Geometry.Geometry, Effect.{record_length, runs, runs_from}};
ghost use Rattle.device_desk.specs.{declared.seat.Seat.Seat, Lent.{doing_of, items_at}, Seats.{IsSized, live_of}, Waiting.needs};

use crate::seat::Seat;
use merge_write::Patch;
use tx_table::Work;

/// What is left of so many bytes behind the runs of a block's patch, if there are enough.
fn left_by_patch(room: u64, patch: &Patch) -> Option<u64>
    ensures { (b : ℕ) → IfSome result (λ left. left + sum_by (λ run. 8 + length run.bytes) (runs_from b 0 patch.now) ≡ room) }
{
    let mut left = room;
    for (_, bytes) in patch.spans() {
        left = left.checked_sub(8 + bytes.len() as u64)?;
    }
    Some(left)
}

/// What is left of so many bytes behind the record of a transaction, if there are enough.
pub(crate) fn left_by(room: u64, work: &Work) -> Option<u64>
    requires settled { work.now.settled ≡ true }
    ensures { (g : Geometry) → g.block ≡ work.now.size → g.blocks ≡ work.now.blocks → IfSome result (λ left. left + record_length (runs g work.now.accesses) ≡ room) }
{
    let mut left = room.checked_sub(20)?;
    for (_, patch) in work.patches() {
        left = left_by_patch(left, patch)?;
    }
    Some(left)
}

/// So of the transaction at a place of the list, which is settled for it.
fn left_at(live: &mut [Seat], i: usize, room: u64) -> Option<u64>
    requires { i < length live.old }
    ensures live { map doing_of live.new ≡ map doing_of live.old }
    ensures left { (g : Geometry) (d : Seat) → AllByRecursion (IsSized g) live.old
        → IfSome result (λ left. left + record_length (runs g (get_or live.old i d).work.value.accesses) ≡ room) }
{
    let work = &mut live[i].work;
    if let Err(_) = work.settle() {
        return None;
    }
    left_by(room, work)
}

/// Whether so many bytes are enough for the records of the transactions at these places. They are settled for it.
pub(crate) fn have_room(live: &mut [Seat], places: &[usize], room: u64) -> bool
    requires { AllByRecursion (λ i. i < length live.old) places.now }
    ensures live { map doing_of live.new ≡ map doing_of live.old }
    ensures room { (g : Geometry) → AllByRecursion (IsSized g) live.old → OnTrue result (needs g (items_at places.now (map live_of live.old)) ≤ room) }
{
    let Some((first, others)) = places.split_first() else {
        return true;
    };
    let Some(left) = left_at(live, *first, room) else {
        return false;
    };
    have_room(live, others, left)
}
