// A live transaction at its number.
ghost use Rattle.std.specs.{Prelude.{◌≡◌, ◌<◌, Some, None, MatchOption, find, length, map}, List.HoldsAt};
ghost use Rattle.iso_model.specs.{World.is_at_client, Worlds.AreDistinct};
ghost use Rattle.device_desk.specs.Seats.{live_of};

use tx_table::Work;

/// A live transaction: its number, and what it does.
#[derive(Drop)]
pub(crate) struct Seat {
    pub(crate) tx: u64,
    pub(crate) work: Box<Work>,
}

// Where in the list the transaction of that number is, where the numbers rise, as those of transactions that begin do.
fn place_of_number(live: &[Seat], number: u64) -> usize {
    let count = live.len();
    // Mostly it began last of all, or first.
    if count > 0 && live[count - 1].tx == number {
        return count - 1;
    }
    if count > 0 && number <= live[0].tx {
        return 0;
    }
    live.partition_point(|seat| seat.tx < number)
}

// The list is gone over from its front.
fn walk_to(live: &[Seat], number: u64) -> Option<usize>
    ensures { MatchOption result (find (λ t. is_at_client number t.place) (map live_of live.now) ≡ None)
        (λ i. (i < length live.now) × HoldsAt (λ a. find (λ t. is_at_client number t.place) (map live_of live.now) ≡ Some (live_of a)) live.now i) }
{
    for (i, seat) in live.iter().enumerate() {
        if number == seat.tx {
            return Some(i);
        }
    }
    None
}

/// Where in the list the transaction of this number is.
pub(crate) fn place_of(live: &[Seat], number: u64) -> Option<usize>
    requires { AreDistinct (map live_of live.now) }
    ensures { MatchOption result (find (λ t. is_at_client number t.place) (map live_of live.now) ≡ None)
        (λ i. (i < length live.now) × HoldsAt (λ a. find (λ t. is_at_client number t.place) (map live_of live.now) ≡ Some (live_of a)) live.now i) }
{
    let place = place_of_number(live, number);
    if place < live.len() && live[place].tx == number {
        return Some(place);
    }
    walk_to(live, number)
}
