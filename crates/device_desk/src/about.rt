// What a desk tells of the image and of its transactions, in which nothing changes.
ghost use Rattle.std.specs.Prelude.{◌≡◌, ◌-◌, ◌==◌, ℕ, ◌∷◌, Some, None, false, find, length, map, option_map};
ghost use Rattle.iso_model.specs.{declared.limits.TheConstants.MAX_ACCESSES, World.{Live, World, attached, floor_of, least_begin}};
ghost use Rattle.device_desk.specs.{Device.StandsAt, Oldest.oldest_of, Seats.live_of};

use crate::desk::Desk;
use crate::seat::Seat;
use crate::table::Table;
use iso_disk::Disk;
use iso_model::Geometry;

/// The number of the one that began first: of that number and begin, or of these, where one began before it.
fn least_begun(live: &[Seat], number: u64, begin: u64) -> u64
    ensures { (t : Live) → t.number ≡ number → t.begin ≡ begin
        → option_map (λ u. u.number) (find (λ u. u.begin == least_begin begin (map live_of live.now)) (t ∷ map live_of live.now)) ≡ Some result }
{
    let mut oldest = number;
    let mut least = begin;
    for seat in live {
        let at = seat.work.begun_at();
        if at < least {
            oldest = seat.tx;
            least = at;
        }
    }
    oldest
}

/// The number of the first one with the least begin.
fn first_begun(live: &[Seat]) -> Option<u64>
    ensures { (n : ℕ) → result ≡ option_map (λ t. t.number) (find (λ t. t.begin == floor_of n (map live_of live.now)) (map live_of live.now)) }
{
    let Some((first, others)) = live.split_first() else {
        return None;
    };
    Some(least_begun(others, first.tx, first.work.begun_at()))
}

impl<D: Disk> Table<D> {
    ghost use Rattle.device_desk.specs.Seats.{IsTableOf};

    /// How many accesses the transaction of this number may still make.
    pub(crate) fn room(&self, number: u64) -> Option<u32>
        requires { (W : World) × IsTableOf D.state self.now W }
        ensures { (W : World) → IsTableOf D.state self.now W → result ≡ option_map (λ t. MAX_ACCESSES - length t.accesses) (attached W number) }
    {
        let Some(i) = self.place_at(number) else {
            return None;
        };
        Some(self.live[i].work.room())
    }

    /// The number of the transaction that holds the floor.
    pub(crate) fn oldest(&self) -> Option<u64>
        ensures { (W : World) → IsTableOf D.state self.now W → result ≡ option_map (λ t. t.number) (oldest_of W) }
    {
        first_begun(&self.live)
    }
}

impl<D: Disk> Desk<D> {
    /// The sizes of the image, its mode and its form. Of a desk that is down they are those that it had last, which no clause says.
    pub fn geometry(&self) -> Geometry
        ensures { (W : World) → StandsAt D.state self.now W → result ≡ W.geometry }
    {
        self.table.core.geometry()
    }

    /// How many accesses the transaction of this number may still make, and none exactly where no live transaction has it. A desk
    /// that is down has none.
    pub fn room(&self, number: u64) -> Option<u32>
        ensures room { (W : World) → StandsAt D.state self.now W → result ≡ option_map (λ t. MAX_ACCESSES - length t.accesses) (attached W number) }
        ensures down { self.now.up ≡ false → result ≡ None }
    {
        if !self.up {
            return None;
        }
        self.table.room(number)
    }

    /// The number of the live transaction that began first. It holds the floor: what it is shown cannot be trimmed, and its log
    /// is not given back by a compaction. A desk that is down has none.
    pub fn oldest(&self) -> Option<u64>
        ensures oldest { (W : World) → StandsAt D.state self.now W → result ≡ option_map (λ t. t.number) (oldest_of W) }
        ensures down { self.now.up ≡ false → result ≡ None }
    {
        if !self.up {
            return None;
        }
        self.table.oldest()
    }
}
