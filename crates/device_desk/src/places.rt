// Where the transactions of some numbers stand, and how they leave.
ghost use Rattle.std.specs.{Prelude.{◌≡◌, ◌≢◌, ◌++◌, ℕ, List, IfSome, map}, Bool.OnTrue, List.AllByRecursion};
ghost use Rattle.iso_model.specs.{declared.access.Geometry.Geometry, Worlds.AreDistinct};
ghost use Rattle.iso_machine.specs.Grouping.{without_found};
ghost use Rattle.device_desk.specs.{Lent.StandAt, Numbers.{left_of, of_number}, Seats.{IsSized, live_of}};

use crate::seat::{Seat, place_of};
use iso_machine::keep_spare;
use std::alloc::Global;
use tx_table::Work;

/// Whether it is none of these numbers.
fn is_other(number: u64, others: &[u64]) -> bool
    ensures { OnTrue result (AllByRecursion (λ m. m ≢ number) others.now) }
{
    let Some((first, rest)) = others.split_first() else {
        return true;
    };
    if *first == number {
        return false;
    }
    is_other(number, rest)
}

/// Finds the transaction of each of these numbers, which have to be different ones, and puts its place behind the others.
fn find_places(live: &[Seat], numbers: &[u64], places: &mut Vec<usize>) -> bool
    requires { AreDistinct (map live_of live.now) }
    ensures { OnTrue result ((more : List ℕ) × (places.new.items ≡ places.old.items ++ more) × StandAt live.now numbers.now more) }
{
    let Some((first, others)) = numbers.split_first() else {
        return true;
    };
    if !is_other(*first, others) {
        return false;
    }
    let Some(i) = place_of(live, *first) else {
        return false;
    };
    if let Err(_) = places.push(i) {
        return false;
    }
    find_places(live, others, places)
}

/// The places of the transactions of these numbers, if they are different ones and each has one.
pub(crate) fn places_of(alloc: Global, live: &[Seat], numbers: &[u64]) -> Option<Vec<usize>>
    requires { AreDistinct (map live_of live.now) }
    ensures { IfSome result (λ places. StandAt live.now numbers.now places.items) }
{
    let mut places = Vec::new(alloc);
    // Without memory for all of them the list grows step by step.
    let _ = places.reserve(numbers.len());
    if !find_places(live, numbers, &mut places) {
        return None;
    }
    Some(places)
}

/// The transaction of this number leaves the list, if there is one.
fn leave_one(live: &mut Vec<Seat>, spare: &mut Vec<Box<Work>>, number: u64)
    requires { AreDistinct (map live_of live.old.items) }
    ensures live { map live_of live.new.items ≡ without_found (map live_of live.old.items) (of_number number (map live_of live.old.items)) }
    ensures distinct { AreDistinct (map live_of live.new.items) }
    ensures sized { (g : Geometry) → AllByRecursion (IsSized g) live.old.items → AllByRecursion (IsSized g) live.new.items }
{
    let Some(i) = place_of(live, number) else {
        return;
    };
    let gone = live.remove(i);
    keep_spare(spare, gone.work);
}

/// The transactions of these numbers leave the list, the last one first: numbers mostly rise, so few others have to move.
pub(crate) fn leave(live: &mut Vec<Seat>, spare: &mut Vec<Box<Work>>, numbers: &[u64])
    requires { AreDistinct (map live_of live.old.items) }
    ensures live { map live_of live.new.items ≡ left_of numbers.now (map live_of live.old.items) }
    ensures sized { (g : Geometry) → AllByRecursion (IsSized g) live.old.items → AllByRecursion (IsSized g) live.new.items }
{
    let Some((last, others)) = numbers.split_last() else {
        return;
    };
    leave_one(live, spare, *last);
    leave(live, spare, others);
}
