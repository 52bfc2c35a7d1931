// The moments of a mirror: a list that only contracts read.
ghost use Rattle.std.specs.Prelude.{◌≡◌, ◌∷◌, [], ℕ, List};

use iso_disk::Disk;
use std::marker::Model;
use std::snapshot::Snapshot;

/// The moments of the two sides before each call of a mirror, the last one first. It has no bytes that a caller could read.
#[derive(Drop)]
#[cycle(past)]
pub struct Past<A: Disk, B: Disk> {
    last: Last<A, B>,
}

#[derive(Drop)]
#[cycle(past)]
enum Last<A: Disk, B: Disk> {
    Start,
    Later(Snapshot<A>, Snapshot<B>, Snapshot<Past<A, B>>),
}

impl<A: Disk, B: Disk> Model for Past<A, B> {
    ghost use Rattle.std.specs.Prelude.{◌≡◌, List, ℕ, length};

    ghost Value = { List (ℕ × ℕ) };

    ghost use Rattle.mirror_disk.specs.Past.{moments};

    ghost view = { λ a. moments A.state B.state a.last };

    ghost size = { length };

    ghost use Rattle.std.proofs.Common.{arith, length-append};

    ghost size_decreases = { λ a h. Prim.grind (arith, length-append) };
}

impl<A: Disk, B: Disk> Past<A, B> {
    /// Before the first call.
    pub fn start() -> Self
        ensures { result ≡ [] }
    {
        Past { last: Last::Start }
    }

    /// Before one call more, with the sides as they are then.
    pub fn later(first: &A, second: &B, before: &Past<A, B>) -> Self
        ensures { result ≡ ((A.state first.now).clock, (B.state second.now).clock) ∷ before.now }
    {
        Past {
            last: Last::Later(
                Snapshot::of(first),
                Snapshot::of(second),
                Snapshot::of(before),
            ),
        }
    }
}
