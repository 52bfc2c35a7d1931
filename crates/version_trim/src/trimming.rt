// A trim of the index of versions.
ghost use Rattle.std.specs.Prelude.{◌≡◌, ◌+◌, ◌≤◌, ℕ, length};
ghost use Rattle.mv_index.specs.{Shown.ShowTheSame, Versions.{count_of, room_of, shown_since, upto, versions_in}};

use mv_index::MvIndex;

/// Drops the versions at or below the floor that show no byte there, and answers how many. What the versions of each block
/// show at the floor and at each later number stays. It takes no memory.
pub fn trim(index: &mut MvIndex, floor: u64) -> u64
    ensures blocks { length index.new ≡ length index.old }
    ensures same { (b n : ℕ) → floor ≤ n → ShowTheSame (upto n (versions_in index.new b)) (upto n (versions_in index.old b)) }
    ensures kept { (b : ℕ) → versions_in index.new b ≡ shown_since floor (versions_in index.old b) }
    ensures count { result + count_of index.new ≡ count_of index.old }
    ensures room { (b : ℕ) → room_of index.old b ≤ room_of index.new b }
{
    index.trim_to(floor)
}
