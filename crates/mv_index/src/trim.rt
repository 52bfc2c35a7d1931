// The versions that still show a byte.
ghost use Rattle.std.specs.{Prelude.{◌≡◌, ◌+◌, ◌-◌, ◌*◌, ◌<◌, ◌≤◌, ◌&&◌, ◌||◌, ℕ, false, not, length, drop, take, nat_le, nat_lt, vec_capacity, vec_len}, List.{list_any, range_with_len}};
ghost use Rattle.mv_index.specs.{Versions.{has, shown_since, AreWithin}, Masks.is_seen, Ranges.DropsSome};

use crate::Version;
use crate::mask::see;

/// Whether the version is above the number, or has a byte that was not seen. Those of a version at or below it are seen then.
fn look(version: &Version, number: u64, seen: &mut [u64]) -> bool
    requires size { length seen.old ≡ 64 }
    requires fits { version.now.off + version.now.len ≤ 64 * length seen.old }
    ensures shows { result ≡ (nat_lt number version.now.number || list_any (λ p. not (is_seen seen.old p)) (range_with_len version.now.off version.now.len)) }
    ensures marked { (p : ℕ) → p < 64 * length seen.old → is_seen seen.new p ≡ ((nat_le version.now.number number && has p version.now) || is_seen seen.old p) }
{
    if version.number > number {
        return true;
    }
    see(seen, version.off as usize, version.len as usize)
}

/// Puts the versions that show a byte at the number, or are above it, to the end, in order. It answers where they begin.
fn gather(versions: &mut [Version], number: u64, seen: &mut [u64]) -> usize
    requires size { length seen.old ≡ 64 }
    requires seen { (p : ℕ) → p < 64 * length seen.old → is_seen seen.old p ≡ false }
    requires within { AreWithin (64 * length seen.old) versions.old }
    ensures within { result ≤ length versions.old }
    ensures kept { drop result versions.new ≡ shown_since number versions.old }
{
    let mut left = versions.len();
    let mut kept = left;
    while left > 0 {
        left -= 1;
        let version = versions[left];
        if look(&version, number, seen) {
            kept -= 1;
            versions[kept] = version;
        }
    }
    kept
}

/// Puts the versions that show a byte at the number, or are above it, to the front, in order. It answers how many others come after them.
fn keep_shown(versions: &mut [Version], number: u64, seen: &mut [u64]) -> usize
    requires seen { length seen.old ≡ 64 }
    requires within { AreWithin 4096 versions.old }
    ensures within { result ≤ length versions.old }
    ensures kept { take (length versions.old - result) versions.new ≡ shown_since number versions.old }
{
    seen.fill(0);
    let first = gather(versions, number, seen);
    versions.rotate_left(first);
    first
}

/// Drops the versions at or below the number that show no byte there. It answers how many.
pub(crate) fn trim_list(versions: &mut Vec<Version>, number: u64, seen: &mut [u64]) -> u64
    requires seen { length seen.old ≡ 64 }
    requires within { AreWithin 4096 versions.old.items }
    ensures kept { versions.new.items ≡ shown_since number versions.old.items }
    ensures drops { DropsSome (length versions.old.items) result (length versions.new.items) (vec_capacity versions.old - vec_len versions.old) (vec_capacity versions.new - vec_len versions.new) }
{
    if versions.is_empty() {
        return 0;
    }
    let before = versions.len();
    let dropped = keep_shown(versions.as_mut_slice(), number, seen);
    versions.truncate(before - dropped);
    dropped as u64
}
