// Versions whose bytes are elsewhere.
ghost use Rattle.std.specs.Prelude.{◌≡◌, ◌-◌, ◌≤◌, length, take, vec_capacity, vec_len};
ghost use Rattle.mv_index.specs.{Moves.{AllFitAt, moved_to}, Ranges.DropsSome};

use crate::Version;

/// Puts the versions whose bytes are after a place to the front, in order, and takes them to another place: what was at
/// `from` is at `to`. It answers how many they are.
fn gather_moved(versions: &mut [Version], from: u64, to: u64) -> usize
    requires room { AllFitAt to versions.old }
    ensures within { result ≤ length versions.old }
    ensures moved { take result versions.new ≡ moved_to from to versions.old }
{
    let mut kept = 0;
    for at in 0..versions.len() {
        let version = versions[at];
        if from < version.place {
            versions[kept] = Version {
                place: to + (version.place - from),
                ..version
            };
            kept += 1;
        }
    }
    kept
}

/// Drops the versions whose bytes are before a place, and takes those after it to another one: what was at `from`
/// is at `to`. It answers how many it dropped.
pub(crate) fn move_list(versions: &mut Vec<Version>, from: u64, to: u64) -> u64
    requires room { AllFitAt to versions.old.items }
    ensures moved { versions.new.items ≡ moved_to from to versions.old.items }
    ensures drops { DropsSome (length versions.old.items) result (length versions.new.items) (vec_capacity versions.old - vec_len versions.old) (vec_capacity versions.new - vec_len versions.new) }
{
    let before = versions.len();
    let kept = gather_moved(versions.as_mut_slice(), from, to);
    versions.truncate(kept);
    (before - kept) as u64
}
