// The versions at or below a number.
ghost use Rattle.std.specs.Prelude.{◌≡◌, ◌<◌, ◌≤◌, ℕ, length, take};
ghost use Rattle.mv_index.specs.{Ranges.TakesHalves, Versions.{upto, number_at, Rise}};

use crate::{Ledger, Steps, Version};

/// How many versions have a number at or below this one.
pub fn count_upto<L: Ledger>(versions: &[Version], at: u64, steps: &mut Steps<L>) -> usize
    requires { Rise versions.now }
    ensures within { result ≤ length versions.now }
    ensures below { (k : ℕ) → k < result → number_at versions.now k ≤ at }
    ensures above { (k : ℕ) → result ≤ k → k < length versions.now → at < number_at versions.now k }
    ensures exact { take result versions.now ≡ upto at versions.now }
    ensures took { TakesHalves (length versions.now) steps.old steps.new }
{
    let mut low = 0;
    let mut high = versions.len();
    while low < high {
        let mid = low + (high - low) / 2;
        steps.tick();
        if versions[mid].number <= at {
            low = mid + 1;
        } else {
            high = mid;
        }
    }
    low
}
