// Counts that stay at their last value.
ghost use Rattle.std.specs.Prelude.{◌≡◌, ◌≤◌, ◌↔◌, IsTrue};
ghost use Rattle.counts.specs.Count.{one_more, FailsNext, Rose};

/// One more, up to the last value of a `u64`.
pub fn raise(count: &mut u64)
    ensures count { count.new ≡ one_more count.old }
    ensures later { count.old ≤ count.new }
    ensures rose { Rose count.old count.new }
{
    *count = count.saturating_add(1);
}

/// Counts a call, from 1, and says whether its number is one of those that are to fail.
pub fn count_call(failing: &[u64], calls: &mut u64) -> bool
    ensures calls { calls.new ≡ one_more calls.old }
    ensures named { IsTrue result ↔ FailsNext failing.now calls.old }
{
    raise(calls);
    failing.contains(calls)
}
