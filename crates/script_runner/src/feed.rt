// Where the next line feed is.
ghost use Rattle.std.specs.Prelude.{◌≡◌, ◌≢◌, ℕ, ◌+◌, ◌<◌, ◌≤◌, length, slice_index, IfNone, IfSome};
ghost use Rattle.script_runner.specs.Run.{HasNoFeed};

use std::simd::prelude::*;

// How many bytes are looked at at once. Most lines are shorter.
const LANES: usize = 16;

// How many of `LANES` bytes come before the first line feed among them.
#[inline(always)]
fn before_feed(text: &[u8], at: usize) -> usize
    requires { at + LANES ≤ length text.now }
    ensures within { result ≤ LANES }
    ensures before { (k : ℕ) → at ≤ k → k < at + result → slice_index text.now k ≢ 10 }
    ensures feed { result < LANES → slice_index text.now (at + result) ≡ 10 }
{
    let feeds = u8x16::from_slice(&text[at..])
        .simd_eq(u8x16::splat(b'\n'))
        .to_bitmask();
    if feeds == 0 {
        LANES
    } else {
        feeds.trailing_zeros() as usize
    }
}

/// The place of the first line feed.
pub(crate) fn find_feed(text: &[u8]) -> Option<usize>
    ensures feed { IfSome result (λ i. (i < length text.now) × (slice_index text.now i ≡ 10)) }
    ensures before { IfSome result (λ i. (k : ℕ) → k < i → slice_index text.now k ≢ 10) }
    ensures none { IfNone result (HasNoFeed text.now) }
{
    let mut at = 0;
    while text.len() - at >= LANES {
        let before = before_feed(text, at);
        at += before;
        if before < LANES {
            return Some(at);
        }
    }
    while at < text.len() {
        if text[at] == b'\n' {
            return Some(at);
        }
        at += 1;
    }
    None
}
