// Copies of a few bytes without a call.
ghost use Rattle.std.specs.Prelude.{◌+◌, ◌≤◌, true, length};
ghost use Rattle.merge_write.specs.Copies.{AreCopied, IsLaid};

use std::simd::prelude::*;

// Copies the 4 bytes from `at` on.
fn copy_four(bytes: &[u8], at: usize, into: &mut [u8])
    requires bytes { at + 4 ≤ length bytes.now }
    requires into { at + 4 ≤ length into.old }
    ensures { IsLaid at 4 (λ k. true) bytes.now into.old into.new }
{
    u8x4::from_slice(&bytes[at..]).copy_to_slice(&mut into[at..]);
}

// Copies the bytes from `from` up to `to` by a call, which stays out of the way of few bytes.
#[inline(never)]
fn copy_any(bytes: &[u8], from: usize, to: usize, into: &mut [u8])
    requires order { from ≤ to }
    requires bytes { to ≤ length bytes.now }
    requires into { to ≤ length into.old }
    ensures { AreCopied from to bytes.now into.old into.new }
{
    into[from..to].copy_from_slice(&bytes[from..to]);
}

/// Copies the bytes from `from` up to `to`.
pub fn copy_range(bytes: &[u8], from: usize, to: usize, into: &mut [u8])
    requires order { from ≤ to }
    requires bytes { to ≤ length bytes.now }
    requires into { to ≤ length into.old }
    ensures { AreCopied from to bytes.now into.old into.new }
{
    let count = to - from;
    if 4 <= count && count <= 8 {
        // Two parts that may overlap.
        copy_four(bytes, from, into);
        copy_four(bytes, to - 4, into);
        return;
    }
    copy_any(bytes, from, to, into);
}
