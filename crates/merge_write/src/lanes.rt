// The kernel: bytes laid over others 64 at a time, in the lanes of a vector, by a mask of bits.
ghost use Rattle.std.specs.{Prelude.{◌≡◌, ◌+◌, ◌%◌, ◌≤◌, ◌==◌, true, length, slice_index}, Int.bit_at};
ghost use Rattle.merge_write.specs.{Copies.IsLaid, Patch.{values_from, laid, IsRow}};

use std::simd::prelude::*;

// Which byte of a word of masks has the bit of a lane.
const BYTES: [usize; 64] = [
    0, 0, 0, 0, 0, 0, 0, 0, 1, 1, 1, 1, 1, 1, 1, 1, 2, 2, 2, 2, 2, 2, 2, 2, 3, 3, 3, 3, 3, 3, 3, 3,
    4, 4, 4, 4, 4, 4, 4, 4, 5, 5, 5, 5, 5, 5, 5, 5, 6, 6, 6, 6, 6, 6, 6, 6, 7, 7, 7, 7, 7, 7, 7, 7,
];

// The bit of a lane in that byte.
const BITS: [u8; 64] = [
    1, 2, 4, 8, 16, 32, 64, 128, 1, 2, 4, 8, 16, 32, 64, 128, 1, 2, 4, 8, 16, 32, 64, 128, 1, 2, 4,
    8, 16, 32, 64, 128, 1, 2, 4, 8, 16, 32, 64, 128, 1, 2, 4, 8, 16, 32, 64, 128, 1, 2, 4, 8, 16,
    32, 64, 128, 1, 2, 4, 8, 16, 32, 64, 128,
];

// Lays the 64 bytes from `at` on, where lane k of `masks` has the bit of byte k.
fn lay_lanes(values: &[u8], masks: u8x64, at: usize, into: &mut [u8])
    requires masks { length masks ≡ 64 }
    requires values { at + 64 ≤ length values.now }
    requires into { at + 64 ≤ length into.old }
    ensures { IsLaid at 64 (λ k. bit_at (slice_index masks k) (k % 8) == 1) values.now into.old into.new }
{
    let bits = u8x64::from_array(BITS);
    (masks & bits)
        .simd_eq(bits)
        .select(
            u8x64::from_slice(&values[at..]),
            u8x64::from_slice(&into[at..]),
        )
        .copy_to_slice(&mut into[at..]);
}

// Lays all 64 bytes from `at` on.
fn lay_whole(values: &[u8], at: usize, into: &mut [u8])
    requires values { at + 64 ≤ length values.now }
    requires into { at + 64 ≤ length into.old }
    ensures { IsLaid at 64 (λ k. true) values.now into.old into.new }
{
    u8x64::from_slice(&values[at..]).copy_to_slice(&mut into[at..]);
}

// Lays the 64 bytes from `at` on whose bits are set in `mask`.
fn lay_word(values: &[u8], mask: u64, at: usize, into: &mut [u8])
    requires values { at + 64 ≤ length values.now }
    requires into { at + 64 ≤ length into.old }
    ensures { IsLaid at 64 (λ k. bit_at mask k == 1) values.now into.old into.new }
{
    if mask == 0 {
        return;
    }
    if mask == u64::MAX {
        lay_whole(values, at, into);
        return;
    }
    let masks = u8x8::from_array(mask.to_le_bytes());
    lay_lanes(values, masks.swizzle(BYTES), at, into);
}

/// Replaces the bytes of `into` whose bit is set by those of `values`, 64 at a time.
pub fn lay(values: &[u8], masks: &[u64], into: &mut [u8])
    requires row { IsRow values.now masks.now }
    requires into { length into.old ≡ length values.now }
    ensures { into.new ≡ laid (values_from masks.now 0 values.now) into.old }
{
    for word in 0..masks.len() {
        lay_word(values, masks[word], 64 * word, into);
    }
}
