// Words with a bit for each byte of a block.
ghost use Rattle.std.specs.{Prelude.{◌≡◌, ◌+◌, ◌*◌, ◌<◌, ◌≤◌, ◌||◌, ℕ, length, not}, List.{list_any, range_with_len}};
ghost use Rattle.mv_index.specs.{Masks.is_seen, Versions.in_bytes};

use merge_write::{next_place, set_bits};

/// Marks `len` bytes of a block from `off` on as seen, in a row of 64 words with a bit for each byte. It answers whether one was not.
pub fn see(seen: &mut [u64], off: usize, len: usize) -> bool
    requires size { length seen.old ≡ 64 }
    requires fits { off + len ≤ 64 * length seen.old }
    ensures some { result ≡ list_any (λ p. not (is_seen seen.old p)) (range_with_len off len) }
    ensures len { length seen.new ≡ length seen.old }
    ensures marked { (p : ℕ) → p < 64 * length seen.old → is_seen seen.new p ≡ (in_bytes off len p || is_seen seen.old p) }
{
    let end = off + len;
    let first = next_place(seen, off, end, false);
    set_bits(seen, first, end);
    first < end
}
