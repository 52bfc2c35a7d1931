// Rows of masks, one bit for each byte of a block, read and set a word at a time.
ghost use Rattle.std.specs.{Prelude.{◌≡◌, ℕ, ◌+◌, ◌-◌, ◌*◌, ◌%◌, ◌^◌, ◌<◌, ◌≤◌, ◌==◌, ◌&&◌, ◌||◌, cond, length, nat_le, nat_lt, not}, Int.bit_at};
ghost use Rattle.merge_write.specs.Patch.{is_set};

// A word with the bits from `low` up to `high`.
fn ones(low: usize, high: usize) -> u64
    requires order { low < high }
    requires word { high ≤ 64 }
    ensures { result ≡ 2 ^ high - 2 ^ low }
{
    let last = 1u64 << (high - 1);
    let first = 1u64 << low;
    last - first + last
}

/// Sets the bits from `from` up to `to`.
pub fn set_bits(masks: &mut [u64], from: usize, to: usize)
    requires order { from ≤ to }
    requires row { to ≤ 64 * length masks.old }
    ensures { (k : ℕ) → is_set masks.new k ≡ ((nat_le from k && nat_lt k to) || is_set masks.old k) }
{
    if from == to {
        return;
    }
    let first = from / 64;
    let last = (to - 1) / 64;
    if first == last {
        masks[first] |= ones(from - 64 * first, to - 64 * first);
        return;
    }
    masks[first] |= ones(from - 64 * first, 64);
    for word in first + 1..last {
        masks[word] |= u64::MAX;
    }
    masks[last] |= ones(0, to - 64 * last);
}

/// Sets the bits that are set in another row.
pub fn join_bits(masks: &mut [u64], others: &[u64])
    requires { length others.now ≡ length masks.old }
    ensures { (k : ℕ) → is_set masks.new k ≡ (is_set others.now k || is_set masks.old k) }
{
    for word in 0..others.len() {
        masks[word] |= others[word];
    }
}

// The bits of a word where they are wanted, and else all its other bits.
fn wanted_bits(word: u64, wanted: bool) -> u64
    ensures { (k : ℕ) → k < 64 → (bit_at result k == 1) ≡ cond wanted (bit_at word k == 1) (not (bit_at word k == 1)) }
{
    if wanted { word } else { !word }
}

// How many bits from `from` on are not set, up to the end of the word.
fn zeros_from(word: u64, from: usize) -> usize
    requires { from < 64 }
    ensures within { from + result ≤ 64 }
    ensures zeros { (k : ℕ) → from ≤ k → k < from + result → bit_at word k ≡ 0 }
    ensures stops { from + result < 64 → bit_at word (from + result) ≡ 1 }
{
    let rest = word >> from;
    if rest == 0 {
        64 - from
    } else {
        rest.trailing_zeros() as usize
    }
}

// Passes the whole words from `from` on, up to `end`, that have no bit that is `wanted`.
fn pass_words(masks: &[u64], from: usize, end: usize, wanted: bool) -> usize
    requires word { from % 64 ≡ 0 }
    requires order { from ≤ end }
    requires row { end ≤ 64 * length masks.now }
    ensures from { from ≤ result }
    ensures within { result ≤ end }
    ensures passed { (k : ℕ) → from ≤ k → k < result → is_set masks.now k ≡ not wanted }
{
    let none = wanted_bits(0, wanted);
    let last = end / 64;
    let mut word = from / 64;
    while word < last && masks[word] == none {
        word += 1;
    }
    64 * word
}

/// The first place from `at` on, before `end`, whose bit is `wanted`, and else `end`.
pub fn next_place(masks: &[u64], at: usize, end: usize, wanted: bool) -> usize
    requires order { at ≤ end }
    requires row { end ≤ 64 * length masks.now }
    ensures from { at ≤ result }
    ensures within { result ≤ end }
    ensures passed { (k : ℕ) → at ≤ k → k < result → is_set masks.now k ≡ not wanted }
    ensures stops { result < end → is_set masks.now result ≡ wanted }
{
    let mut place = at;
    while place < end {
        let bits = wanted_bits(masks[place / 64], wanted);
        let ahead = zeros_from(bits, place % 64);
        if end - place <= ahead {
            return end;
        }
        if place % 64 + ahead < 64 {
            return place + ahead;
        }
        place = pass_words(masks, place + ahead, end, wanted);
    }
    end
}
