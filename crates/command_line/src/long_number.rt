// Numbers of up to 64 bits.
ghost use Rattle.std.specs.Prelude.{◌≡◌};
ghost use Rattle.script_model.specs.Text.{is_decimal};
ghost use Rattle.command_line.specs.Values.{long_number_of};

/// Whether the word is decimal digits without a leading zero, but for 0 itself.
fn is_decimal(word: &[u8]) -> bool
    ensures { result ≡ is_decimal word.now }
{
    match word {
        [] => false,
        [digit] => digit.is_ascii_digit(),
        [first, ..] => *first != b'0' && word.iter().all(u8::is_ascii_digit),
    }
}

/// The number that a word spells, if it is below 2^64.
pub(crate) fn long_number_of(word: &str) -> Option<u64>
    ensures { result ≡ long_number_of word.now }
{
    if !is_decimal(word.as_bytes()) {
        return None;
    }
    word.parse::<u64>().ok()
}
