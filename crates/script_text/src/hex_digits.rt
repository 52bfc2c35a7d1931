// Bytes that are spelled in hexadecimal: each pair of digits is looked at in the same way, with no way out between, so that many
// pairs are read at once.
ghost use Rattle.std.specs.{Prelude.{◌≡◌, ◌+◌, ◌*◌, ◌<◌, ◌&&◌, IfSome, None, Some, if◌then◌else◌, length}, Option.is_some};
ghost use Rattle.script_model.specs.Text.{hex_digit, hex_pairs};

/// The value of a digit, in either case. Of another byte it is some number.
#[inline(always)]
fn digit_value(digit: u8) -> u8
    ensures value { IfSome (hex_digit digit) (λ value. result ≡ value) }
    ensures small { result < 16 }
{
    (digit % 16 + 9 * (digit / 64)) % 16
}

/// Whether both are digits.
#[inline(always)]
fn are_digits(high: u8, low: u8) -> bool
    ensures { result ≡ (is_some (hex_digit high) && is_some (hex_digit low)) }
{
    high.is_ascii_hexdigit() & low.is_ascii_hexdigit()
}

/// Writes the bytes that a word spells into their room, and says whether all of it are digits. What the room holds where they are
/// not is not said.
pub(crate) fn decode(word: &[u8], room: &mut [u8]) -> bool
    requires { length word.now ≡ 2 * length room.old }
    ensures { hex_pairs word.now ≡ if result then Some room.new else None }
{
    let mut good = true;
    'bytes: for at in 0..room.len() {
        let high = word[2 * at];
        let low = word[2 * at + 1];
        good &= are_digits(high, low);
        room[at] = 16 * digit_value(high) + digit_value(low);
    }
    good
}
