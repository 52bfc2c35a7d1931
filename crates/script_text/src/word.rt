// The words of a line, and the numbers that they spell.
ghost use Rattle.std.specs.{Prelude.{◌≡◌, ◌≢◌, ◌+◌, ◌<◌, ◌≤◌, [], ◌∷◌, IfSome, MatchOption, drop, length, take, true}, List.list_all};
ghost use Rattle.script_model.specs.Text.{number_of, words_of};
ghost use Rattle.script_text.specs.Words.{is_no_space, may_be_decimal, word_before};

// How many bytes of a long word are looked at with no way out between, and so at once. Most words are shorter.
const LANES: usize = 16;

/// Whether none of `LANES` bytes from a place on is found to be a space.
#[inline(always)]
fn have_no_space(text: &[u8], at: usize) -> bool
    requires { at + LANES ≤ length text.now }
    ensures { result ≡ true → list_all is_no_space (take LANES (drop at text.now)) ≡ true }
{
    let mut good = true;
    'bytes: for k in 0..LANES {
        good &= text[at + k] != b' ';
    }
    good
}

/// How many bytes at the front of a text are found to have no space where many are looked at at once: none of a short text.
#[inline(always)]
fn begun_length(text: &[u8]) -> usize
    ensures within { result ≤ length text.now }
    ensures word { list_all is_no_space (take result text.now) ≡ true }
{
    let mut at = 0;
    'bytes: while text.len() - at >= LANES {
        if !have_no_space(text, at) {
            return at;
        }
        at += LANES;
    }
    at
}

/// The bytes before the first space, and what follows it.
#[inline(always)]
fn cut(text: &[u8]) -> (&[u8], &[u8])
    requires { 0 < length text.now }
    ensures shorter { length result.1.now < length text.now }
    ensures words { words_of text.now ≡ word_before result.0.now (words_of result.1.now) }
{
    let mut at = begun_length(text);
    'bytes: while at < text.len() {
        if text[at] == b' ' {
            let (word, behind) = text.split_at(at);
            let (_, more) = behind.split_at(1);
            return (word, more);
        }
        at += 1;
    }
    text.split_at(at)
}

/// The first word of a text, and what follows it. None where it has no word.
#[inline(always)]
pub(crate) fn next_word(text: &[u8]) -> Option<(&[u8], &[u8])>
    ensures words { MatchOption result (words_of text.now ≡ []) (λ found. words_of text.now ≡ found.0.now ∷ words_of found.1.now) }
    ensures shorter { IfSome result (λ found. length found.1.now < length text.now) }
{
    let mut rest = text;
    while !rest.is_empty() {
        let (word, behind) = cut(rest);
        if !word.is_empty() {
            return Some((word, behind));
        }
        rest = behind;
    }
    None
}

/// The word of a text that has one.
#[inline(always)]
pub(crate) fn one_word(text: &[u8]) -> Option<&[u8]>
    ensures { MatchOption result (length (words_of text.now) ≢ 1) (λ word. words_of text.now ≡ word.now ∷ []) }
{
    let (word, rest) = next_word(text)?;
    match next_word(rest) {
        None => Some(word),
        Some(_) => None,
    }
}

/// The words of a text that has two.
#[inline(always)]
pub(crate) fn two_words(text: &[u8]) -> Option<(&[u8], &[u8])>
    ensures { MatchOption result (length (words_of text.now) ≢ 2) (λ words. words_of text.now ≡ words.0.now ∷ words.1.now ∷ []) }
{
    let (first, rest) = next_word(text)?;
    let second = one_word(rest)?;
    Some((first, second))
}

/// The words of a text that has three.
#[inline(always)]
pub(crate) fn three_words(text: &[u8]) -> Option<(&[u8], &[u8], &[u8])>
    ensures { MatchOption result (length (words_of text.now) ≢ 3) (λ words. words_of text.now ≡ words.0.now ∷ words.1.now ∷ words.2.now ∷ []) }
{
    let (first, rest) = next_word(text)?;
    let (second, third) = two_words(rest)?;
    Some((first, second, third))
}

/// How many words a text has.
pub(crate) fn count_words(text: &[u8]) -> usize
    ensures { result ≡ length (words_of text.now) }
{
    let mut count: usize = 0;
    let mut rest = text;
    while let Some((_, behind)) = next_word(rest) {
        count += 1;
        rest = behind;
    }
    count
}

/// Whether a word has a byte, and no zero before others.
fn may_be_decimal(word: &[u8]) -> bool
    ensures { result ≡ may_be_decimal word.now }
{
    match word {
        [] => false,
        [b'0', _, ..] => false,
        _ => true,
    }
}

/// The number that a word of one byte spells.
#[inline(always)]
fn one_digit(digit: u8) -> Option<u32>
    ensures { result ≡ number_of (digit ∷ []) }
{
    if !digit.is_ascii_digit() {
        return None;
    }
    Some(u32::from(digit - b'0'))
}

/// The number that a word of two bytes spells.
#[inline(always)]
fn two_digits(tens: u8, ones: u8) -> Option<u32>
    ensures { result ≡ number_of (tens ∷ ones ∷ []) }
{
    if !(b'1'..=b'9').contains(&tens) || !ones.is_ascii_digit() {
        return None;
    }
    Some(10 * u32::from(tens - b'0') + u32::from(ones - b'0'))
}

/// The number that a word of any length spells.
fn number_by_digits(word: &[u8]) -> Option<u32>
    ensures { result ≡ number_of word.now }
{
    if !may_be_decimal(word) {
        return None;
    }
    let mut value: u32 = 0;
    for digit in word {
        if !digit.is_ascii_digit() {
            return None;
        }
        value = value
            .checked_mul(10)?
            .checked_add(u32::from(*digit - b'0'))?;
    }
    Some(value)
}

/// The number that a word spells, if it is below 2^32.
#[inline(always)]
pub fn number_of(word: &[u8]) -> Option<u32>
    ensures { result ≡ number_of word.now }
{
    // most numbers of a script have one digit or two
    if let [digit] = word {
        return one_digit(*digit);
    }
    if let [tens, ones] = word {
        return two_digits(*tens, *ones);
    }
    number_by_digits(word)
}
