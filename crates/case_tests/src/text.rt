// The text of a row of a case: escapes, and what is in braces.
use std::alloc::{AllocError, AllocFailed, Global};
use std::fmt::Write;

/// Why a file cannot be read as cases.
#[derive(Drop)]
pub(crate) enum Trouble {
    Memory,
    Said(&'static str),
}

impl From<AllocError> for Trouble {
    fn from(_e: AllocError) -> Trouble {
        Trouble::Memory
    }
}

impl<T: Drop> From<AllocFailed<T>> for Trouble {
    fn from(_e: AllocFailed<T>) -> Trouble {
        Trouble::Memory
    }
}

/// A name for a text, used in braces.
#[derive(Drop)]
pub(crate) struct Short {
    pub(crate) name: String,
    pub(crate) text: String,
}

/// The names of a file, and the number of the round in which a row is laid.
#[derive(Clone, Copy)]
pub(crate) struct Names<'a> {
    pub(crate) shorts: &'a [Short],
    pub(crate) round: u64,
}

/// The byte that two digits spell.
fn byte_of(high: u8, low: u8) -> Option<u8> {
    let high = char::from(high).to_digit(16)?;
    let low = char::from(low).to_digit(16)?;
    u8::try_from(high.wrapping_mul(16).wrapping_add(low)).ok()
}

/// The byte that a pair of digits spells.
fn pair_of(pair: &[u8]) -> Option<u8> {
    match pair {
        [high, low] => byte_of(*high, *low),
        _ => None,
    }
}

/// The bytes that digits spell.
pub(crate) fn bytes_of(alloc: Global, text: &str) -> Result<Vec<u8>, Trouble> {
    let mut out = Vec::new(alloc);
    for pair in text.as_bytes().chunks(2) {
        match pair_of(pair) {
            Some(byte) => out.push(byte)?,
            None => return Err(Trouble::Said("bytes are an even number of digits")),
        }
    }
    Ok(out)
}

/// A number.
pub(crate) fn number_of(text: &str) -> Result<u64, Trouble> {
    let mut number: u64 = 0;
    for byte in text.as_bytes() {
        let digit = byte.wrapping_sub(b'0');
        if digit > 9 {
            return Err(Trouble::Said("a number is wanted"));
        }
        number = number.saturating_mul(10).saturating_add(u64::from(digit));
    }
    if text.is_empty() {
        return Err(Trouble::Said("a number is missing"));
    }
    Ok(number)
}

/// A number that counts bytes or places.
pub(crate) fn size_of(text: &str) -> Result<usize, Trouble> {
    match usize::try_from(number_of(text)?) {
        Ok(size) => Ok(size),
        Err(_) => Err(Trouble::Said("this number is too large")),
    }
}

/// The two words of a text.
pub(crate) fn two(text: &str) -> Result<(&str, &str), Trouble> {
    match text.split_once(' ') {
        Some(both) => Ok(both),
        None => Err(Trouble::Said("two words are wanted behind this one")),
    }
}

/// Two numbers.
pub(crate) fn two_numbers(text: &str) -> Result<(u64, u64), Trouble> {
    let (one, two) = two(text)?;
    Ok((number_of(one)?, number_of(two)?))
}

/// What a table has under a name. A `match` of texts is a call for each of them, all of which are proved.
pub(crate) fn found<T: Copy>(table: &[(&str, T)], name: &str) -> Option<T> {
    for (own, value) in table {
        if *own == name {
            return Some(*value);
        }
    }
    None
}

/// The byte of an escape, which begins after a backslash, and how long it is.
fn escaped(bytes: &[u8]) -> Option<(u8, usize)> {
    match bytes {
        [b'n', ..] => Some((b'\n', 1)),
        [b'r', ..] => Some((b'\r', 1)),
        [b't', ..] => Some((b'\t', 1)),
        [b's', ..] => Some((b' ', 1)),
        [b'x', high, low, ..] => Some((byte_of(*high, *low)?, 3)),
        _ => None,
    }
}

/// Adds a text of which the first bytes after each backslash are an escape.
fn push_plain(out: &mut Vec<u8>, text: &str) -> Result<(), Trouble> {
    for (i, piece) in text.as_bytes().split(|b| *b == b'\\').enumerate() {
        if i == 0 {
            out.extend_from_slice(piece)?;
            continue;
        }
        let Some((byte, len)) = escaped(piece) else {
            return Err(Trouble::Said("an escape is \\n, \\r, \\t, \\s, or \\x and two digits"));
        };
        out.push(byte)?;
        out.extend_from_slice(piece.get(len..).unwrap_or(&[]))?;
    }
    Ok(())
}

/// Adds a text `count` times.
fn push_repeated(out: &mut Vec<u8>, text: &str, count: u64) -> Result<(), Trouble> {
    for _ in 0..count.min(100_000) {
        push_plain(out, text)?;
    }
    Ok(())
}

/// Adds the number of a round.
fn push_round(alloc: Global, out: &mut Vec<u8>, round: u64) -> Result<(), Trouble> {
    let mut digits = String::new(alloc);
    write!(digits, "{round}")?;
    out.extend_from_slice(digits.as_bytes())?;
    Ok(())
}

/// The text of a name.
fn named<'a>(shorts: &'a [Short], name: &str) -> Option<&'a str> {
    for short in shorts {
        if short.name.as_str() == name {
            return Some(short.text.as_str());
        }
    }
    None
}

/// Adds what braces mean: the number of a round, a text a given number of times, or the text of a name.
fn push_braced(
    alloc: Global,
    out: &mut Vec<u8>,
    names: Names<'_>,
    inside: &str,
) -> Result<(), Trouble> {
    if inside.is_empty() {
        return Ok(());
    }
    if inside == "#" {
        return push_round(alloc, out, names.round);
    }
    if let Some((text, count)) = inside.split_once('*') {
        return push_repeated(out, text, number_of(count)?);
    }
    match named(names.shorts, inside) {
        Some(text) => push_plain(out, text),
        None => Err(Trouble::Said("no line 'let' has this name")),
    }
}

/// Adds a text with its escapes and braces.
pub(crate) fn push_text(
    alloc: Global,
    out: &mut Vec<u8>,
    names: Names<'_>,
    text: &str,
) -> Result<(), Trouble> {
    for (i, piece) in text.split('{').enumerate() {
        if i == 0 {
            push_plain(out, piece)?;
            continue;
        }
        let Some((inside, rest)) = piece.split_once('}') else {
            return Err(Trouble::Said("a brace is not closed"));
        };
        push_braced(alloc, out, names, inside)?;
        push_plain(out, rest)?;
    }
    Ok(())
}
