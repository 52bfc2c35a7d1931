// The arguments of an operation, each with the cause that it fails by.
ghost use Rattle.std.specs.Prelude.{◌≡◌, [], ◌∷◌, IfErr, IfOk, IfSome, Ok, OnOk, vec_len};
ghost use Rattle.script_model.specs.{Script.{client_in_range, hex_argument, label_argument, labels_of, mode_argument, number_argument, store_argument}, Text.{number_of, words_of}};
ghost use Rattle.script_text.specs.{Numbers.{BeginsWith, numbers_and_word}, Parsing.{Fails, Gives, GivesBehind}};

use crate::hex_digits::decode;
use crate::word::{next_word, number_of, one_word, three_words};
use iso_model::{Bytes, Label, LabelList, Mode};
use script_model::LineError;
use std::alloc::{AllocError, Global};

/// The client that the first word names, 1 to 64.
pub(crate) fn client(word: &[u8]) -> Result<u8, LineError>
    ensures { Gives result (client_in_range (number_of word.now)) }
{
    match number_of(word) {
        Some(client @ 1..=64) => Ok(client as u8),
        _ => Err(LineError::Cause(1)),
    }
}

#[inline(always)]
pub(crate) fn number(word: &[u8]) -> Result<u32, LineError>
    ensures { Gives result (number_argument word.now) }
{
    number_of(word).ok_or(LineError::Cause(4))
}

/// The number of one digit or two that a text begins with, and what follows its word. None of another text.
#[inline(always)]
fn short_number(text: &[u8]) -> Option<(u32, &[u8])>
    ensures { IfSome result (λ found. BeginsWith text.now found.0 found.1.now) }
{
    if let [tens @ b'1'..=b'9', ones @ b'0'..=b'9', b' ', rest @ ..] = text {
        let number = 10 * u32::from(*tens - b'0') + u32::from(*ones - b'0');
        return Some((number, rest));
    }
    if let [digit @ b'0'..=b'9', b' ', rest @ ..] = text {
        return Some((u32::from(*digit - b'0'), rest));
    }
    None
}

/// The numbers that the first two of three words spell, and the third word.
#[inline(always)]
pub(crate) fn numbers_and_word(text: &[u8]) -> Result<(u32, u32, &[u8]), LineError>
    ensures ok { IfOk result (λ found. numbers_and_word (words_of text.now) ≡ Ok (found.0, found.1, found.2.now)) }
    ensures err { IfErr result (λ error. Fails error (numbers_and_word (words_of text.now))) }
{
    // most numbers of a script have one digit or two
    if let Some((first, rest)) = short_number(text) {
        if let Some((second, more)) = short_number(rest) {
            let Some(third) = one_word(more) else {
                return Err(LineError::Cause(3));
            };
            return Ok((first, second, third));
        }
    }
    let Some((first, second, third)) = three_words(text) else {
        return Err(LineError::Cause(3));
    };
    let first = match number(first) {
        Ok(first) => first,
        Err(error) => return Err(error),
    };
    let second = match number(second) {
        Ok(second) => second,
        Err(error) => return Err(error),
    };
    Ok((first, second, third))
}

/// Makes memory as long as this. What is in it is not said.
#[inline(always)]
fn fit(memory: &mut Vec<u8>, len: usize) -> Result<(), AllocError>
    ensures { OnOk result (vec_len memory.new ≡ len) }
{
    memory.resize(len, 0)
}

/// The bytes that a word spells, in this memory. What is in the memory is free.
#[inline(always)]
pub(crate) fn hex_within(word: &[u8], memory: Vec<u8>) -> Result<Bytes, LineError>
    ensures { Gives result (hex_argument word.now) }
{
    if word.is_empty() || word.len() % 2 == 1 {
        return Err(LineError::Cause(5));
    }
    let mut bytes = memory;
    if let Err(_) = fit(&mut bytes, word.len() / 2) {
        return Err(LineError::Memory);
    }
    if !decode(word, bytes.as_mut_slice()) {
        return Err(LineError::Cause(5));
    }
    Ok(Bytes::of(bytes))
}

pub(crate) fn hex(alloc: Global, word: &[u8]) -> Result<Bytes, LineError>
    ensures { Gives result (hex_argument word.now) }
{
    hex_within(word, Vec::new(alloc))
}

/// A key or a value of a store: a dash is none.
pub(crate) fn stored(alloc: Global, word: &[u8]) -> Result<Bytes, LineError>
    ensures { Gives result (store_argument word.now) }
{
    if word == b"-".as_slice() {
        return Ok(Bytes::empty(alloc));
    }
    hex(alloc, word)
}

pub(crate) fn label(word: &[u8]) -> Result<Label, LineError>
    ensures { Gives result (label_argument word.now) }
{
    Label::new(word).ok_or(LineError::Cause(6))
}

/// The labels that the words of a text spell, which has `count` words.
pub(crate) fn labels(alloc: Global, count: u32, text: &[u8]) -> Result<LabelList, LineError>
    ensures { Gives result (labels_of (words_of text.now)) }
{
    let mut labels = LabelList::empty(alloc);
    // Without memory for all of them the list grows step by step.
    let _ = labels.reserve(count);
    push_labels(&mut labels, text)?;
    Ok(labels)
}

/// Adds the labels that the words of a text spell.
fn push_labels(labels: &mut LabelList, text: &[u8]) -> Result<(), LineError>
    ensures { GivesBehind result (labels_of (words_of text.now)) labels.old labels.new }
{
    let Some((first, others)) = next_word(text) else {
        return Ok(());
    };
    push_label(labels, first)?;
    push_labels(labels, others)
}

fn push_label(labels: &mut LabelList, word: &[u8]) -> Result<(), LineError>
    ensures { GivesBehind result (labels_of (word.now ∷ [])) labels.old labels.new }
{
    let label = label(word)?;
    match labels.push(label) {
        Ok(()) => Ok(()),
        Err(_) => Err(LineError::Memory),
    }
}

pub(crate) fn mode(word: &[u8]) -> Result<Mode, LineError>
    ensures { Gives result (mode_argument word.now) }
{
    if word == b"serial".as_slice() {
        return Ok(Mode::Serial);
    }
    if word == b"snapshot".as_slice() {
        return Ok(Mode::Snapshot);
    }
    Err(LineError::Cause(10))
}
