// The printed spelling of a line.
ghost use Rattle.std.specs.Prelude.{◌≡◌, ◌≤◌, ◌∷◌, ◌++◌, IfOk, Ok, OnOk, flat_map, length};
ghost use Rattle.iso_model.specs.declared.limits.TheConstants.{MAX_LINE};
ghost use Rattle.script_model.specs.{declared.script.Parsed.TheVariants.{Line as Says}, Script.parse};
ghost use Rattle.script_text.specs.{Said.{behind_text, word_text}, Spelling.{arguments_of, line_text, name_of, spaced, IsLine}};

use crate::push::{push_bytes, push_dashed, push_hex, push_number};
use crate::said::{Behind, Word, said};
use iso_model::{Label, Memory};
use script_model::{Line, Op};
use std::alloc::Global;

/// The line in words with one space between them, numbers in decimal and bytes in hexadecimal in lower case, without a
/// line feed. A line that can be said and is not too long is read from that as it is.
///
/// # Errors
///
/// Want of memory.
#[tactic(auto, unfolding(crate::specs::Spelling::line_text))]
pub fn print_line(alloc: Global, line: &Line) -> Result<Vec<u8>, Memory>
    ensures text { IfOk result (λ v. v.items ≡ line_text line.now) }
    ensures read { IfOk result (λ v. IsLine line.now → length v.items ≤ MAX_LINE → parse v.items ≡ Ok (Says line.now)) }
{
    let mut text = Vec::new(alloc);
    push_number(&mut text, u64::from(line.client))?;
    push_bytes(&mut text, b" ")?;
    push_operation(&mut text, &line.op)?;
    Ok(text)
}

/// Adds an operation with its arguments.
fn push_operation(out: &mut Vec<u8>, op: &Op) -> Result<(), Memory>
    ensures { OnOk result (out.new.items ≡ out.old.items ++ spaced (name_of op.now ∷ arguments_of op.now)) }
{
    let (name, behind) = said(op);
    push_bytes(out, name)?;
    push_behind(out, &behind)
}

/// Adds the words after the name of an operation, each after a space.
fn push_behind(out: &mut Vec<u8>, behind: &Behind) -> Result<(), Memory>
    ensures { OnOk result (out.new.items ≡ out.old.items ++ behind_text behind.now) }
{
    match behind {
        Behind::Nothing => Ok(()),
        Behind::One(word) => push_word(out, word),
        Behind::Two(word, next) => push_two(out, word, next),
        Behind::Three(word, next, last) => {
            push_two(out, word, next)?;
            push_word(out, last)
        }
        Behind::Labels(labels) => push_labels(out, labels.as_slice()),
    }
}

/// Adds two words, each after a space.
fn push_two(out: &mut Vec<u8>, word: &Word, next: &Word) -> Result<(), Memory>
    ensures { OnOk result (out.new.items ≡ out.old.items ++ word_text word.now ++ word_text next.now) }
{
    push_word(out, word)?;
    push_word(out, next)
}

/// Adds a word after a space.
fn push_word(out: &mut Vec<u8>, word: &Word) -> Result<(), Memory>
    ensures { OnOk result (out.new.items ≡ out.old.items ++ word_text word.now) }
{
    match word {
        Word::Number(number) => {
            push_bytes(out, b" ")?;
            push_number(out, u64::from(*number))
        }
        Word::Hex(bytes) => {
            push_bytes(out, b" ")?;
            push_hex(out, bytes.as_slice())
        }
        Word::Dashed(bytes) => push_dashed(out, b" ", bytes.as_slice()),
        Word::Label(label) => push_both(out, b" ", label.text()),
    }
}

/// Adds the labels, each after a space.
fn push_labels(out: &mut Vec<u8>, labels: &[Label]) -> Result<(), Memory>
    ensures { OnOk result (out.new.items ≡ out.old.items ++ flat_map (λ label. 32 ∷ label) labels.now) }
{
    for label in labels {
        push_both(out, b" ", label.text())?;
    }
    Ok(())
}

/// Adds two texts.
fn push_both(out: &mut Vec<u8>, text: &[u8], next: &[u8]) -> Result<(), Memory>
    ensures { OnOk result (out.new.items ≡ out.old.items ++ text.now ++ next.now) }
{
    push_bytes(out, text)?;
    push_bytes(out, next)
}
