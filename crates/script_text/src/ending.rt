// A text that grows at its front, in place: the last part of a line is put first.
ghost use Rattle.std.specs.Prelude.{◌≡◌, ◌+◌, ◌-◌, ◌*◌, ◌≤◌, ◌++◌, decimal, length};
ghost use Rattle.script_text.specs.Ending.{no_text};
ghost use Rattle.script_model.specs.Text.{hex_text};

use crate::push::write_hex;
use itoa::write_digits;
use std::marker::Model;

/// The bytes that a text may have.
pub(crate) const MOST_BYTES: usize = 192;

/// A text of few bytes. Contracts see it, and how many more bytes fit before it.
#[derive(Debug, Drop)]
pub(crate) struct Ending {
    bytes: [u8; MOST_BYTES],
    start: usize,
}

impl Model for Ending {
    ghost use Rattle.std.specs.Prelude.{◌≤◌, drop};
    ghost use Rattle.script_text.specs.{Ending.WithFront, declared.ending.TheConstants.MOST_BYTES};

    ghost Value = { WithFront };

    ghost view = { λ a. record { text = drop a.start a.bytes; room = a.start } };

    ghost invariant = { λ a. a.start ≤ MOST_BYTES };
}

impl Ending {
    /// No text.
    pub(crate) fn new() -> Self
        ensures { result ≡ no_text }
    {
        Ending {
            bytes: [0; MOST_BYTES],
            start: MOST_BYTES,
        }
    }

    /// Drops the text.
    pub(crate) fn clear(&mut self)
        ensures { self.new ≡ no_text }
    {
        self.start = MOST_BYTES;
    }

    /// Puts bytes before the text.
    #[inline(always)]
    pub(crate) fn put(&mut self, text: &[u8])
        requires { length text.now ≤ self.old.room }
        ensures text { self.new.text ≡ text.now ++ self.old.text }
        ensures room { self.new.room ≡ self.old.room - length text.now }
    {
        let start = self.start - text.len();
        self.bytes[start..self.start].copy_from_slice(text);
        self.start = start;
    }

    /// Puts a number in decimal before the text.
    #[inline(always)]
    pub(crate) fn put_number(&mut self, number: u64)
        requires { 20 ≤ self.old.room }
        ensures text { self.new.text ≡ decimal number ++ self.old.text }
        ensures room { self.new.room ≡ self.old.room - length (decimal number) }
        ensures most { self.old.room ≤ self.new.room + 20 }
    {
        self.start = write_digits(number, &mut self.bytes, self.start);
    }

    /// Puts bytes in hexadecimal before the text.
    pub(crate) fn put_hex(&mut self, bytes: &[u8])
        requires { 2 * length bytes.now ≤ self.old.room }
        ensures text { self.new.text ≡ hex_text bytes.now ++ self.old.text }
        ensures room { self.new.room ≡ self.old.room - 2 * length bytes.now }
    {
        let start = self.start - 2 * bytes.len();
        write_hex(bytes, &mut self.bytes[start..self.start]);
        self.start = start;
    }

    /// The text.
    pub(crate) fn as_slice(&self) -> &[u8]
        ensures { result.now ≡ self.now.text }
    {
        &self.bytes[self.start..]
    }
}
