// A source over a reader of std.
ghost use Rattle.std.specs.{Prelude.{◌≡◌, ◌≤◌, false, length, IfOk}, Io.KnownBytes.ReadConsumes};
ghost use Rattle.counts.specs.Count.{HasCause, faults_after};
ghost use Rattle.iso_io.specs.{Source.ended_after, Standard.source_state};

use crate::{Source, SourceFault};
use counts::raise;
use std::io::Read;
use std::marker::Model;

/// A source over a reader, such as standard input. As a source it is opaque: the clauses of `Source` say none of its
/// bytes. Each error is a fault.
#[derive(Drop)]
pub struct StdSource<T> {
    reader: T,
    faults: u64,
    ended: bool,
}

impl<T> Model for StdSource<T> {
    ghost use Rattle.iso_io.specs.Standard.{StdSourceState};

    ghost Value = { StdSourceState T };

    ghost view = { λ s. record { reader = s.reader; faults = s.faults; is_ended = s.ended } };
}

impl<T> StdSource<T> {
    /// A source over this reader.
    pub fn new(reader: T) -> Self
        ensures { result ≡ record { reader = reader; faults = 0; is_ended = false } }
    {
        StdSource {
            reader,
            faults: 0,
            ended: false,
        }
    }
}

impl<T: Read> Source for StdSource<T> {
    ghost state = { source_state };

    fn take(&mut self, into: &mut [u8]) -> Result<usize, SourceFault>
        ensures count { IfOk result (λ n. n ≤ length into.new) }
        ensures ended { self.new.is_ended ≡ ended_after self.old.is_ended into.new result }
        ensures cause { HasCause self.old.faults self.new.faults result }
        ensures faults { self.new.faults ≡ faults_after self.old.faults result }

        // The bytes are those that the reader had next, where its bytes are known.
        ensures reader { ReadConsumes (T.remaining self.old.reader) (T.remaining self.new.reader) result into.new }
    {
        match self.reader.read(into) {
            Ok(given) => {
                if !into.is_empty() {
                    self.ended = given == 0;
                }
                Ok(given)
            }
            Err(_) => {
                raise(&mut self.faults);
                Err(SourceFault)
            }
        }
    }
}
