// A sink over a writer of std.
ghost use Rattle.std.specs.{Prelude.{◌≡◌, ◌≤◌, false, true, length, IfOk, IsErr, OnErr, OnOk}, Io.KnownBytes.WriteAppends};
ghost use Rattle.counts.specs.Count.{HasCause, faults_after};
ghost use Rattle.iso_io.specs.{Sink.{Broke, refusals_after}, Standard.sink_state};

use crate::{Sink, SinkFault};
use counts::raise;
use std::io::Write;
use std::marker::Model;

/// A sink over a writer, such as standard output. As a sink it is opaque: the clauses of `Sink` say none of its bytes.
/// Each error is a fault. What a writer holds back is flushed where the sink hands on; once that has failed, each call
/// fails.
#[derive(Drop)]
pub struct StdSink<T> {
    writer: T,
    broken: bool,
    faults: u64,
    refused: u64,
}

impl<T> Model for StdSink<T> {
    ghost use Rattle.iso_io.specs.Standard.{StdSinkState};

    ghost Value = { StdSinkState T };

    ghost view = { λ s. record { writer = s.writer; is_broken = s.broken; faults = s.faults; refusals = s.refused } };
}

impl<T> StdSink<T> {
    /// A sink over this writer.
    pub fn new(writer: T) -> Self
        ensures { result ≡ record { writer = writer; is_broken = false; faults = 0; refusals = 0 } }
    {
        StdSink {
            writer,
            broken: false,
            faults: 0,
            refused: 0,
        }
    }
}

impl<T: Write> Sink for StdSink<T> {
    ghost state = { sink_state };

    fn put(&mut self, bytes: &[u8]) -> Result<usize, SinkFault>
        ensures count { IfOk result (λ n. n ≤ length bytes.now) }
        ensures refusals { self.new.refusals ≡ refusals_after self.old.refusals bytes.now result }
        ensures no_fewer { self.old.refusals ≤ self.new.refusals }
        ensures cause { HasCause self.old.faults self.new.faults result }
        ensures faults { self.new.faults ≡ faults_after self.old.faults result }

        // The writer took as many bytes as were said, where its bytes are known.
        ensures writer { WriteAppends (T.contents self.old.writer) (T.contents self.new.writer) result bytes.now }

        // After a failure to hand on nothing is taken.
        ensures broken { self.old.is_broken ≡ true → IsErr result }
        ensures whole { self.new.is_broken ≡ self.old.is_broken }
    {
        if self.broken {
            raise(&mut self.faults);
            return Err(SinkFault);
        }
        match self.writer.write(bytes) {
            Ok(taken) => {
                if taken == 0 && !bytes.is_empty() {
                    raise(&mut self.refused);
                }
                Ok(taken)
            }
            Err(_) => {
                raise(&mut self.faults);
                Err(SinkFault)
            }
        }
    }

    fn hand_on(&mut self) -> Result<(), SinkFault>
        ensures stands { OnOk result (sink_state self.new ≡ sink_state self.old) }
        ensures breaks { OnErr result (Broke (sink_state self.old) (sink_state self.new)) }
        ensures cause { HasCause self.old.faults self.new.faults result }

        // After a failure to hand on it fails each time.
        ensures broken { self.old.is_broken ≡ true → IsErr result }
    {
        if self.broken || self.writer.flush().is_err() {
            self.broken = true;
            raise(&mut self.faults);
            return Err(SinkFault);
        }
        Ok(())
    }
}
