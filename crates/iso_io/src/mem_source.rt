// A source over bytes in memory.
ghost use Rattle.std.specs.Prelude.{◌≡◌, ◌≤◌, ◌<◌, ◌↔◌, ◌^◌, ◌-◌, false, min, length, take, IfOk, IsErr, OnErr};
ghost use Rattle.counts.specs.Count.{FailsNext, HasCause, faults_after, one_more};
ghost use Rattle.iso_io.specs.{Source.{GivesUpToEnd, Took, ended_after}, Memory.source_state};

use crate::{Source, SourceFault};
use counts::{count_call, raise};
use std::marker::Model;

/// A source over bytes in memory, some of whose calls are to fail.
#[derive(Debug, Drop)]
pub struct MemSource {
    bytes: Vec<u8>,
    at: usize,
    piece: usize,
    failing: Vec<u64>,
    calls: u64,
    faults: u64,
    ended: bool,
}

impl Model for MemSource {
    ghost use Rattle.std.specs.Prelude.{◌≤◌, ◌<◌, drop, vec_len};
    ghost use Rattle.iso_io.specs.Memory.{MemSourceState};

    ghost Value = { MemSourceState };

    ghost view = { λ s. record {
      left = drop s.at s.bytes.items;
      piece = s.piece;
      failing = s.failing.items;
      calls = s.calls;
      faults = s.faults;
      is_ended = s.ended;
    } };

    ghost invariant = { λ s. (s.at ≤ vec_len s.bytes) × (0 < s.piece) };
}

impl MemSource {
    /// A source over these bytes, whose calls with the numbers `failing`, from 1, fail.
    pub fn new(bytes: Vec<u8>, failing: Vec<u64>) -> Self
        ensures { result ≡ record {
          left = bytes.items;
          piece = 2 ^ 64 - 1;
          failing = failing.items;
          calls = 0;
          faults = 0;
          is_ended = false;
        } }
    {
        MemSource::in_pieces(bytes, failing, usize::MAX)
    }

    /// One that gives at most `piece` bytes at a call.
    pub fn in_pieces(bytes: Vec<u8>, failing: Vec<u64>, piece: usize) -> Self
        requires { 0 < piece }
        ensures { result ≡ record {
          left = bytes.items;
          piece = piece;
          failing = failing.items;
          calls = 0;
          faults = 0;
          is_ended = false;
        } }
    {
        MemSource {
            bytes,
            at: 0,
            piece,
            failing,
            calls: 0,
            faults: 0,
            ended: false,
        }
    }
}

impl Source for MemSource {
    ghost state = { source_state };

    fn take(&mut self, into: &mut [u8]) -> Result<usize, SourceFault>
        ensures count { IfOk result (λ n. n ≤ length into.new) }
        ensures bytes { IfOk result (λ n. Took (source_state self.old) (source_state self.new) (take n into.new)) }
        ensures end { IfOk result (λ n. 0 < length into.new → GivesUpToEnd (source_state self.old) n) }
        ensures ended { self.new.is_ended ≡ ended_after self.old.is_ended into.new result }
        ensures err { OnErr result (self.new.left ≡ self.old.left) }
        ensures cause { HasCause self.old.faults self.new.faults result }

        // It fails exactly where it is told to, and gives what there is room for.
        ensures named { IsErr result ↔ FailsNext self.old.failing self.old.calls }
        ensures given { IfOk result (λ n. n ≡ min (min (length self.old.left) (length into.new)) self.old.piece) }
        ensures after { self.new ≡ record self.old {
          left = self.new.left;
          is_ended = self.new.is_ended;
          calls = one_more self.old.calls;
          faults = faults_after self.old.faults result;
        } }
    {
        if count_call(&self.failing, &mut self.calls) {
            raise(&mut self.faults);
            return Err(SourceFault);
        }
        let given = give(&self.bytes[self.at..], self.piece, into);
        self.at += given;
        if !into.is_empty() {
            self.ended = given == 0;
        }
        Ok(given)
    }
}

// Copies from the front, as much as there is room for and at most a piece, and says how much.
fn give(left: &[u8], piece: usize, into: &mut [u8]) -> usize
    ensures count { result ≡ min (min (length left.now) (length into.new)) piece }
    ensures bytes { take result into.new ≡ take result left.now }
{
    let given = left.len().min(into.len()).min(piece);
    into[..given].copy_from_slice(&left[..given]);
    given
}
