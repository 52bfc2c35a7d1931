// A sink that keeps its bytes in memory.
ghost use Rattle.std.specs.Prelude.{◌≡◌, ◌≤◌, ◌↔◌, ◌⊎◌, ◌^◌, ◌-◌, ◌||◌, [], false, true, is_err, min, length, take, IfOk, IsErr, OnErr, OnOk};
ghost use Rattle.counts.specs.Count.{FailsNext, HasCause, faults_after, one_more};
ghost use Rattle.iso_io.specs.{Sink.{Broke, Wrote, refusals_after}, Memory.sink_state};

use crate::{Sink, SinkFault};
use counts::{count_call, raise};
use std::alloc::Global;
use std::marker::Model;

/// A sink that keeps its bytes in memory, some of whose calls are to fail.
#[derive(Debug, Drop)]
pub struct MemSink {
    bytes: Vec<u8>,
    piece: usize,
    failing: Vec<u64>,
    calls: u64,
    faults: u64,
    starved: u64,
    refused: u64,
    handed: u64,
    breaking: u64,
    broken: bool,
}

impl Model for MemSink {
    ghost use Rattle.iso_io.specs.Memory.{MemSinkState};

    ghost Value = { MemSinkState };

    ghost view = { λ s. record {
      taken = s.bytes.items;
      piece = s.piece;
      failing = s.failing.items;
      calls = s.calls;
      faults = s.faults;
      starved = s.starved;
      refusals = s.refused;
      handed = s.handed;
      breaking = s.breaking;
      is_broken = s.broken;
    } };
}

impl MemSink {
    /// A sink with no bytes, whose calls with the numbers `failing`, from 1, fail.
    pub fn new(alloc: Global, failing: Vec<u64>) -> Self
        ensures { result ≡ record {
          taken = [];
          piece = 2 ^ 64 - 1;
          failing = failing.items;
          calls = 0;
          faults = 0;
          starved = 0;
          refusals = 0;
          handed = 0;
          breaking = 0;
          is_broken = false;
        } }
    {
        MemSink::in_pieces(alloc, failing, usize::MAX)
    }

    /// One that takes at most `piece` bytes at a call; with 0 it takes nothing.
    pub fn in_pieces(alloc: Global, failing: Vec<u64>, piece: usize) -> Self
        ensures { result ≡ record {
          taken = [];
          piece = piece;
          failing = failing.items;
          calls = 0;
          faults = 0;
          starved = 0;
          refusals = 0;
          handed = 0;
          breaking = 0;
          is_broken = false;
        } }
    {
        MemSink {
            bytes: Vec::new(alloc),
            piece,
            failing,
            calls: 0,
            faults: 0,
            starved: 0,
            refused: 0,
            handed: 0,
            breaking: 0,
            broken: false,
        }
    }

    /// Has it break where it is to hand on for the time with this number, from 1.
    pub fn break_at(&mut self, number: u64)
        ensures { self.new ≡ record self.old { breaking = number } }
    {
        self.breaking = number;
    }

    /// The bytes taken so far.
    pub fn bytes(&self) -> &[u8]
        ensures { result.now ≡ self.now.taken }
    {
        &self.bytes
    }

    /// How many calls found no memory, up to the last value of a u64.
    pub fn starved(&self) -> u64
        ensures { result ≡ self.now.starved }
    {
        self.starved
    }
}

impl Sink for MemSink {
    ghost state = { sink_state };

    fn put(&mut self, bytes: &[u8]) -> Result<usize, SinkFault>
        ensures count { IfOk result (λ n. n ≤ length bytes.now) }
        ensures bytes { IfOk result (λ n. Wrote (sink_state self.old) (sink_state self.new) (take n bytes.now)) }
        ensures refusals { self.new.refusals ≡ refusals_after self.old.refusals bytes.now result }
        ensures no_fewer { self.old.refusals ≤ self.new.refusals }
        ensures err { OnErr result (self.new.taken ≡ self.old.taken) }
        ensures whole { self.new.is_broken ≡ self.old.is_broken }
        ensures broken { self.old.is_broken ≡ true → IsErr result }
        ensures cause { HasCause self.old.faults self.new.faults result }

        // It fails where it is told to or is broken, and else only where it found no memory, which it counts.
        ensures named { FailsNext self.old.failing self.old.calls → IsErr result }
        ensures named_fed { FailsNext self.old.failing self.old.calls → self.new.starved ≡ self.old.starved }
        ensures fed { OnOk result (self.new.starved ≡ self.old.starved) }
        ensures starved { OnErr result ((FailsNext self.old.failing self.old.calls ⊎ (self.old.is_broken ≡ true)) ⊎ (self.new.starved ≡ one_more self.old.starved)) }
        ensures given { IfOk result (λ n. n ≡ min (length bytes.now) self.old.piece) }
        ensures after { self.new ≡ record self.old {
          taken = self.new.taken;
          refusals = self.new.refusals;
          starved = self.new.starved;
          calls = one_more self.old.calls;
          faults = faults_after self.old.faults result;
        } }
    {
        if count_call(&self.failing, &mut self.calls) || self.broken {
            raise(&mut self.faults);
            return Err(SinkFault);
        }
        let front = bytes.len().min(self.piece);
        if self.bytes.extend_from_slice(&bytes[..front]).is_err() {
            raise(&mut self.starved);
            raise(&mut self.faults);
            return Err(SinkFault);
        }
        if front == 0 && !bytes.is_empty() {
            raise(&mut self.refused);
        }
        Ok(front)
    }

    fn hand_on(&mut self) -> Result<(), SinkFault>
        ensures stands { OnOk result (sink_state self.new ≡ sink_state self.old) }
        ensures breaks { OnErr result (Broke (sink_state self.old) (sink_state self.new)) }
        ensures broken { self.old.is_broken ≡ true → IsErr result }
        ensures cause { HasCause self.old.faults self.new.faults result }

        // It holds nothing back, and fails exactly where it is told to and after that.
        ensures named { IsErr result ↔ ((one_more self.old.handed ≡ self.old.breaking) ⊎ (self.old.is_broken ≡ true)) }
        ensures after { self.new ≡ record self.old {
          handed = one_more self.old.handed;
          faults = faults_after self.old.faults result;
          is_broken = is_err result || self.old.is_broken;
        } }
    {
        raise(&mut self.handed);
        if self.handed == self.breaking || self.broken {
            self.broken = true;
            raise(&mut self.faults);
            return Err(SinkFault);
        }
        Ok(())
    }
}
