// The digest of the replies of a bench as they come.
ghost use Rattle.std.specs.Prelude.{◌≡◌, ◌≤◌, [], length, take, IfOk, OnErr};
ghost use Rattle.counts.specs.Count.{HasCause, faults_after};
ghost use Rattle.iso_io.specs.Sink.{Wrote, refusals_after};
ghost use Rattle.sha2.specs.Sha256.{sha256};
ghost use Rattle.bench_script.specs.Ends.{digested_state};

use crate::taken::{Piece, Taken};
use counts::raise;
use iso_io::{Sink, SinkFault};
use sha2::{Digest, Sha256};
use std::alloc::Global;
use std::marker::Model;

/// How many bytes wait before they are digested.
const MOST_WAITING: usize = 8192;

/// A sink that keeps the digest of all that it is given. It fails only for want of memory, or past 2^64 bytes.
#[derive(Drop)]
pub struct ReplyDigest {
    hasher: Sha256,
    waiting: Vec<u8>,
    size: u64,
    taken: Taken,
    faults: u64,
}

impl Model for ReplyDigest {
    ghost use Rattle.bench_script.specs.{Ends.DigestedState, Counts.IsFed};

    ghost Value = { DigestedState };

    ghost view = { λ s. record { text = s.taken.text; faults = s.faults } };

    ghost invariant = { λ s. IsFed s.hasher s.taken.text s.waiting.items s.size };
}

impl ReplyDigest {
    /// No bytes.
    pub fn new(alloc: Global) -> Self
        ensures { result ≡ record { text = []; faults = 0 } }
    {
        ReplyDigest {
            hasher: Sha256::new(),
            waiting: Vec::new(alloc),
            size: 0,
            taken: Taken::nothing(),
            faults: 0,
        }
    }

    /// Digests what waits.
    fn fold(&mut self)
        ensures { self.new ≡ self.old }
    {
        self.hasher.update(&*self.waiting);
        self.waiting.clear();
    }

    /// The digest of all bytes taken.
    pub fn finish(self) -> [u8; 32]
        ensures { result ≡ sha256 self.text }
    {
        let ReplyDigest {
            mut hasher,
            waiting,
            size: _,
            taken: _,
            faults: _,
        } = self;
        hasher.update(&*waiting);
        hasher.finalize()
    }
}

impl Sink for ReplyDigest {
    ghost state = { digested_state };

    fn put(&mut self, bytes: &[u8]) -> Result<usize, SinkFault>
        ensures count { IfOk result (λ n. n ≤ length bytes.now) }
        ensures bytes { IfOk result (λ n. Wrote (digested_state self.old) (digested_state self.new) (take n bytes.now)) }
        ensures refusals { 0 ≡ refusals_after 0 bytes.now result }
        ensures no_fewer { 0 ≤ 0 }
        ensures err { OnErr result (self.new.text ≡ self.old.text) }
        ensures cause { HasCause self.old.faults self.new.faults result }

        // It takes all of the piece, and each fault is counted.
        ensures all { IfOk result (λ n. n ≡ length bytes.now) }
        ensures faults { self.new.faults ≡ faults_after self.old.faults result }
    {
        let Some(size) = self.size.checked_add(bytes.len() as u64) else {
            raise(&mut self.faults);
            return Err(SinkFault);
        };
        if self.waiting.len() >= MOST_WAITING {
            self.fold();
        }
        if self.waiting.extend_from_slice(bytes).is_err() {
            raise(&mut self.faults);
            return Err(SinkFault);
        }
        self.taken = self.taken.with(&Piece { bytes });
        self.size = size;
        Ok(bytes.len())
    }

    fn hand_on(&mut self) -> Result<(), SinkFault> {
        Ok(())
    }
}
