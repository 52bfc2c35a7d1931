// Records that are spelled one after another, for one write.
ghost use Rattle.std.specs.Prelude.{◌≡◌, ◌+◌, ◌<◌, ◌≤◌, ◌^◌, ◌++◌, length, take, drop, OnOk, OnErr};
ghost use Rattle.iso_model.specs.Image.{part};
ghost use Rattle.iso_format.specs.Writing.{head};

use crate::log_record::HEAD;
use byteorder::{BigEndian, ByteOrder};
use iso_model::{LAST, Memory};
use std::alloc::Global;
use std::marker::Model;

/// Records in one slice, as a log is handed them: each has an open gate, and one closed gate follows the last. First the
/// parts of a record are pushed, then it is finished with its number and kind. Contracts see the bytes of the finished
/// records, and the parts of the one that is begun.
#[derive(Drop)]
pub struct RecordBuffer {
    bytes: Vec<u8>,
    // Where the record begins that is not finished. Its head is there already, as zeros: its gate is the closed one.
    start: usize,
    count: usize,
}

impl Model for RecordBuffer {
    ghost use Rattle.iso_format.specs.Spelled.{HoldsParts, Spelled, spelled};

    ghost Value = { Spelled };

    ghost view = { λ a. spelled a.start a.count a.bytes.items };

    ghost invariant = { λ a. HoldsParts a.start a.count a.bytes.items };
}

impl RecordBuffer {
    ghost use Rattle.std.specs.Prelude.{◌≡◌, ◌⊎◌, ◌<◌, ◌≤◌, ◌^◌, ◌++◌, [], ◌∷◌, length, IfOk, OnOk, OnErr};
    ghost use Rattle.iso_model.specs.Image.{spell};
    ghost use Rattle.iso_format.specs.Writing.{LieInAnImage};

    /// No records.
    ///
    /// # Errors
    ///
    /// Want of memory.
    pub fn new(alloc: Global) -> Result<Self, Memory>
        ensures { IfOk result (λ b. b ≡ record { records = []; parts = [] }) }
    {
        let mut bytes = Vec::new(alloc);
        bytes.extend_from_slice(&[0; HEAD])?;
        Ok(RecordBuffer {
            bytes,
            start: 0,
            count: 0,
        })
    }

    /// Drops the records and the parts, and keeps their memory.
    pub fn clear(&mut self)
        ensures { self.new ≡ record { records = []; parts = [] } }
    {
        self.bytes.truncate(HEAD);
        self.bytes[0] = 0;
        self.start = 0;
        self.count = 0;
    }

    /// Adds a part to the record that is begun.
    ///
    /// # Errors
    ///
    /// Want of memory. Nothing is added.
    pub fn push_part(&mut self, block: u32, off: u16, bytes: &[u8]) -> Result<(), Memory>
        requires { length bytes.now < 2 ^ 16 }
        ensures ok { OnOk result (self.new ≡ record self.old { parts = self.old.parts ++ record { block = block; off = off; bytes = bytes.now } ∷ [] }) }
        ensures err { OnErr result (self.new ≡ self.old) }
    {
        push_part(&mut self.bytes, block, off, bytes)?;
        self.count += 1;
        Ok(())
    }

    /// Finishes the record that is begun, as that of commit `number`.
    ///
    /// # Errors
    ///
    /// Want of memory. The record stays as it is.
    pub fn finish(&mut self, number: u64, kind: u8) -> Result<(), Memory>
        requires number { number ≤ LAST }
        requires kind { (kind ≡ 1) ⊎ (kind ≡ 2) }
        requires some { 0 < length self.old.parts }
        requires runs { LieInAnImage self.old.parts }
        ensures ok { OnOk result (self.new ≡ record { records = self.old.records ++ spell 1 kind number self.old.parts; parts = [] }) }
        ensures err { OnErr result (self.new ≡ self.old) }
    {
        let end = self.bytes.len();
        let length = end - self.start - HEAD;
        self.bytes.extend_from_slice(&[0; HEAD])?;
        let head = head(number, kind, self.count as u32, length as u32);
        put_head(&mut self.bytes, self.start, &head);
        self.start = end;
        self.count = 0;
        Ok(())
    }

    /// The finished records, and a closed gate after them.
    pub fn with_closed_gate(&self) -> &[u8]
        ensures { result.now ≡ self.now.records ++ 0 ∷ [] }
    {
        &self.bytes[..self.start + 1]
    }

    /// The finished records alone.
    pub fn into_records(self) -> Vec<u8>
        ensures { result.items ≡ self.records }
    {
        let mut bytes = self.bytes;
        bytes.truncate(self.start);
        bytes
    }
}

/// Adds the bytes of a part. Without memory nothing is added.
fn push_part(into: &mut Vec<u8>, block: u32, off: u16, bytes: &[u8]) -> Result<(), Memory>
    requires { length bytes.now < 2 ^ 16 }
    ensures ok { OnOk result (into.new.items ≡ into.old.items ++ part (record { block = block; off = off; bytes = bytes.now })) }
    ensures err { OnErr result (into.new.items ≡ into.old.items) }
{
    let len = into.len();
    let mut head = [0; 8];
    BigEndian::write_u32(&mut head, block);
    BigEndian::write_u16(&mut head[4..], off);
    BigEndian::write_u16(&mut head[6..], bytes.len() as u16);
    into.extend_from_slice(&head)?;
    if into.extend_from_slice(bytes).is_err() {
        into.truncate(len);
        return Err(Memory);
    }
    Ok(())
}

fn head(number: u64, kind: u8, count: u32, length: u32) -> [u8; HEAD]
    ensures { result ≡ head 1 kind number count length }
{
    let mut bytes = [0; HEAD];
    bytes[0] = 1;
    bytes[1] = kind;
    BigEndian::write_u32(&mut bytes[4..], count);
    BigEndian::write_u32(&mut bytes[8..], length);
    BigEndian::write_u64(&mut bytes[12..], number);
    bytes
}

fn put_head(bytes: &mut Vec<u8>, at: usize, head: &[u8; HEAD])
    requires { at + 20 ≤ length bytes.old.items }
    ensures { bytes.new.items ≡ take at bytes.old.items ++ head.now ++ drop (at + 20) bytes.old.items }
{
    bytes[at..at + HEAD].copy_from_slice(head);
}
