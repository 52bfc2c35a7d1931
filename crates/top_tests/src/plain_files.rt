// A plain map from three names to the bytes of files.
use crate::drawn_lines::{Call, written};
use std::alloc::AllocError;
use std::fmt::Write;

/// More bytes than a drawn file has.
const ROOM: usize = 1000;

/// The bytes of a file, of which the first `size` are its own.
#[derive(Clone, Copy)]
struct Row {
    size: usize,
    bytes: [u8; ROOM],
}

impl Row {
    /// Writes bytes that rise from the first one on.
    fn put(&mut self, off: usize, len: usize, first: u8) {
        for (at, place) in self.bytes.iter_mut().skip(off).take(len).enumerate() {
            *place = written(first, at);
        }
        self.size = self.size.max(off.saturating_add(len));
    }

    /// Adds the reply to a read.
    fn push_read(&self, off: usize, len: usize, reply: &mut String) -> Result<(), AllocError> {
        if off > self.size {
            return reply.push_str("bad-range");
        }
        reply.push_str("ok ")?;
        if off == self.size {
            return reply.push_str("-");
        }
        for byte in self.bytes.iter().take(self.size).skip(off).take(len) {
            write!(reply, "{byte:02x}")?;
        }
        Ok(())
    }
}

/// The files of three names.
#[derive(Clone, Copy)]
pub struct Files {
    rows: [Option<Row>; 3],
}

impl Files {
    /// No file.
    pub fn none() -> Self {
        Files { rows: [None; 3] }
    }

    fn at(&self, place: u8) -> Option<Row> {
        match self.rows.get(place as usize) {
            Some(row) => *row,
            None => None,
        }
    }

    fn set(&mut self, place: u8, row: Option<Row>) {
        if let Some(old) = self.rows.get_mut(place as usize) {
            *old = row;
        }
    }

    /// Makes a call, and adds its reply, without the client; whether it has written.
    pub fn answer(&mut self, call: Call, reply: &mut String) -> Result<bool, AllocError> {
        let refused = match call {
            Call::New(place) => self.create(place),
            Call::Write {
                place,
                off,
                len,
                first,
            } => self.write(place, off as usize, len as usize, first),
            Call::Read { place, off, len } => {
                match self.at(place) {
                    Some(row) => row.push_read(off as usize, len as usize, reply)?,
                    None => reply.push_str("ok none")?,
                }
                return Ok(false);
            }
            Call::Move { old, new } => self.rename(old, new),
            Call::Remove(place) => self.remove(place),
        };
        reply.push_str(refused.unwrap_or("ok"))?;
        Ok(refused.is_none())
    }

    fn create(&mut self, place: u8) -> Option<&'static str> {
        if self.at(place).is_some() {
            return Some("exists");
        }
        let empty = Row {
            size: 0,
            bytes: [0; ROOM],
        };
        self.set(place, Some(empty));
        None
    }

    fn write(&mut self, place: u8, off: usize, len: usize, first: u8) -> Option<&'static str> {
        let Some(row) = self.at(place) else {
            return Some("ok none");
        };
        if off > row.size {
            return Some("bad-range");
        }
        let mut row = row;
        row.put(off, len, first);
        self.set(place, Some(row));
        None
    }

    fn rename(&mut self, old: u8, new: u8) -> Option<&'static str> {
        let Some(row) = self.at(old) else {
            return Some("ok none");
        };
        if self.at(new).is_some() {
            return Some("exists");
        }
        self.set(old, None);
        self.set(new, Some(row));
        None
    }

    fn remove(&mut self, place: u8) -> Option<&'static str> {
        if self.at(place).is_none() {
            return Some("ok none");
        }
        self.set(place, None);
        None
    }
}
