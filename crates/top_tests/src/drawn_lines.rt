// Drawn lines of clients whose transactions make calls on files of three names.
ghost use Rattle.std.specs.Prelude.{◌<◌};

use std::alloc::{AllocError, Global};
use std::fmt::Write;

/// How many clients there are.
pub const CLIENTS: usize = 3;

/// A call on files. A file is at the place of its name, below 3; the bytes that are written rise from the first one on.
#[derive(Clone, Copy)]
pub enum Call {
    New(u8),
    Write {
        place: u8,
        off: u16,
        len: u16,
        first: u8,
    },
    Read {
        place: u8,
        off: u16,
        len: u16,
    },
    Move {
        old: u8,
        new: u8,
    },
    Remove(u8),
}

/// What a line says.
#[derive(Clone, Copy)]
pub enum Act {
    Begin,
    Call(Call),
    End,
    Abort,
}

/// A line of a client, which is its number less one.
#[derive(Clone, Copy)]
pub struct Line {
    pub client: u8,
    pub act: Act,
}

/// Numbers that are drawn one after the other.
#[derive(Drop)]
struct Draws {
    state: u32,
}

impl Draws {
    /// The next number below a bound.
    fn below(&mut self, bound: u16) -> u16
        requires { 0 < bound }
        ensures { result < bound }
    {
        self.state = self.state.wrapping_mul(1664525).wrapping_add(1013904223);
        (self.state >> 16) as u16 % bound
    }

    /// The place of a name.
    fn place(&mut self) -> u8 {
        self.below(3) as u8
    }

    /// A place in a file, often one of its first.
    fn off(&mut self) -> u16 {
        match self.below(4) {
            0 => 0,
            1 => self.below(12),
            _ => self.below(300),
        }
    }

    /// A number of bytes, often a small one.
    fn len(&mut self) -> u16 {
        match self.below(12) {
            0 => 1 + self.below(400),
            _ => 1 + self.below(8),
        }
    }

    /// A call, seldom one that changes the names.
    fn call(&mut self) -> Call {
        match self.below(32) {
            0 | 1 => Call::New(self.place()),
            2 => Call::Remove(self.place()),
            3 => Call::Move {
                old: self.place(),
                new: self.place(),
            },
            4..=17 => Call::Write {
                place: self.place(),
                off: self.off(),
                len: self.len(),
                first: self.below(256) as u8,
            },
            _ => Call::Read {
                place: self.place(),
                off: self.off(),
                len: self.len(),
            },
        }
    }

    /// The next act of a client.
    fn act(&mut self, live: bool) -> Act {
        if !live {
            return Act::Begin;
        }
        match self.below(24) {
            0 => Act::Abort,
            1..=5 => Act::End,
            _ => Act::Call(self.call()),
        }
    }
}

/// Adds lines of client 1.
fn push_all(lines: &mut Vec<Line>, acts: &[Act]) -> Result<(), AllocError> {
    for act in acts {
        lines.push(Line {
            client: 0,
            act: *act,
        })?;
    }
    Ok(())
}

/// A transaction that makes a file of each name, and then `count` lines at most, each of the client whose turn is drawn.
pub fn drawn(alloc: Global, seed: u32, count: u32) -> Result<Vec<Line>, AllocError> {
    let mut draws = Draws { state: seed };
    let mut live = [false; CLIENTS];
    let mut lines = Vec::new(alloc);
    push_opening(&mut lines)?;
    for _ in 0..count {
        let client = draws.below(3) as u8;
        if let Some(here) = live.get_mut(client as usize) {
            let act = draws.act(*here);
            *here = !matches!(act, Act::End | Act::Abort);
            lines.push(Line { client, act })?;
        }
    }
    Ok(lines)
}

/// Adds a transaction that makes a file of each name.
fn push_opening(lines: &mut Vec<Line>) -> Result<(), AllocError> {
    push_all(lines, &[Act::Begin])?;
    for place in 0..3u8 {
        let bytes = Call::Write {
            place,
            off: 0,
            len: 400,
            first: 0,
        };
        push_all(lines, &[Act::Call(Call::New(place)), Act::Call(bytes)])?;
    }
    push_all(lines, &[Act::End])
}

/// A transaction that reads the files of all three names.
pub fn closing() -> [Line; 5] {
    let all_of = |place| Call::Read {
        place,
        off: 0,
        len: 1000,
    };
    let acts = [
        Act::Begin,
        Act::Call(all_of(0)),
        Act::Call(all_of(1)),
        Act::Call(all_of(2)),
        Act::End,
    ];
    acts.map(|act| Line { client: 0, act })
}

/// The byte at a place of the bytes that are written.
pub fn written(first: u8, at: usize) -> u8 {
    first.wrapping_add((at % 256) as u8)
}

/// Adds a call as a script has it.
fn push_call(script: &mut String, call: Call) -> Result<(), AllocError> {
    match call {
        Call::New(place) => write!(script, "fnew 0{place}"),
        Call::Write {
            place,
            off,
            len,
            first,
        } => {
            write!(script, "fwrite 0{place} {off} ")?;
            for at in 0..len as usize {
                write!(script, "{:02x}", written(first, at))?;
            }
            Ok(())
        }
        Call::Read { place, off, len } => write!(script, "fread 0{place} {off} {len}"),
        Call::Move { old, new } => write!(script, "fmove 0{old} 0{new}"),
        Call::Remove(place) => write!(script, "fdel 0{place}"),
    }
}

/// The script of these lines.
pub fn spelled(alloc: Global, lines: &[Line]) -> Result<String, AllocError> {
    let mut script = String::new(alloc);
    for line in lines {
        write!(script, "{} ", line.client.saturating_add(1))?;
        match line.act {
            Act::Begin => script.push_str("begin")?,
            Act::Call(call) => push_call(&mut script, call)?,
            Act::End => script.push_str("end")?,
            Act::Abort => script.push_str("abort")?,
        }
        script.push('\n')?;
    }
    Ok(script)
}
