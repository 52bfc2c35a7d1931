// Files of cases, line by line.
use crate::call::{Call, change_all, each_damage, each_row, on_each_crash, once};
use crate::disks::{Outcome, Side, Sides};
use crate::moments::{Each, each_of};
use crate::script::{Row, Script, sides_of};
use crate::stops::Again;
use crate::telling::Telling;
use crate::text::{Names, Short, Trouble, bytes_of, push_text, size_of, two, two_numbers};
use crate::words::{Word, word_of};
use std::alloc::Global;
use std::sync::Wait;
use std::thread::Threads;
use top_calls::part;

/// What is made of a call and its rows.
#[derive(Clone, Copy)]
enum Way {
    Once,
    AtEach(Each),
    InEachCrash,
    ForEachRow,
    Refused,
}

/// An image under a name.
#[derive(Drop)]
struct Kept {
    name: String,
    image: Vec<u8>,
}

#[derive(Drop)]
pub(crate) struct Book {
    alloc: Global,
    pub(crate) telling: Telling,
    shorts: Vec<Short>,
    images: Vec<Kept>,
    /// The images that the next call is given.
    sides: Sides,
    /// What the last call gave.
    last: Outcome,
    way: Way,
    call: Call,
    is_due: bool,
    /// Rows that were read, and the numbers of the rounds in which they are laid.
    rows: Vec<Row>,
    rounds: (u64, u64),
}

/// The image under a name.
fn kept_under<'a>(images: &'a [Kept], name: &str) -> Option<&'a [u8]> {
    for kept in images {
        if kept.name.as_str() == name {
            return Some(kept.image.as_slice());
        }
    }
    None
}

/// A copy of it.
fn image_of(alloc: Global, images: &[Kept], name: &str) -> Result<Vec<u8>, Trouble> {
    match kept_under(images, name) {
        Some(image) => Ok(image.to_vec(alloc)?),
        None => Err(Trouble::Said("no image is kept under this name")),
    }
}

/// Which side a line is of: the second one where it begins so. And the rest of it.
fn side_of(line: &str) -> (Side, &str) {
    match line.strip_prefix("second ") {
        Some(rest) => (Side::Second, rest),
        None => (Side::First, line),
    }
}

impl Book {
    pub(crate) fn new(alloc: Global) -> Self {
        Book {
            alloc,
            telling: Telling::new(alloc),
            shorts: Vec::new(alloc),
            images: Vec::new(alloc),
            sides: Sides::none(alloc),
            last: Outcome::none(alloc),
            way: Way::Once,
            call: Call::new(alloc),
            is_due: false,
            rows: Vec::new(alloc),
            rounds: (0, 0),
        }
    }

    /// A line of a file, which has this number.
    pub(crate) fn read<R: Threads + Wait + Sync>(
        &mut self,
        rt: &R,
        number: usize,
        line: &str,
    ) -> Result<(), Trouble> {
        if let Some(row) = line.strip_prefix("  ") {
            return self.add_row(number, row);
        }
        if line.is_empty() || line.starts_with('#') {
            return Ok(());
        }
        if let Some(short) = line.strip_prefix("let ") {
            return self.shorten(short);
        }
        let line = self.spelled(line)?;
        self.read_spelled(rt, number, line.as_str())
    }

    /// The same of a line whose braces are spelled out.
    fn read_spelled<R: Threads + Wait + Sync>(
        &mut self,
        rt: &R,
        number: usize,
        line: &str,
    ) -> Result<(), Trouble> {
        let (side, line) = side_of(line);
        let (name, rest) = line.split_once(' ').unwrap_or((line, ""));
        let Some(word) = word_of(name) else {
            self.settle(rt)?;
            return Err(Trouble::Said("no line of a case begins so"));
        };
        if self.goes_on(side, word, rest)? {
            return self.stands_by_a_call();
        }
        self.settle(rt)?;
        if self.begins(number, line, word, rest)? || self.is_of_image(number, side, word, rest)? {
            return Ok(());
        }
        Err(Trouble::Said("no line of a case begins so"))
    }

    /// A row, or a line that says more of a call, has a call above it: else nothing would ask for it.
    fn stands_by_a_call(&self) -> Result<(), Trouble> {
        if self.is_due {
            return Ok(());
        }
        Err(Trouble::Said("no call stands above this line"))
    }

    fn add_row(&mut self, line: usize, row: &str) -> Result<(), Trouble> {
        self.stands_by_a_call()?;
        if sides_of(row).1.is_some() {
            self.telling.count_reply();
        }
        let text = String::from_str(self.alloc, row)?;
        self.rows.push(Row { line, text })?;
        Ok(())
    }

    /// A line with the texts of its braces.
    fn spelled(&self, line: &str) -> Result<String, Trouble> {
        let mut bytes = Vec::new(self.alloc);
        let names = Names {
            shorts: &self.shorts,
            round: 0,
        };
        push_text(self.alloc, &mut bytes, names, line)?;
        Ok(String::from_utf8_lossy(self.alloc, &bytes)?)
    }

    /// Gives a text a name.
    fn shorten(&mut self, rest: &str) -> Result<(), Trouble> {
        let (name, text) = two(rest)?;
        let name = String::from_str(self.alloc, name)?;
        let text = String::from_str(self.alloc, text)?;
        self.shorts.push(Short { name, text })?;
        Ok(())
    }

    /// Whether a line says more of the call above it, or is one after which other rows begin.
    fn goes_on(&mut self, side: Side, word: Word, rest: &str) -> Result<bool, Trouble> {
        match word {
            Word::In if rest == "each crash" => self.way = Way::InEachCrash,
            Word::For if rest == "each row" => self.way = Way::ForEachRow,
            Word::At => match rest.strip_prefix("each ") {
                Some(each) => self.way = Way::AtEach(each_of(each)?),
                None => return Ok(false),
            },
            Word::For | Word::Step | Word::Reached | Word::Or | Word::Shows | Word::Then => {
                self.lay_rows()?;
                return self.begins_rows(word, rest);
            }
            _ => return self.call.goes_on(side, word, rest),
        }
        Ok(true)
    }

    /// Whether a line is one after which other rows begin.
    fn begins_rows(&mut self, word: Word, rest: &str) -> Result<bool, Trouble> {
        if let Word::For = word {
            self.rounds = two_numbers(rest)?;
            return Ok(true);
        }
        self.call.begins_rows(self.alloc, word, rest)
    }

    /// Whether a line begins a call, a case or a name.
    fn begins(
        &mut self,
        number: usize,
        line: &str,
        word: Word,
        rest: &str,
    ) -> Result<bool, Trouble> {
        match word {
            Word::Isotope => self.call.begin(self.alloc, line)?,
            Word::Words => self.way = Way::ForEachRow,
            Word::Refused => self.way = Way::Refused,
            Word::Case => {
                self.begin_case(number, rest)?;
                return Ok(true);
            }
            _ => return Ok(false),
        }
        self.is_due = true;
        self.call.line = number;
        Ok(true)
    }

    /// Begins a case, which has no image yet.
    fn begin_case(&mut self, number: usize, name: &str) -> Result<(), Trouble> {
        let name = String::from_str(self.alloc, name)?;
        self.telling.begin_case(number, name);
        self.sides = Sides::none(self.alloc);
        self.last = Outcome::none(self.alloc);
        Ok(())
    }

    /// Whether a line makes an image, changes the one that is there, gives it a name, or asks for its bytes.
    fn is_of_image(
        &mut self,
        number: usize,
        side: Side,
        word: Word,
        rest: &str,
    ) -> Result<bool, Trouble> {
        match word {
            Word::Keep => self.keep(side, rest)?,
            Word::Left => self.is_left(number, side, rest)?,
            _ => return self.changes(side, word, rest),
        }
        Ok(true)
    }

    /// Whether a line makes an image, or changes the one that is there.
    fn changes(&mut self, side: Side, word: Word, rest: &str) -> Result<bool, Trouble> {
        let alloc = self.alloc;
        let image = self.sides.of_mut(side);
        match word {
            Word::Zeros => *image = vec![in alloc; 0; size_of(rest)?]?,
            Word::Cut => image.truncate(size_of(rest)?),
            Word::Put => change_all(alloc, image, rest)?,
            Word::Add => image.extend_from_slice(&bytes_of(alloc, rest)?)?,
            Word::On => *image = image_of(alloc, &self.images, rest)?,
            _ => return Ok(false),
        }
        Ok(true)
    }

    /// Keeps the image of a side under a name.
    fn keep(&mut self, side: Side, name: &str) -> Result<(), Trouble> {
        if kept_under(&self.images, name).is_some() {
            return Err(Trouble::Said("an image is kept under this name already"));
        }
        let image = self.sides.of(side).to_vec(self.alloc)?;
        let name = String::from_str(self.alloc, name)?;
        self.images.push(Kept { name, image })?;
        Ok(())
    }

    /// Whether an image has these bytes at a place.
    fn has_bytes(&self, image: &[u8], place: &str) -> Result<bool, Trouble> {
        let (at, bytes) = two(place)?;
        let bytes = bytes_of(self.alloc, bytes)?;
        Ok(part(image, size_of(at)?, bytes.len()) == bytes.as_slice())
    }

    /// Whether the image that is left has this size, is this other one, or has these bytes.
    fn has_left(&self, side: Side, word: &str, more: &str) -> Result<bool, Trouble> {
        let image = self.sides.of(side);
        match word {
            "size" => Ok(image.len() == size_of(more)?),
            "at" => self.has_bytes(image, more),
            "as" => {
                let wanted = image_of(self.alloc, &self.images, more)?;
                Ok(self.last.leaves(side, &wanted))
            }
            _ => Err(Trouble::Said("an image has a size, is as another, or has bytes at a place")),
        }
    }

    /// Asks for the size of the image that is left, for bytes of it, or for all of it.
    fn is_left(&mut self, number: usize, side: Side, rest: &str) -> Result<(), Trouble> {
        let (word, more) = two(rest)?;
        if self.has_left(side, word, more)? {
            return Ok(());
        }
        self.telling
            .tell(number, "the image that is left is not so")
    }

    /// Lays the rows that were read into the script to which they belong.
    fn lay_rows(&mut self) -> Result<(), Trouble> {
        let (first, last) = self.rounds;
        for round in first..last.saturating_add(1) {
            let names = Names {
                shorts: &self.shorts,
                round,
            };
            for row in &self.rows {
                self.call.script_below().add(self.alloc, names, row)?;
            }
        }
        self.rows.clear();
        self.rounds = (0, 0);
        Ok(())
    }

    /// Makes the call that was read, if one is due.
    pub(crate) fn settle<R: Threads + Wait + Sync>(&mut self, rt: &R) -> Result<(), Trouble> {
        if !matches!(self.way, Way::ForEachRow | Way::Refused) {
            self.lay_rows()?;
        }
        if self.is_due {
            self.telling.count_call();
            self.make(rt)?;
        }
        self.is_due = false;
        self.way = Way::Once;
        self.call = Call::new(self.alloc);
        self.rows.clear();
        Ok(())
    }

    fn make<R: Threads + Wait + Sync>(&mut self, rt: &R) -> Result<(), Trouble> {
        let alloc = self.alloc;
        let call = &self.call;
        let telling = &mut self.telling;
        let images = self.sides.lent();
        let names = Names {
            shorts: &self.shorts,
            round: 0,
        };
        match self.way {
            Way::Once => {
                self.last = once(rt, alloc, telling, call, images)?;
                self.sides = self.last.synced(alloc)?;
                Ok(())
            }
            Way::InEachCrash => on_each_crash(rt, alloc, telling, call, &self.last),
            Way::AtEach(each) => Again {
                alloc,
                call,
                images,
            }
            .at_each(rt, telling, each),
            Way::ForEachRow => each_row(rt, alloc, telling, call, images, names, &self.rows),
            Way::Refused => each_damage(rt, alloc, telling, images.first, names, &self.rows),
        }
    }
}
