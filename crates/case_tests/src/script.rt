// A script with its replies, as the rows of a case spell them.
use crate::text::{Names, Trouble, number_of, push_text};
use std::alloc::Global;

/// A row, and the line of the file where it is.
#[derive(Drop)]
pub(crate) struct Row {
    pub(crate) line: usize,
    pub(crate) text: String,
}

/// A line of replies: where it is in the file, and how many calls of the disk are made before it is told.
#[derive(Clone, Copy)]
pub(crate) struct Place {
    pub(crate) line: usize,
    pub(crate) calls: u64,
}

/// Replies.
#[derive(Drop)]
pub(crate) struct Told {
    pub(crate) text: Vec<u8>,
    pub(crate) places: Vec<Place>,
}

/// Where a step ends.
#[derive(Drop)]
pub(crate) enum Step {
    /// After this number of bytes of the replies.
    Behind(usize),
    /// Where this line is told.
    Line(Vec<u8>),
    /// Its bytes are written after `written` calls of the disk, and stable after `stable`.
    Calls { written: u64, stable: u64 },
}

#[derive(Drop)]
pub(crate) struct Script {
    pub(crate) input: Vec<u8>,
    pub(crate) told: Told,
    /// Other ways in which it may be answered.
    pub(crate) others: Vec<Told>,
    pub(crate) steps: Vec<Step>,
    /// How many calls of the disk are made before the next rows are told.
    pub(crate) reached: Option<u64>,
}

/// Adds a text and a line feed, which is left out where the text ends in \c.
fn push_line(
    alloc: Global,
    out: &mut Vec<u8>,
    names: Names<'_>,
    text: &str,
) -> Result<(), Trouble> {
    if let Some(front) = text.strip_suffix("\\c") {
        return push_text(alloc, out, names, front);
    }
    push_text(alloc, out, names, text)?;
    out.push(b'\n')?;
    Ok(())
}

/// What a row has on the two sides of its arrow.
pub(crate) fn sides_of(text: &str) -> (Option<&str>, Option<&str>) {
    if let Some(reply) = text.strip_prefix("-> ") {
        return (None, Some(reply));
    }
    match text.split_once(" -> ") {
        Some((line, reply)) => (Some(line), Some(reply)),
        None => (Some(text), None),
    }
}

/// The two numbers of a text.
fn numbers_of(text: &str) -> Option<(u64, u64)> {
    let (one, two) = text.split_once(' ')?;
    match (number_of(one), number_of(two)) {
        (Ok(one), Ok(two)) => Some((one, two)),
        _ => None,
    }
}

impl Told {
    pub(crate) fn new(alloc: Global) -> Self {
        Told {
            text: Vec::new(alloc),
            places: Vec::new(alloc),
        }
    }

    /// Adds a text of that line.
    pub(crate) fn push(&mut self, text: &[u8], place: Place) -> Result<(), Trouble> {
        for byte in text {
            if *byte == b'\n' {
                self.places.push(place)?;
            }
        }
        self.text.extend_from_slice(text)?;
        Ok(())
    }
}

impl Script {
    pub(crate) fn new(alloc: Global) -> Self {
        Script {
            input: Vec::new(alloc),
            told: Told::new(alloc),
            others: Vec::new(alloc),
            steps: Vec::new(alloc),
            reached: None,
        }
    }

    /// Adds a row: a line, an arrow and the reply to it, or one of the two alone.
    pub(crate) fn add(
        &mut self,
        alloc: Global,
        names: Names<'_>,
        row: &Row,
    ) -> Result<(), Trouble> {
        let (line, reply) = sides_of(row.text.as_str());
        if let Some(line) = line {
            push_line(alloc, &mut self.input, names, line)?;
        }
        match reply {
            Some(reply) => self.expect(alloc, names, row.line, reply),
            None => Ok(()),
        }
    }

    /// Adds a reply of this line.
    fn expect(
        &mut self,
        alloc: Global,
        names: Names<'_>,
        line: usize,
        reply: &str,
    ) -> Result<(), Trouble> {
        let mut text = Vec::new(alloc);
        push_line(alloc, &mut text, names, reply)?;
        let place = Place {
            line,
            calls: self.reached.unwrap_or(0),
        };
        match self.others.last_mut() {
            Some(other) => other.push(&text, place),
            None => self.told.push(&text, place),
        }
    }

    /// Begins another way in which it may be answered.
    pub(crate) fn begin_other(&mut self, alloc: Global) -> Result<(), Trouble> {
        self.others.push(Told::new(alloc))?;
        Ok(())
    }

    /// Says that a step ends here, where a line is told, or after some calls of the disk.
    pub(crate) fn end_step(&mut self, alloc: Global, rest: &str) -> Result<(), Trouble> {
        let step = if rest.is_empty() {
            Step::Behind(self.told.text.len())
        } else if let Some((written, stable)) = numbers_of(rest) {
            Step::Calls { written, stable }
        } else {
            Step::Line(rest.as_bytes().to_vec(alloc)?)
        };
        self.steps.push(step)?;
        Ok(())
    }

    /// Says that the next rows are told once this number of calls of the disk was made.
    pub(crate) fn reach(&mut self, calls: &str) -> Result<(), Trouble> {
        self.reached = Some(number_of(calls)?);
        Ok(())
    }

    /// Whether this is one of the ways in which it may be answered.
    pub(crate) fn is_answered(&self, found: &[u8]) -> bool {
        let mut is_right = found == self.told.text.as_slice();
        for other in &self.others {
            is_right = is_right || found == other.text.as_slice();
        }
        is_right
    }

    /// What is told where the disk stops after `calls` calls.
    pub(crate) fn told_behind(&self, alloc: Global, calls: u64) -> Result<Told, Trouble> {
        let mut told = Told::new(alloc);
        let lines = self.told.text.split_inclusive(|b| *b == b'\n');
        for (line, place) in lines.zip(&self.told.places) {
            if place.calls <= calls {
                told.push(line, *place)?;
            }
        }
        Ok(told)
    }
}
