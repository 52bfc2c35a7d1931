// What is told of cases that fail: the file and the line, what was wanted and what was found.
use crate::script::{Script, Told};
use crate::text::Trouble;
use std::alloc::Global;
use std::fmt::Write;

/// How much files have: cases, calls, each of which may be made again and again, and rows that have a reply.
#[derive(Clone, Copy)]
pub(crate) struct Sums {
    pub(crate) cases: u64,
    pub(crate) calls: u64,
    pub(crate) replies: u64,
}

impl Sums {
    pub(crate) fn none() -> Self {
        Sums {
            cases: 0,
            calls: 0,
            replies: 0,
        }
    }

    /// These and others.
    pub(crate) fn and(self, other: Sums) -> Self {
        Sums {
            cases: self.cases.saturating_add(other.cases),
            calls: self.calls.saturating_add(other.calls),
            replies: self.replies.saturating_add(other.replies),
        }
    }

    /// A case more.
    pub(crate) fn count_case(&mut self) {
        self.cases = self.cases.saturating_add(1);
    }

    /// A call more.
    pub(crate) fn count_call(&mut self) {
        self.calls = self.calls.saturating_add(1);
    }

    /// A row with a reply more.
    pub(crate) fn count_reply(&mut self) {
        self.replies = self.replies.saturating_add(1);
    }
}

#[derive(Drop)]
pub(crate) struct Telling {
    pub(crate) file: String,
    /// The case, and the line of the file where it begins.
    pub(crate) name: String,
    pub(crate) line: usize,
    /// All that is told.
    pub(crate) text: String,
    /// What the file has so far.
    pub(crate) sums: Sums,
    pub(crate) failed: u64,
}

/// The line of this number, counted from 0.
fn line_at(text: &[u8], number: usize) -> Option<&[u8]> {
    for (i, line) in text.split(|b| *b == b'\n').enumerate() {
        if i == number {
            return Some(line);
        }
    }
    None
}

/// The number of the first line in which two texts differ.
fn first_difference(found: &[u8], wanted: &[u8]) -> usize {
    for (i, line) in found.split(|b| *b == b'\n').enumerate() {
        if line_at(wanted, i) != Some(line) {
            return i;
        }
    }
    0
}

impl Telling {
    pub(crate) fn new(alloc: Global) -> Self {
        Telling {
            file: String::new(alloc),
            name: String::new(alloc),
            line: 0,
            text: String::new(alloc),
            sums: Sums::none(),
            failed: 0,
        }
    }

    /// Begins a file, which has nothing so far.
    pub(crate) fn begin_file(&mut self, file: String) {
        self.file = file;
        self.sums = Sums::none();
    }

    /// Begins a case.
    pub(crate) fn begin_case(&mut self, line: usize, name: String) {
        self.name = name;
        self.line = line;
        self.sums.count_case();
    }

    /// Counts a call.
    pub(crate) fn count_call(&mut self) {
        self.sums.count_call();
    }

    /// Counts a row with a reply.
    pub(crate) fn count_reply(&mut self) {
        self.sums.count_reply();
    }

    /// Reports a line of the file.
    pub(crate) fn tell(&mut self, line: usize, what: &str) -> Result<(), Trouble> {
        self.failed = self.failed.saturating_add(1);
        writeln!(
            self.text,
            "{}:{line}: {}: {what}",
            self.file.as_str(),
            self.name.as_str()
        )?;
        Ok(())
    }

    /// Reports the line where a case begins.
    pub(crate) fn tell_of_case(&mut self, what: &str) -> Result<(), Trouble> {
        let line = self.line;
        self.tell(line, what)
    }

    /// Adds a line of an output to what is told.
    fn show(&mut self, alloc: Global, what: &str, line: Option<&[u8]>) -> Result<(), Trouble> {
        let text = String::from_utf8_lossy(alloc, line.unwrap_or(b"nothing"))?;
        writeln!(self.text, "    {what}: {}", text.as_str())?;
        Ok(())
    }

    /// Reports the first line in which an output differs from these replies.
    pub(crate) fn tell_difference(
        &mut self,
        alloc: Global,
        how: &str,
        found: &[u8],
        wanted: &Told,
    ) -> Result<(), Trouble> {
        let at = first_difference(found, &wanted.text);
        let line = match wanted.places.get(at) {
            Some(place) => place.line,
            None => self.line,
        };
        self.tell(line, how)?;
        self.show(alloc, "wanted", line_at(&wanted.text, at))?;
        self.show(alloc, "found ", line_at(found, at))
    }

    /// Whether an output is the replies of a script, in one of its ways; where it is not, reports the first line that differs.
    pub(crate) fn is_told(
        &mut self,
        alloc: Global,
        how: &str,
        found: &[u8],
        script: &Script,
    ) -> Result<bool, Trouble> {
        if script.is_answered(found) {
            return Ok(true);
        }
        self.tell_difference(alloc, how, found, &script.told)?;
        Ok(false)
    }
}
