// How many steps of a script a call has reached.
use crate::script::{Script, Step};

/// How many steps an image shows at least and at most: what is in it for certain, and what was written to it.
#[derive(Clone, Copy)]
pub(crate) struct Reached {
    stable: usize,
    written: usize,
    /// Whether the images of a crash are known: for pick 0 what is stable, and for 1 what was written.
    is_exact: bool,
}

impl Reached {
    /// The least and the most steps for a pick.
    pub(crate) fn of(self, pick: u64) -> (usize, usize) {
        match pick {
            0 if self.is_exact => (self.stable, self.stable),
            1 if self.is_exact => (self.written, self.written),
            _ => (self.stable, self.written),
        }
    }
}

/// Whether an output has this line.
fn has_line(output: &[u8], line: &[u8]) -> bool {
    for found in output.split(|b| *b == b'\n') {
        if found == line {
            return true;
        }
    }
    false
}

/// Whether an output has the line of each step.
pub(crate) fn tells_steps(script: &Script, output: &[u8]) -> bool {
    let mut is_right = true;
    for step in &script.steps {
        if let Step::Line(line) = step {
            is_right = is_right && has_line(output, line);
        }
    }
    is_right
}

/// One more where this holds.
fn plus(count: usize, more: bool) -> usize {
    if more { count.saturating_add(1) } else { count }
}

/// How many steps were reached, where the disk fails after `calls` calls and `len` bytes of the replies were told.
pub(crate) fn steps_reached(script: &Script, output: &[u8], len: usize, calls: u64) -> Reached {
    let mut found = Reached {
        stable: 0,
        written: 0,
        is_exact: true,
    };
    for step in &script.steps {
        let (written, stable) = match step {
            Step::Calls { written, stable } => (*written <= calls, *stable <= calls),
            Step::Behind(end) => (*end <= len, *end <= len),
            Step::Line(line) => (has_line(output, line), has_line(output, line)),
        };
        found.is_exact = found.is_exact && matches!(step, Step::Calls { .. });
        found.written = plus(found.written, written);
        found.stable = plus(found.stable, stable);
    }
    found.written = plus(found.written, !found.is_exact);
    found
}
