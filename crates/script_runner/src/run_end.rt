// How a run ends.

use script_model::BadLine;

/// How a run ended.
#[derive(Clone, Copy, Debug, PartialEq, Eq)]
pub enum RunEnd {
    /// The input was read to its end, and all its lines were answered.
    Done,
    /// This line is bad; the lines before it were answered.
    BadLine(BadLine),
    /// The machine's disk failed.
    Disk,
    /// The source failed; the whole lines among the bytes taken were answered.
    Input,
    /// The sink failed, or took nothing of a piece that is not empty. Where it could not hand on, no line ran after those
    /// whose replies it took.
    Output,
    /// Want of memory.
    Memory,
}

/// How a line ends a run.
#[derive(Clone, Copy, Debug, PartialEq, Eq)]
pub(crate) enum Halt {
    /// It is bad.
    BadLine(BadLine),
    /// The disk failed.
    Disk,
    /// The sink failed.
    Output,
    /// Want of memory.
    Memory,
}
