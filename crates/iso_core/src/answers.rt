// What the calls of a core answer.

use conflict_rule::Notes;
use iso_model::Mode;

/// What `begin` answers: the number of the transaction, the number of the last commit then, and its mode.
#[derive(Clone, Copy, Debug, PartialEq, Eq)]
pub struct Begun {
    pub tx: u64,
    pub at: u64,
    pub mode: Mode,
}

/// What `recent` answers: the commits above a number up to the last one, each with the bytes that it wrote.
#[derive(Drop)]
pub struct Recent {
    pub after: u64,
    pub upto: u64,
    pub notes: Notes,
}

/// What `stat` answers: the last commit's, the base and the trim number; how many transactions are live, how many bytes
/// of the log the records take, how many versions are kept; and whether an earlier fault set the core down.
#[derive(Clone, Copy)]
pub struct Stat {
    pub last: u64,
    pub base: u64,
    pub trim: u64,
    pub live: u32,
    pub used: u32,
    pub versions: u64,
    pub down: bool,
}
