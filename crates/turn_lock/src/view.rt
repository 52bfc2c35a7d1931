//! What the value of a lock represents, and what a pass knows of it.
ghost use Rattle.std.specs.Prelude.{ℕ, List, Option};

use std::collections::LinkedList;

/// How many units all passes of a lock have together. No ticket has a greater number.
pub const LAST: u64 = (1 << 63) - 1;

/// A value that represents a list of entries, for contracts alone.
pub trait Stands {
    type Entry;

    // The value represents this list.
    ghost stands: { Self → List Self.Entry → Type 0 };

    // The number that an entry hands out, those that it needs, and those that it takes back.
    ghost hands: { Self.Entry → Option ℕ };

    ghost needs: { Self.Entry → List ℕ };

    ghost takes: { Self.Entry → List ℕ };
}

/// The entry that a `give` adds, for contracts alone.
pub trait Names<E> {
    ghost entry: { E };
}

/// Where a pass is in the queue: in none, with a ticket, or at its turn with one.
pub enum Stage {
    /// In none.
    Idle,
    /// It waits with this ticket.
    Waits(u64),
    /// It has the turn of this ticket.
    Turns(u64),
}

/// What a pass knows. No value of it is made.
pub struct View<E> {
    /// A beginning of the list.
    pub seen: LinkedList<E>,
    /// The places of the entries that were made through this pass, rising.
    pub mine: LinkedList<u64>,
    pub stage: Stage,
    /// The numbers that this pass alone may name.
    pub holds: LinkedList<u64>,
    pub units: u64,
    /// What the two passes of the last join had seen.
    pub left: LinkedList<E>,
    pub right: LinkedList<E>,
}
