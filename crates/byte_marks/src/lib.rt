//! Sets of bytes: `Marks` of one block, `Touched` of all blocks that a transaction's reads or writes touch.
//!
//! Union, the least common byte and the maximal runs are exact (`set`, `found`, `least`, `none`, `runs`). Adding up to eight spans
//! takes no memory, since each makes at most one run more (`full`, `count`); nor does a copy of a set of at most eight runs (`full`).
//! Beyond that memory may be wanting.
#![tactic(auto)]

mod extent;
mod marks;
mod meet;
mod merge;
mod span_iter;
mod touched;

pub use marks::Marks;
pub use span_iter::SpanIter;
pub use touched::Touched;
