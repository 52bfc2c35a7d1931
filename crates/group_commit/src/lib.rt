//! Transactions that end as a group, in one turn: those found under labels, and those handed in to one caller.
//!
//! `commit_group` and `commit_each` say which entries they make and what members are answered (`did`, `told`); `commit_found` of none is never
//! refused (`none`). `end_each` gives each a port that has seen its end (`ok`), and hands a refused group back (`kept`). Ends may wait, and
//! nothing promises that they return. How threads meet is the matter of `committer`.
#![tactic(auto)]

mod aborts;
mod answers;
mod commit;
mod each;
mod members;

pub use commit::{commit_found, commit_group};
pub use each::{Ended, commit_each, end_each, told_room};
pub use members::group_room;
