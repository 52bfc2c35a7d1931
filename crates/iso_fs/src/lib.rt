//! Files over the tree store, in the blocks of a transaction.
//!
//! `create`, `write`, `read`, `rename` and `remove` make just the accesses of their program (`ended`); an Ok call is local on the
//! map from names to bytes (`local`). `BadName` and `Exists` come exactly where they should (`bad_name`, `exists`), `BadRange` at once
//! for a bad length (`bad_range`). Each refusal has its cause, and wrote nothing, but where an access is refused, or the second part of
//! a `rename` fails (`leaves`, `reads`).
#![tactic(auto)]

mod buffers;
mod file;
mod find;
mod left;
mod making;
mod names;
mod patch;
mod reading;
mod removing;
mod renaming;
mod sized;
mod storing;
mod writing;

pub use making::create;
pub use reading::read;
pub use removing::remove;
pub use renaming::rename;
pub use writing::write;
