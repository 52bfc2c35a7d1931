//! A core: one open image, its live transactions and its commits, for one thread. It represents a world of the model (`StandsFor`).
//!
//! `begin`, `end`, `end_group`, `abort`, `trim`, `compact`, `upgrade` are the model's steps (`begun`, `ended`, `left`, `trimmed`,
//! `switched`); a refusal leaves the world (`refused`, `same`). Images show the history before or after (`moments`). A fault outside
//! a fetch takes it down, commits all or none (`lost`, `down`). `fetch` gives the block at the begin, unless the disk is opaque
//! (`block`).
#![tactic(auto)]

mod answers;
mod append;
mod begin;
mod commit;
mod core_itself;
mod decide;
mod ending;
mod fetch;
mod go_over;
mod group;
mod group_end;
mod judge;
mod kept;
mod leave;
mod members;
mod opening;
mod plan;
mod prepare;
mod rebinding;
mod refill;
mod settling;
mod spelling;
mod switching;
mod taking;

pub use answers::{Begun, Recent, Stat};
pub use core_itself::Core;
pub use group_end::{GroupEnd, MAX_GROUP};
pub use opening::Opened;
pub use rebinding::Rebinding;
