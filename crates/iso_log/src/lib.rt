//! The log of a half: records one after the other, each with a gate.
//!
//! `append` and `append_group` add records: at every moment an image has all or none (`moments`, `all_or_none`, `held_moments`), on
//! Ok all (`all`, `held`); full means exactly that they do not fit (`full`, `not_full`). `find_ahead` finds the next record or the
//! first failing test (`closed`, `found`, `damaged`, `test`) and writes nothing; `pass` takes it (`taken`). A fault has a cause and
//! leaves the log (`cause`, `kept`).
#![tactic(auto)]

mod ahead;
mod count;
mod log;
mod log_error;
mod put;
mod scan;

pub use ahead::ReadAhead;
pub use log::Log;
pub use log_error::LogError;
