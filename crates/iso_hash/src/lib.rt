//! The hash store over the blocks of a transaction.
//!
//! `get`, `put` and `del` make just the accesses of their program and give its answer (`ended`); a call that is Ok is local for its
//! operation on the region's map (`local`). Each refusal has its cause (`bad_key`, `bad_value`, `cause`) and has written nothing, but
//! where the transaction wants memory: then it made first accesses of its program (`unwritten`, `reads` of `get`). Only a refusal by
//! the disk met its fault.
#![tactic(auto)]

mod bucket;
mod insert;
mod links;
mod lookup;
mod remove;
mod walk;
mod writes;

pub use insert::put;
pub use lookup::get;
pub use remove::del;
