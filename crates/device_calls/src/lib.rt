//! Calls on a session that take less of their caller. `end_now` makes its own steps; `end_or_again` begins again after each conflict (`did`).
//! `with_device` does a `Job` in a session of a core's device, and gives the core back (`did`, `none`).
//!
//! `on_blocks` makes a call on a session's transaction as stores see it (`HasCalled`); `hash_get` and `tree_scan`
//! are such calls. `hash_region` and `tree_region` are their regions, none exactly where the image has none (`area`, `none`). Calls may wait.
#![tactic(auto)]

mod beginning;
mod blocks_call;
mod device_job;
mod ending;
mod hash;
mod regions;
mod retry;
mod tree;
mod visit;

pub use beginning::{Beginning, beginning_of};
pub use blocks_call::BlocksCall;
pub use device_job::{Job, with_device};
pub use ending::end_now;
pub use hash::{hash_delete, hash_get, hash_put};
pub use regions::{hash_region, tree_region};
pub use retry::{Retry, RetryError, end_or_again};
pub use tree::{tree_delete, tree_get, tree_put, tree_scan};
pub use visit::on_blocks;
