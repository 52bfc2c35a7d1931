//! Transactions that have begun.
//!
//! `Work` is one's accesses: `read` shows its own writes over the lent block (`shown`), `write` and `mark` change the list as the
//! model does (`ok`, `err`); after `settle`, `patches` are the record's runs (`effects`, `runs`). Only `reserve` and `settle` can
//! want memory. `Live` is the list of live transactions, at most 1,024 (`full`, `too_many`), each entered after all others
//! (`is_next`), with their `floor`. `Rack` has items under labels (`post`, `look`, `pop`).
#![tactic(auto)]

mod fold;
mod live;
mod patch_iter;
mod patches;
mod rack;
mod rows;
mod work;

pub use live::{Begun, EnterError, Live};
pub use patch_iter::PatchIter;
pub use rack::{PostError, Rack};
pub use work::Work;
