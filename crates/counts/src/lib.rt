//! Counts that contracts name. `raise` gives one more up to the last value of a `u64` (`count`); `count_call` says whether a call is
//! one that is to fail (`named`). `HasCause` is the one word for why a call may fail.
//!
//! `Steps` counts from 0 (`start`) and one more each `tick`, so that a clause can bound how many steps a call takes; it takes no
//! memory and no time.
#![tactic(auto)]

mod count;
mod steps;

pub use count::{count_call, raise};
pub use std::sync::ledger::{Blank, Ledger};
pub use steps::Steps;
