//! A core and its labels, shared by threads.
//!
//! Each call that waits makes one entry of a legal list (`made`, `ok`, `err`). What a port or
//! transaction has seen only grows (`told`). `close` gives the core of the whole list, whose history is isolated (`core`, `legal`, `isolated`).
//! Each image of a crash shows it at some commit (`came`), and from the end of a turn on all commits up to that turn (`ended`). No clause says
//! that a call returns.
#![tactic(auto)]

mod ahead;
mod ending;
mod entry;
mod grouping;
mod guarded;
mod labels;
mod laws;
mod members;
mod shared;
mod told;
mod transactions;
mod turns;
mod tx;
mod upkeep;
mod works;

pub use entry::{Call, Cause, Entry, Member, MemberEnd, Numbers, Posting};
pub use guarded::{Guarded, Origin, Posted, Stamped};
pub use laws::numbers_out_are_loose;
pub use shared::{Port, Shared};
pub use turns::Turns;
pub use tx::Tx;
