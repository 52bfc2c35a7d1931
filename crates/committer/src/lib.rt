//! Transactions of threads that end together: each is handed in at a desk, and whoever serves ends all by `end_each` of
//! `group_commit`.
//!
//! A client of a `Desk` gets one response, which answers its request by the `Protocol` (`answers`). `end`, `outcome` and `end_with`
//! tell each its own reply (`outcome`, `did`); a session keeps its places and units, and ends its own where it comes alone. A refused
//! transaction is handed back. Ends may wait; nothing promises that a desk is served.
#![tactic(auto)]

mod committer;
mod desk;
mod ends;
mod gather;
mod outcomes;
mod plays;
mod protocol;
mod serve;
mod session_end;

pub use committer::Committer;
pub use desk::{Client, Desk, Job};
pub use ends::{Ends, OfDevice, Outcome, hand_in};
pub use protocol::{Message, Protocol, Side};
pub use session_end::end_with;
