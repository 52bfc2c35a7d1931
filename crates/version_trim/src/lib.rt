//! Dropping versions that no transaction reads any more. `trim` keeps what the versions of each block show at the floor and at each
//! later number, in every image (`same`), and returns how many it dropped (`count`).
#![tactic(auto)]

mod trimming;

pub use trimming::trim;
