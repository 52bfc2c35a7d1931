//! Clients in threads. `run_all` runs the lines of each job in order, until a step halts it, in a thread for each job: each client is
//! what its steps made of it, `done` counts them, and each job keeps its place (`ran`).
//!
//! A `Gate` is called before each line. That this happens once, and that jobs run concurrently, is only tested. `run_all` may wait.
#![tactic(auto)]

mod job;
mod run;

pub use job::{Client, Flow, Gate, Job};
pub use run::run_all;
