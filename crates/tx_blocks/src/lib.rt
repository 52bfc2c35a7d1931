//! Reads, writes and byte marks of blocks in a transaction, as a store sees them: the trait `TxBlocks`, a list of accesses over a
//! shown array, each call as the model says.
//!
//! Its steps keep what a program has done (`look`, `store`, `reserve`, `mark`). A refusal has its cause. Want of memory has no
//! premise but that the disk did not fail in the call.
#![tactic(auto)]

mod steps;
mod tx_blocks;

pub use steps::{area_of, last_store, look, look_whole, mark, reserve, store, store_bit};
pub use tx_blocks::TxBlocks;
