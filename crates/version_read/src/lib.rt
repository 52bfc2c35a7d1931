//! Blocks of an image, read by their versions, and the index of the versions of a log.
//!
//! `read_block` gives a block's base bytes with its versions over them, `read_pieces` a range of it, where the disk is not opaque
//! (`bytes`); neither writes. With an index that follows its log (`indexes_follow_their_log`) that is the block of the history at a
//! number (`blocks_are_those_of_the_history`). After `reserve_parts`, `add_parts` takes a record in without memory (`room`,
//! `succeeds`); `take_parts` does both.
#![tactic(auto)]

mod block;
mod index;
pub mod laws;
mod part_span;

pub use block::{read_block, read_pieces};
pub use index::{add_parts, reserve_parts, take_parts};
pub use part_span::PartSpan;
