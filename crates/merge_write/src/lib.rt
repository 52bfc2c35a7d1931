//! Patches: the values that writes set in a block. `set`, `set_spans`, `then` (self, followed by later writes), `over` (lays them
//! over a block by words of 64 bytes, equal to the plain definition), `clear`, `spans` (the maximal runs with their bytes).
//!
//! By the laws (`laws`) a patch laid over a block is the covered write, its spans are the log record's runs, and an access that does
//! not write the block changes nothing.
#![tactic(auto)]

mod copy;
mod lanes;
pub mod laws;
mod masks;
mod patch;
mod patch_spans;

pub use masks::{next_place, set_bits};
pub use patch::Patch;
pub use patch_spans::PatchSpans;
