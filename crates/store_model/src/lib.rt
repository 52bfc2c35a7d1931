//! The calls of the stores as programs of reads and writes, and the regions where an image has its stores: definitions in `specs`,
//! with the lemmas that a program's accesses are accesses to the array.
//!
//! Its types promise nothing of their own; `PairList` is a list. Rows of calls on small regions compute (`HashRows`, `TreeRows`).
#![tactic(auto)]

mod files;
mod stores;

pub use files::{FileAreas, FsError, FsRegion};
pub use stores::{Area, PairList, Region, Spot, StoreError, TxError};
