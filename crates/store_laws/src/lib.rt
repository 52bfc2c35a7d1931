//! What stores promise over many transactions, as laws, for every store that depends on its own blocks alone (`RegionStore`).
//!
//! Where a region begins well formed and Ok calls alone write it, each commit's calls answer as one thread's on the map before it and
//! end in the map after it; without writes they answer by the map at the begin (`commit`, `history` and its `AnswersFrom`). Such stores
//! are `HashStore`, `TreeStore`, `FileStore`. Snapshots have no such order (`Skew`).
#![tactic(auto)]

pub mod both_laws;
pub mod file_laws;
mod files;
mod hash;
pub mod hash_laws;
pub mod laws;
mod store;
mod tree;
pub mod tree_laws;

pub use files::FileStore;
pub use hash::HashStore;
pub use store::RegionStore;
pub use tree::TreeStore;
