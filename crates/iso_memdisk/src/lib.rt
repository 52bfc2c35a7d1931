//! A disk in memory whose bytes are known, for tests; it meets `Image`.
//!
//! `crash` gives, for every pick, an image that a crash now may leave (`image`): the synced bytes for 0, the written ones for 1
//! (`synced`, `written`); which one another pick gives is no clause. A call fails exactly where `fuse`, `fail` or `fail_kind` names
//! it, or memory was wanting (`starved`); each count rises by one (`plan`). A read leaves the record of writes (`untouched`).
#![tactic(auto)]

mod disk;
mod draws;
mod failures;
mod lookup;
mod record;

pub use disk::MemDisk;
pub use failures::CallKind;
pub use record::{Call, lay};
