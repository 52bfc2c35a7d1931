//! A disk in memory that makes no call: each write and sync goes onto a tape, which its caller does to a file. It meets `Disk`.
//!
//! An Ok write or sync is one more call on the tape (`queued`), a failed one adds none (`untouched`), and each fails once the caller
//! reported a failure (`told`). Images that a first part of the calls may leave are those of a crash (`each_front_leaves_an_image`).
//! Why one fails earlier is no clause.
#![tactic(auto)]

mod past;
mod queued;

pub use iso_memdisk::Call;
pub use queued::QueuedDisk;
