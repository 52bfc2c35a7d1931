//! A disk over a real file, which holds the file's lock for as long as it is bound.
//!
//! It meets `Disk` and `Image` as an opaque disk: sizes, counts, causes, how often a bind was asked for and which name is bound are
//! promised (`size`, `binds`, `cause`), nothing of bytes or crashes. That the file keeps what was written is trusted. That a file
//! bound by another disk is a fault, and which names are found free, is only tested.
#![tactic(auto)]

mod file_disk;
mod files;
mod lookup;

pub use file_disk::FileDisk;
