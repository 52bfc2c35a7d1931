//! Isotope for programs in C. A device is a slot of two words: a `Desk` over a disk that makes no call.
//!
//! No export requires anything. On an open device each is the model's step, told in statuses, slices and structs (`Serves`, `Steps`). A
//! slot without one stays as it is (`closed`); after a failure each call says so (`down`). The calls of the tape are shown in order, none
//! left out (`shown`). What is done to the file is not proved.
#![tactic(auto)]

mod accesses;
mod begin;
mod code;
mod ending;
mod files;
mod images;
mod instance;
mod opening;
mod records;
mod sealed;
mod slot;
mod stat;
mod stores;
mod tape;
mod told;
mod upkeep;
