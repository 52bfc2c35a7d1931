//! The traits `Disk` and `Image`: each call is a relation of the disk's state before and after. `Lookup` says whether a name is free.
//!
//! They say what a call does, what a crash may leave at each moment (`crash`, `settled`), what is bound (`bound`, `counted`,
//! `existing`, `told`), and that an Ok call counted no fault (`cause`). `untold` is the state of an opaque disk, as a file, whose bytes no
//! proof knows. No clause says that a call succeeds.
#![tactic(auto)]

mod disk;
mod lookup;

pub use disk::{Disk, DiskFault, Image};
pub use lookup::Lookup;
