//! A disk whose pages are kept in memory, over any disk.
//!
//! A `Kept` is at each moment what that disk is; it meets `Disk`, and `Image` where the disk does. A read of at most 65,536 bytes
//! whose pages are held is Ok and changes nothing (`held`); after it its pages are held, where the bind found memory for them
//! (`holds`); after a failed write or a bind none is (`forgotten`). That a bind asks for memory is only tested.
#![tactic(auto)]

mod kept;
mod pages;
mod parts;

pub use kept::Kept;
