//! The operations of a script on the stores and on files, over any transaction over blocks.
//!
//! `call` makes the accesses and gives the reply of the operation's program, where the array is known (`called`). Where it stops,
//! which has its cause (`stops`), its accesses are the first ones of those. `store_region` is where the image's store is. No
//! transaction begins or ends here.
#![tactic(auto)]

mod calls;
mod range;
mod region;
mod replies;

pub use calls::call;
pub use region::{is_empty_scan, store_region};
