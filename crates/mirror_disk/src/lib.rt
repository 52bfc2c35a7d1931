//! A disk that keeps its bytes on two sides, each with an epoch, over two disks.
//!
//! Bound to a name with `+`, its images are those of the larger epoch (`sides`). A side is left out only where it failed in that
//! call, with the lower epoch (`left`, `first_leads`, `second_leads`). An Ok call leaves a side in use (`goes_on`). `adopt` makes them alike
//! (`alike`). `new` wants both names free (`made_free`). A side that returns wrong bytes is not found out.
#![tactic(auto)]

mod adopt;
mod bind;
mod copy;
mod disk;
mod error;
mod header;
mod marks;
mod mirror;
mod name;
mod past;
mod raise;
mod sides;
mod slot;
mod take;
mod used;

pub use error::MirrorError;
pub use mirror::Mirror;
