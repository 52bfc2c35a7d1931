//! What the tests of the top call share: calls of it over a disk, a source and a sink in memory, disks that fail, what a call gave,
//! and a small image. Its functions promise nothing.
#![tactic(auto)]

mod calls;
mod disks;
mod images;
mod outcome;

pub use calls::{
    Open, PAR, RECOVER, RUN, SMALL, call, call_on, call_over, gated, par_image, run_image,
    source_of, whole_sink,
};
pub use disks::{Failing, Fault, faulty};
pub use images::{change, part, small_image};
pub use outcome::Outcome;
