//! What tests of images and cores share: small geometries, blank disks in memory, bytes that are changed, cores over new images, and
//! transactions that fill a block.
#![tactic(auto)]

mod ending;
mod images;
mod making;

pub use ending::{ended_on, filling};
pub use images::{blank, change, small, small_in, with_long_logs, zeros};
pub use making::{core_on, formatted, new_core, opened};
