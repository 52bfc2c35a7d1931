//! Images that are made and opened.
//!
//! `format_image` makes an empty image of a blank disk (`stands`); at every moment it is refused as none of this project, or empty
//! (`moments`, `failed`). `open_image` gives a core for the image's history, or the first failing test and its place, exactly where
//! the disk is not opaque (`opened`, `refused`); it writes nothing (`unwritten`). What shows a history at a commit opens to it
//! (`opens`, `shown`). On any disk a refusal has its `shape`.
#![tactic(auto)]

mod core_over;
mod format;
mod front;
mod halves;
mod image;
mod log;
mod make;
mod scan;
mod superblock;

pub use core_over::{format_image, open_image};
pub use image::read_image;
pub use iso_image::OpenError;
pub use make::MakeError;
