//! The bytes of an image: its superblock, the headers of its halves and its log records, written and read.
//!
//! Written are exactly the model's bytes (`superblock`, `half_header`, `spell`); a `RecordBuffer` has records one after the other,
//! then a closed gate (`with_closed_gate`). `read_super`, `read_half` and `read_record` read these and nothing else, and name the
//! first failing test and its place; `view_record` does it again for a tested record. A record is read from the bytes that its head
//! asks for (`record_window`).
#![tactic(auto)]

mod faults;
mod format_error;
mod half;
pub mod laws;
mod log_record;
mod numbers;
mod record_buffer;
mod record_view;
mod superblock;

pub use format_error::FormatError;
pub use half::{HalfHeader, read_half, unclean_place, write_half};
pub use iso_model::PartList;
pub use log_record::{record_length, write_record};
pub use record_buffer::RecordBuffer;
pub use record_view::{Part, PartIter, RecordView, read_record, record_window, view_record};
pub use superblock::{SuperError, is_valid, read_super, write_super};
