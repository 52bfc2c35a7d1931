//! The data of an image and its transactions, and the definitions that every contract of the project cites (`specs`). It knows no
//! operation of a script and no store.
//!
//! Laws (`laws`, `step_laws`, `group_laws`) say in the subject's words what the definitions say of marks, the floor, versions,
//! histories, conflicts, isolation, log records, images and groups. `Items` and `PartList` are lists; a push within the room of a
//! `Reserved` takes no memory (`succeeds`); `Label::new` accepts exactly the labels.
#![tactic(auto)]

mod access;
mod core_error;
mod core_reply;
pub mod group_laws;
mod items;
mod label;
pub mod laws;
mod limits;
mod memory;
mod parts;
mod reserved;
pub mod step_laws;

pub use access::{
    Access, Clash, Commit, EndReply, Geometry, GroupReply, Kind, MarkError, Mode, Run, Span,
};
pub use core_error::CoreError;
pub use core_reply::CoreReply;
pub use items::{AccessList, Bytes, Items, LabelList, LabelReplies, ReplyList, SpanList};
pub use label::Label;
pub use limits::{LAST, MAX_ACCESSES, MAX_INPUT, MAX_LINE, MAX_LIVE, MAX_SPANS};
pub use memory::{InTx, Memory, NotInTx};
pub use parts::PartList;
pub use reserved::Reserved;
