//! An open image whose transactions go by numbers. Nothing is required of callers.
//!
//! While a desk is up each call is the model's step for the client of that number (`did`), `end_waiting` many, `peek` a get that is no
//! access, `file_size` two that find how long a file is (`sizes_are_of_files`). A fault of the disk in an end or in upkeep, and each
//! stop of `end_group`, takes it down (`down`). `tape`, `hand_on`, `fail` serve who does its disk's calls.
#![tactic(auto)]

mod about;
mod access;
mod asking;
mod begin;
mod calls;
mod copies;
mod desk;
mod end;
mod files;
mod group;
mod image;
mod lent;
mod need;
mod peek;
mod places;
mod seat;
mod sizes;
mod status;
mod stores;
mod switch;
mod table;
mod tape_laws;
mod taped;
mod together;
mod waiting;

pub use desk::Desk;
pub use image::{create, open};
pub use sizes::sizes_are_of_files;
pub use status::{Status, status_of, status_of_reply};
pub use tape_laws::tapes_leave_commits;
pub use taped::{fail, hand_on, tape};
pub use waiting::Waited;
