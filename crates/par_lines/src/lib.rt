//! The lines of a script's clients in threads, each on its own session; then what is left is aborted and labels are swept.
//!
//! What all were answered follows from one legal list that the port has seen (`Told`). The status is 8 where a client wanted memory,
//! else 5 where the disk stopped one, else 0; the text is the replies and commits, with 8 perhaps first lines only (`ended`). The
//! port has all units (`units`). It may wait.
#![tactic(auto)]

mod accesses;
mod calls;
mod client;
mod deal;
mod groups;
mod image;
mod labels;
mod par;
mod reads;
mod replies;
mod run;
mod stores;

pub use par::{ParEnd, par_lines};
