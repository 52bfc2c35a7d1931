//! What `met`, the promise of the program's call, means in words of images and texts alone: each function does nothing, and its contract
//! is a law. They stand above `iso_top`, so that who builds the program need not prove them; the gate does.
//!
//! `laws` has replies, lines of causes, crashes, clients and stores, `history_laws` the stores on any disk. `docs/promises.md` says which
//! clause each comes from.
#![tactic(auto)]

pub mod history_laws;
pub mod laws;
