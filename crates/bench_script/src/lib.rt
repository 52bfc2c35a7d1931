//! The script of a bench, the digest of its replies, and how many tell of a commit.
//!
//! `DrawnScript` is a source that never fails, `ReplyDigest` a sink that takes all and gives SHA-256 (`finish`). No line of up to
//! 100,000 rounds is bad (`good`) or calls a store (`plain`). Each first client commits, the second conflicts exactly where both draw
//! one place, and the last commit's number is how many commits were told (`laws`). Speed is in no clause.
#![tactic(auto)]

mod drawn_script;
pub mod laws;
mod reply_digest;
mod taken;

pub use drawn_script::DrawnScript;
pub use reply_digest::ReplyDigest;
