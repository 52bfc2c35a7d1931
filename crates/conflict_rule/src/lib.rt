//! Whether a transaction conflicts: what it touched, against what the commits after its begin wrote, which `Notes` keeps (`add`,
//! `drop_to`, `copy_after`, `look_at`).
//!
//! `decide` gives the model's `clash`, to the commit, block and byte, where the notes have the commits above `checked.upto` and
//! `checked.clash` is the clash up to there (`exact`); none without a write (`read_only`). It takes at most one step for each of
//! those commits (`steps`), none where nothing is guarded (`unguarded`). Time itself is in no clause.
#![tactic(auto)]

mod decision;
pub mod laws;
mod notes;
mod rest;

pub use decision::{Checked, decide};
pub use notes::Notes;
