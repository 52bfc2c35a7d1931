//! The operations of a script, lines and replies as text, and what each operation is answered (`step`): definitions in `specs`.
//!
//! Laws: each operation of one thread keeps a world sound, so every commit is isolated by its own mode (`worlds_stay_sound`); upkeep
//! changes nothing that is shown (`upkeep_changes_nothing_that_is_shown`); an input that is cut has a bad line
//! (`cut_inputs_are_bad`). Rows of each subject compute in `proofs`. Of clients in threads it says nothing.
#![tactic(auto)]

mod buffers;
pub mod laws;
mod refusing;
mod script;
pub mod step_laws;
mod stop;

pub use buffers::{copy_from, fill_up, fit, is_outside, zeros};
pub use refusing::refused;
pub use script::{BadLine, Line, LineError, MAX_LABELS, Op, Parsed, Reply};
pub use stop::Stop;
