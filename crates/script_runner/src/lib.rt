//! A script, answered line by line on any machine that meets `ScriptMachine`, or read whole before a line of it runs.
//!
//! `run` puts the model's replies, each before the next line runs, on an opaque disk but for the bytes shown (`on_any_disk`); a run
//! that ends early ends at a line, for a cause (`ran`, `ended`, `disk`, `input`, `output`). `read_script` gives the lines, or why not
//! (`lines`, `why`). When held replies come out is only tested.
#![tactic(auto)]

mod feed;
mod line;
mod lines;
mod machine;
mod piece;
mod read;
mod run_end;
mod runner;

pub use lines::ScriptError;
pub use machine::ScriptMachine;
pub use read::read_script;
pub use run_end::RunEnd;
pub use runner::run;
