//! The store promise, as laws: where stores begin well formed and commits keep to them, each commit's calls answer as one thread's on
//! the maps before it and end in those after it; without one, by the maps at their begin.
//!
//! It holds of a script's lines (`stores`, `files`: `AreCallsInOrder`), of a shared device's list (`StoresAnswerAt`, `FilesAnswerAt`), and
//! of the lines of clients in threads (`LinesTellCalls`). New images begin well (`made`, `made_files`). A refused file call may have
//! written.
#![tactic(auto)]

pub mod entry_laws;
pub mod laws;
pub mod thread_laws;
