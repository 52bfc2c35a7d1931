//! What the clients of a script in threads were answered, as one legal list of entries, and the text of it.
//!
//! A client's replies are defined by its own entries (`ClientLines`), a store's line by its fetches (`CallsStore`), a group's by its
//! looks and its end (`Groups`), all clients by one list (`Told`). `par_text` is each client's replies, then a line for each commit
//! in rising number (`ok`), without memory first lines (`err`). No client is run here.
#![tactic(auto)]

mod commit_line;
mod part;
mod text;

pub use commit_line::CommitLine;
pub use part::Part;
pub use script_model::Stop;
pub use text::par_text;

/// How often an `await` looks for its label.
pub const MAX_LOOKS: u32 = 1_000_000;
