//! Sessions: a port with at most one transaction, which can be handed to another session, in another thread too, in order by the
//! invariant of its `Model`.
//!
//! Each call says how it ended, which entries it made, and which transaction the session has then (`did`); what the session's own state
//! refuses is exact (`cause`). A handle carries a transaction; `into_tx` gives it to a group. `SessionBlocks`
//! meets the trait of `tx_blocks` with one fetch a read (`Visited`). Calls may wait.
#![tactic(auto)]

mod access;
mod calls;
mod errors;
mod handle;
mod labels;
mod session;
mod session_blocks;
mod split;
mod upkeep;
mod visit;
mod visitor;

pub use errors::{BeginError, EndError, PostTxError};
pub use handle::Handle;
pub use session::Session;
pub use session_blocks::{Left, SessionBlocks};
pub use visit::Visit;
pub use visitor::Visitor;
