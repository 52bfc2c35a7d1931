//! Gates: one byte on a disk that says whether what it guards counts. 1 is open, every other value is closed. A body is written while
//! its gate is closed; a write of its own opens it once the body is stable.
//!
//! `put_body`, `open_gate`, `shut_gate`, `stands_closed`: at every moment the gate is closed, or images differ in that byte alone
//! (`moments`, `closed`, `open`, `shut`, `unwritten`); no fault is passed over (`cause`). The exact calls are only tested.
#![tactic(auto)]

mod gate;

pub use gate::{open_gate, put_body, shut_gate, stands_closed};
