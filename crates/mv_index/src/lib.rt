//! The versions of each block: where in the image the bytes of each commit's parts are, without the bytes.
//!
//! `find`: exactly those at or below a number, rising, by halves (`exact`, `rising`, `cost`). `showing`: pieces that show what all
//! versions show, no byte twice (`AreShowing`); `showing_in`: those that meet a range (`meet`). `add`
//! takes no memory after `reserve` (`added`, `succeeds`). `trim_to`: those above the number and those that still show a byte (`kept`,
//! `count`). `move_to` moves places (`moved`).
#![tactic(auto)]

mod index;
pub mod laws;
mod mask;
mod moving;
mod pieces;
mod row;
mod search;
mod trim;
mod version;
mod weight;

pub use counts::{Blank, Ledger, Steps};
pub use index::MvIndex;
pub use mask::see;
pub use version::Version;
