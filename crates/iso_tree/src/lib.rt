//! The tree store over the blocks of a transaction.
//!
//! `get`, `put`, `del` and `scan` make just the accesses of their program and give its answer (`ended`); a call that is Ok is local
//! for its operation on the map, in a scan the first pairs of a range (`local`). A refusal has its cause (`bad_key`, `bad_value`,
//! `cause`) and has written nothing, but for want of memory (`unwritten`, `reads`); a `del` needs no block (`takes_none`).
#![tactic(auto)]

mod build;
mod climb;
mod descent;
mod enlarge;
mod entry;
mod fill;
mod first;
mod grow;
mod grown;
mod growth;
mod insert;
mod key_range;
mod keys;
mod leaf;
mod lookup;
mod node;
mod path;
mod range;
mod remove;
mod root;
mod unread;
mod visit;
mod way;

pub use enlarge::map_mark;
pub use first::store_first;
pub use grow::take_blocks;
pub use insert::put;
pub use lookup::get;
pub use node::NodeView;
pub use range::scan;
pub use remove::del;
