//! Clients and labels over a core, on one thread. A `Machine` meets `ScriptMachine`: each operation is the model's step (`reply`,
//! `world`), at each moment an image shows the world before or after it (`moments`), and a stop has its cause (`cause`); want of
//! memory has made nothing (`unmade`). After a fault in an end no clause holds of it.
//!
//! `CoreBlocks` is a live transaction as a store sees it; `leave` gives the core back, the disk unwritten (`IsGuest`).
#![tactic(auto)]

mod accessing;
mod acting;
mod answer;
mod attached;
mod begin;
mod core_blocks;
mod ending;
mod finder;
mod grouping;
mod guest;
mod handles;
mod leaving;
mod machine;
mod origin;
mod reading;
mod storing;
mod switching;

pub use accessing::put;
pub use acting::act;
pub use begin::take_work;
pub use core_blocks::{CoreBlocks, Lent};
pub use ending::{end_whole, keep_spare};
pub use grouping::{fill_answers, make_places};
pub use guest::Guest;
pub use machine::Machine;
pub use origin::Origin;
pub use reading::get_into;
pub use storing::store;
