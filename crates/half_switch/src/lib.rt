//! Compaction: the other half of an image is closed, filled and opened. `choose_half` finds the current half by two headers, at
//! opening too (`chosen`, `none`, `current`).
//!
//! At every moment images differ in the other half alone, whose gate is closed while it is filled, and the current half is held
//! (`moments`, `closed`, `held`). What was filled can be opened (`ready`); meanwhile an image holds one or the other, on Ok the new
//! one (`opened`), with the same history (`laws`).
#![tactic(auto)]

mod choose;
mod fill;
mod gates;
pub mod laws;
mod lay;
mod plan;
mod put;

pub use choose::choose_half;
pub use fill::fill_half;
pub use gates::{close_half, open_half};
pub use iso_image::{HalfPlace, half_place};
pub use plan::{FillPlan, SwitchError};
