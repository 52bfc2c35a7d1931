// What one client was told.

use iso_model::Items;
use script_model::{Reply, Stop};

/// A client, the replies to its lines with their numbers, and why it stopped at the line after them, if it did.
#[derive(Drop)]
pub struct Part {
    pub client: u8,
    pub told: Items<(u64, Reply)>,
    pub stop: Option<Stop>,
}
