// What a group is handed.

use iso_model::GroupReply;
use tx_table::Work;

/// The most members that a group has.
pub const MAX_GROUP: usize = 64;

/// A transaction that a group is to end, and how it ended, once it did.
#[derive(Drop)]
pub struct GroupEnd {
    pub tx: u64,
    pub work: Work,
    pub reply: Option<GroupReply>,
}
