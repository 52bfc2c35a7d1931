//! A transaction over an array in memory, for the tests of the stores. `PlainTx`, an array with a list of accesses, meets the trait
//! of `tx_blocks` exactly.
#![tactic(auto)]

mod plain_tx;

pub use plain_tx::PlainTx;
