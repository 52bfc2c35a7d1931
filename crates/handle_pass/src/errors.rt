// Why the calls of a session are refused.

use iso_model::CoreError;

/// Why a begin is refused.
#[derive(Clone, Copy, Debug, PartialEq, Eq)]
pub enum BeginError {
    /// The session has a transaction.
    InTx,
    /// The device refuses it.
    Core(CoreError),
}

/// Why an end, or a check ahead of it, is refused.
#[derive(Clone, Copy, Debug, PartialEq, Eq)]
pub enum EndError {
    /// The session has no transaction.
    NotInTx,
    /// The device refuses it.
    Core(CoreError),
}

/// Why a transaction is not put under a label.
#[derive(Clone, Copy, Debug, PartialEq, Eq)]
pub enum PostTxError {
    /// The session has no transaction.
    NotInTx,
    /// The label is held.
    LabelTaken,
    /// Want of memory.
    Memory,
}
