// The answers that carry nothing but their name.

use std::alloc::{AllocError, AllocFailed};

/// Want of memory, the one free answer. Unless an entry says otherwise, all is then as before.
#[derive(Clone, Copy, Debug, PartialEq, Eq)]
pub struct Memory;

impl From<AllocError> for Memory {
    fn from(_: AllocError) -> Self {
        Memory
    }
}

impl<T: Drop> From<AllocFailed<T>> for Memory {
    fn from(_: AllocFailed<T>) -> Self {
        Memory
    }
}

/// The caller has no transaction.
#[derive(Clone, Copy, Debug, PartialEq, Eq)]
pub struct NotInTx;

/// The caller has a transaction already.
#[derive(Clone, Copy, Debug, PartialEq, Eq)]
pub struct InTx;
