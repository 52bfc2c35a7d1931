// Accounts, what is done with them, and why it is refused.

use handle_pass::{BeginError, EndError};
use iso_model::CoreError;
use store_model::StoreError;

/// An account: its name, and the amount that it opens with.
#[derive(Clone, Copy)]
pub struct Account {
    pub name: [u8; 8],
    pub amount: u64,
}

/// An amount that goes from one account to another one.
#[derive(Clone, Copy)]
pub struct Transfer {
    pub from: [u8; 8],
    pub to: [u8; 8],
    pub amount: u64,
}

/// What one transaction does: all accounts of a plan are opened, or an amount goes from one to another one.
#[derive(Clone, Copy)]
pub(crate) enum Work {
    Open,
    Move(Transfer),
}

/// What the calls of one thread do in a transaction: all its work, or the first half of a transfer, which leaves a put to do.
#[derive(Clone, Copy)]
pub(crate) enum Step {
    Whole(Work),
    Take(Transfer),
}

/// What is done with accounts. One thread fills transactions that another one ends as one group, `MAX_GROUP` of them at most, and makes the
/// first half of a transfer that the other one makes the second half of and ends; and each of the two makes transfers of its own. The
/// first one learns how each of its members ended, and makes those transfers again that clashed. Each is tried so often after conflicts.
#[derive(Clone, Copy)]
pub struct Plan<'k> {
    pub accounts: &'k [Account],
    pub handed: &'k [Transfer],
    pub halved: Transfer,
    pub first: &'k [Transfer],
    pub second: &'k [Transfer],
    pub most: u32,
}

/// Why a transaction of accounts is refused.
#[derive(Clone, Copy, Debug, PartialEq, Eq)]
pub enum AccountError {
    /// Both accounts of a transfer are the same one.
    SameAccount,
    /// There is no such account.
    NoAccount,
    /// What stands at the account is no amount.
    NoAmount,
    /// The account has less than that.
    TooLittle,
    /// The other one would have more than an amount can be.
    TooMuch,
    /// An account that is to be opened is there.
    IsOpen,
    /// The transaction has written nothing.
    Nothing,
    /// The first half of a transfer was not made.
    NotTaken,
    /// The store refuses.
    Store(StoreError),
    /// The begin of the transaction is refused.
    Begin(BeginError),
    /// Its end is refused.
    End(EndError),
    /// Another transaction has committed what this one read, each time.
    Conflict,
}

/// What a thread has learned of the transactions that it gave away: how many were ended as members of the group, and how many of them
/// have committed there. And how many of the transfers that clashed there it has then committed by itself.
#[derive(Clone, Copy)]
pub struct Members {
    pub ended: u32,
    pub committed: u32,
    pub again: u32,
}

/// What came of a plan: how the opening ended, how many transfers of each thread were committed, how the one ended that went from the
/// one thread to the other, and what the first thread has learned of its members, or why their group was refused.
#[derive(Drop)]
pub struct Report {
    pub opened: Result<u64, AccountError>,
    pub first: u32,
    pub second: u32,
    pub halved: Result<u64, AccountError>,
    pub group: Result<Members, CoreError>,
}
