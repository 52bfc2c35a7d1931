// Accounts by any transaction over blocks: an amount is moved, and accounts are opened.
ghost use Rattle.std.specs.Prelude.{[], ◌∷◌, IfOk, OnOk};
ghost use Rattle.accounts.specs.{Made.{DoesIn, HasHash, IsTaken, calls_of, opening_of}, Transactions.{IsOpening, IsTransfer}};

use crate::account::{Account, AccountError, Step, Transfer, Work};
use crate::amounts::{Place, amount_at, is_free, set_amount};
use std::alloc::Global;
use store_model::Region;
use tx_blocks::TxBlocks;

// Takes an amount from the one account, and answers what the other one is to have with it.
fn take_amount<T: TxBlocks>(
    tx: &mut T,
    place: Place,
    transfer: &Transfer,
) -> Result<u64, AccountError>
    requires store { HasHash (T.state tx.old) place.region }
    ensures taken { IfOk result (λ n. DoesIn place.region (T.state tx.old) (T.state tx.new) (IsTaken transfer.now.from transfer.now.to transfer.now.amount n)) }
{
    if transfer.from == transfer.to {
        return Err(AccountError::SameAccount);
    }
    let had = amount_at(tx, place, &transfer.from)?;
    let other = amount_at(tx, place, &transfer.to)?;
    if had < transfer.amount {
        return Err(AccountError::TooLittle);
    }
    let Some(more) = other.checked_add(transfer.amount) else {
        return Err(AccountError::TooMuch);
    };
    set_amount(tx, place, &transfer.from, had - transfer.amount)?;
    Ok(more)
}

// Moves an amount from one account to another one.
fn move_amount<T: TxBlocks>(
    tx: &mut T,
    place: Place,
    transfer: &Transfer,
) -> Result<(), AccountError>
    requires store { HasHash (T.state tx.old) place.region }
    ensures moved { OnOk result (DoesIn place.region (T.state tx.old) (T.state tx.new) (IsTransfer transfer.now.from transfer.now.to transfer.now.amount)) }
{
    let more = take_amount(tx, place, transfer)?;
    set_amount(tx, place, &transfer.to, more)?;
    Ok(())
}

// Opens one account.
fn open_one<T: TxBlocks>(tx: &mut T, place: Place, account: &Account) -> Result<(), AccountError>
    requires store { HasHash (T.state tx.old) place.region }
    ensures opened { OnOk result (DoesIn place.region (T.state tx.old) (T.state tx.new) (IsOpening (opening_of (account.now ∷ [])))) }
{
    is_free(tx, place, &account.name)?;
    set_amount(tx, place, &account.name, account.amount)?;
    Ok(())
}

// Opens accounts, none of which is there.
fn open_all<T: TxBlocks>(tx: &mut T, place: Place, accounts: &[Account]) -> Result<(), AccountError>
    requires store { HasHash (T.state tx.old) place.region }
    ensures opened { OnOk result (DoesIn place.region (T.state tx.old) (T.state tx.new) (IsOpening (opening_of accounts.now))) }
{
    match accounts.split_first() {
        None => Ok(()),
        Some((first, rest)) => {
            open_one(tx, place, first)?;
            open_all(tx, place, rest)?;
            Ok(())
        }
    }
}

/// Opens all accounts, moves an amount, or makes the first half of that and answers what is still to be put. A refusal is to be
/// followed by an abort.
pub(crate) fn do_step<T: TxBlocks>(
    alloc: Global,
    tx: &mut T,
    region: Region,
    accounts: &[Account],
    step: Step,
) -> Result<u64, AccountError>
    requires store { HasHash (T.state tx.old) region }
    ensures done { IfOk result (λ n. DoesIn region (T.state tx.old) (T.state tx.new) (calls_of (opening_of accounts.now) step n)) }
{
    let place = Place { alloc, region };
    match step {
        Step::Whole(Work::Open) => {
            open_all(tx, place, accounts)?;
            Ok(0)
        }
        Step::Whole(Work::Move(transfer)) => {
            move_amount(tx, place, &transfer)?;
            Ok(0)
        }
        Step::Take(transfer) => {
            let more = take_amount(tx, place, &transfer)?;
            Ok(more)
        }
    }
}
