// One account in the hash store, by any transaction over blocks.
ghost use Rattle.std.specs.{Prelude.{◌≡◌, ◌<◌, [], ◌∷◌, IfOk, IfSome, None, OnOk}, Int.{to_be_bytes, w64}};
ghost use Rattle.accounts.specs.{Made.{AddsIn, FindsAmount, HasHash}, Sums.amount};
ghost use Rattle.store_laws.specs.Calls.{Get, Got, Put, WasPut};

use crate::account::AccountError;
use iso_hash::{get, put};
use std::alloc::Global;
use store_model::Region;
use tx_blocks::TxBlocks;

/// Where the accounts are, and the memory that calls on them take.
#[derive(Clone, Copy)]
pub(crate) struct Place {
    pub alloc: Global,
    pub region: Region,
}

/// The number that a value of eight bytes is.
pub(crate) fn number_of(value: &[u8]) -> Option<u64>
    ensures { IfSome result (λ n. (amount value.now ≡ n) × (n < 18446744073709551616)) }
{
    match value {
        [a, b, c, d, e, f, g, h] => Some(u64::from_be_bytes([*a, *b, *c, *d, *e, *f, *g, *h])),
        _ => None,
    }
}

/// The amount of an account.
pub(crate) fn amount_at<T: TxBlocks>(
    tx: &mut T,
    place: Place,
    name: &[u8],
) -> Result<u64, AccountError>
    requires store { HasHash (T.state tx.old) place.region }
    ensures got { IfOk result (FindsAmount place.region (T.state tx.old) (T.state tx.new) name.now) }
{
    match get(place.alloc, tx, place.region, name) {
        Ok(Some(value)) => match number_of(value.as_slice()) {
            Some(n) => Ok(n),
            None => Err(AccountError::NoAmount),
        },
        Ok(None) => Err(AccountError::NoAccount),
        Err(error) => Err(AccountError::Store(error)),
    }
}

/// That there is no such account.
pub(crate) fn is_free<T: TxBlocks>(
    tx: &mut T,
    place: Place,
    name: &[u8],
) -> Result<(), AccountError>
    requires store { HasHash (T.state tx.old) place.region }
    ensures got { OnOk result (AddsIn place.region (T.state tx.old) (T.state tx.new) (Get name.now ∷ []) (Got None ∷ [])) }
{
    match get(place.alloc, tx, place.region, name) {
        Ok(Some(_)) => Err(AccountError::IsOpen),
        Ok(None) => Ok(()),
        Err(error) => Err(AccountError::Store(error)),
    }
}

/// Gives an account this amount.
pub(crate) fn set_amount<T: TxBlocks>(
    tx: &mut T,
    place: Place,
    name: &[u8],
    amount: u64,
) -> Result<(), AccountError>
    requires store { HasHash (T.state tx.old) place.region }
    ensures put { OnOk result (AddsIn place.region (T.state tx.old) (T.state tx.new) (Put name.now (to_be_bytes w64 amount) ∷ []) (WasPut ∷ [])) }
{
    match put(place.alloc, tx, place.region, name, &amount.to_be_bytes()) {
        Ok(()) => Ok(()),
        Err(error) => Err(AccountError::Store(error)),
    }
}
