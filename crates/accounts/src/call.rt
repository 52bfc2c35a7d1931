// What one transaction does with accounts, as a call on any transaction over blocks.

use crate::account::{Account, AccountError, Step};
use crate::moving::do_step;
use device_calls::BlocksCall;
use std::alloc::Global;
use store_model::Region;
use tx_blocks::TxBlocks;

/// A step on these accounts, in the hash store of this region.
#[derive(Drop)]
pub(crate) struct AccountCall<'a> {
    pub(crate) alloc: Global,
    pub(crate) region: Region,
    pub(crate) accounts: &'a [Account],
    pub(crate) step: Step,
}

impl<'a> BlocksCall for AccountCall<'a> {
    ghost use Rattle.std.specs.Prelude.{IfOk};
    ghost use Rattle.accounts.specs.Made.{DoesIn, HasHash, calls_of, opening_of};

    type Answer = Result<u64, AccountError>;

    ghost fits = { λ c t. HasHash t c.region };

    ghost says = { λ c t u before now r. IfOk r (λ n. DoesIn c.region t u (calls_of (opening_of c.accounts.now) c.step n)) };

    fn make<T: TxBlocks>(self, tx: &mut T) -> Result<u64, AccountError> {
        do_step(self.alloc, tx, self.region, self.accounts, self.step)
    }
}
