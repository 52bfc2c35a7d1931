// The accounts, and the transfers between them.
ghost use Rattle.std.specs.Prelude.{◌≤◌, length};
ghost use Rattle.iso_core.specs.declared.group_end.TheConstants.{MAX_GROUP};

use crate::account::{Account, Plan, Transfer};

/// Eight accounts, what is handed from thread to thread, and what each of the two threads moves beside that.
#[derive(Drop)]
pub(crate) struct Bank {
    accounts: [Account; 8],
    handed: [Transfer; 3],
    halved: Transfer,
    first: [Transfer; 3],
    second: [Transfer; 3],
}

// An account that opens with 100.
fn account(name: [u8; 8]) -> Account {
    Account { name, amount: 100 }
}

fn transfer(from: [u8; 8], to: [u8; 8], amount: u64) -> Transfer {
    Transfer { from, to, amount }
}

impl Bank {
    pub(crate) fn new() -> Bank {
        let [ann, bob, cid, dan] = [*b"ann-0001", *b"bob-0001", *b"cid-0001", *b"dan-0001"];
        let [eva, fay, gus, hal] = [*b"eva-0001", *b"fay-0001", *b"gus-0001", *b"hal-0001"];
        Bank {
            accounts: [
                account(ann),
                account(bob),
                account(cid),
                account(dan),
                account(eva),
                account(fay),
                account(gus),
                account(hal),
            ],
            handed: [
                transfer(ann, bob, 30),
                transfer(cid, dan, 20),
                transfer(eva, ann, 9),
            ],
            halved: transfer(dan, eva, 15),
            first: [
                transfer(bob, cid, 70),
                transfer(cid, hal, 1),
                transfer(gus, fay, 40),
            ],
            second: [
                transfer(bob, ann, 5),
                transfer(ann, cid, 9),
                transfer(hal, gus, 100),
            ],
        }
    }

    /// Each transfer of a thread's own is tried again after each conflict.
    pub(crate) fn plan(&self) -> Plan
        ensures { length result.handed.now ≤ MAX_GROUP }
    {
        Plan {
            accounts: &self.accounts,
            handed: &self.handed,
            halved: self.halved,
            first: &self.first,
            second: &self.second,
            most: 1000,
        }
    }
}
