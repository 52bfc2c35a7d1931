// The accounts of an image, as a core shows them.

use crate::account::Account;
use crate::amounts::number_of;
use device_calls::{Job, end_now, hash_get, hash_region, with_device};
use handle_pass::Session;
use iso_disk::Disk;
use iso_model::Geometry;
use iso_recover::open_image;
use iso_shared::Origin;
use std::alloc::Global;
use std::sync::Wait;

/// How many accounts there are, and what they have together.
#[derive(Clone, Copy)]
pub(crate) struct Sum {
    pub(crate) accounts: usize,
    pub(crate) sum: u64,
}

/// The sum by one transaction of a session. No clause speaks of it: it is tested.
#[derive(Drop)]
struct SumOf<'k> {
    accounts: &'k [Account],
}

impl<'k> Job for SumOf<'k> {
    type Answer = Option<Sum>;

    ghost says = { λ job start before now sum. Unit {0} };

    fn run<'a, D: Disk + Drop, O: Origin, R: Wait>(
        self,
        rt: &R,
        alloc: Global,
        session: &mut Session<'a, D, O>,
        geometry: &Geometry,
    ) -> Option<Sum> {
        let region = hash_region(geometry)?;
        session.begin_tx(rt, None).ok()?;
        let mut found: usize = 0;
        let mut sum: u64 = 0;
        for account in self.accounts {
            if let Some(value) = hash_get(rt, alloc, session, region, &account.name).ok()? {
                found = found.checked_add(1)?;
                sum = sum.checked_add(number_of(value.as_slice())?)?;
            }
        }
        end_now(rt, session).ok()?;
        Some(Sum {
            accounts: found,
            sum,
        })
    }
}

/// The accounts of these that there are in the image on this disk; none where it does not open, has no hash store, or a call is refused.
pub(crate) fn sum_on<D: Disk + Drop, R: Wait>(
    rt: &R,
    alloc: Global,
    disk: D,
    accounts: &[Account],
) -> Option<Sum> {
    match open_image(alloc, disk) {
        Ok(core) => {
            let (sum, _core) = with_device(rt, alloc, core, SumOf { accounts });
            sum?
        }
        Err((_error, _disk)) => None,
    }
}
