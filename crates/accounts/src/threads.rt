// What threads do: transactions of their own, some that are given away, and a group of those.
ghost use Rattle.std.specs.Prelude.{◌≡◌, ◌+◌, ◌≤◌, IfSome, None, length};
ghost use Rattle.iso_core.specs.declared.group_end.TheConstants.{MAX_GROUP};
ghost use Rattle.iso_shared.specs.Ports.{port_view};
ghost use Rattle.group_commit.specs.Groups.{found_in, units_all};
ghost use Rattle.handle_pass.specs.Sessions.{device_of};
ghost use Rattle.accounts.specs.{Kept.{AreGiven, BeginsIdle, Gains, Gives, HasStore, IsHalf, IsKept, IsKeptPort, KeepsOn, MayBegin, MayGive, half_units}, Learned.{AreTold, told_units}, Made.opening_of};

use crate::account::{Account, AccountError, Transfer, Work};
use crate::half::Half;
use crate::sessions::{commit, end_half, give};
use group_commit::{Ended, commit_each};
use handle_pass::Session;
use iso_disk::Disk;
use iso_model::CoreError;
use iso_shared::{Origin, Port, Shared, Tx};
use std::alloc::Global;
use std::sync::Wait;
use store_model::Region;

/// Makes all of these transfers, each in a transaction of its own, and answers how many were committed.
pub(crate) fn commit_all<'a, D: Disk + Drop, O: Origin, R: Wait>(
    rt: &R,
    alloc: Global,
    session: &mut Session<'a, D, O>,
    region: Region,
    accounts: &[Account],
    transfers: &[Transfer],
    most: u32,
) -> u32
    requires session { MayBegin (opening_of accounts.now) O.start region session.old }
    ensures session { KeepsOn (opening_of accounts.now) O.start session.old session.new }
{
    let mut done: u32 = 0;
    for transfer in transfers {
        let work = Work::Move(*transfer);
        if commit(rt, alloc, session, region, accounts, work, most).is_ok() {
            done = done.saturating_add(1);
        }
    }
    done
}

/// Makes all of these transfers in transactions that are given away. Without memory it makes none.
pub(crate) fn give_all<'a, D: Disk + Drop, O: Origin, R: Wait>(
    rt: &R,
    alloc: Global,
    session: &mut Session<'a, D, O>,
    region: Region,
    accounts: &[Account],
    transfers: &[Transfer],
) -> Vec<Option<Tx<D, O>>>
    requires session { MayGive (opening_of accounts.now) O.start region session.old }
    requires few { length transfers.now ≤ MAX_GROUP }
    ensures few { length result.items ≤ MAX_GROUP }
    ensures given { Gives (opening_of accounts.now) O.start MAX_GROUP session.old session.new result.items None }
{
    let mut members = Vec::new(alloc);
    if let Err(_) = members.reserve(transfers.len()) {
        return members;
    }
    for transfer in transfers {
        let member = give(rt, alloc, session, region, accounts, transfer);
        members.push_reserved(member);
    }
    members
}

// Ends transactions that were given away as one group, of which each is told how it ended.
fn end_group<D: Disk + Drop, O: Origin, R: Wait>(
    rt: &R,
    alloc: Global,
    shared: &Shared<D, O>,
    port: &mut Port<D, O>,
    accounts: &[Account],
    members: Vec<Option<Tx<D, O>>>,
) -> Result<Vec<Ended<D, O>>, CoreError>
    requires port { IsKeptPort shared.now (opening_of accounts.now) O.start port.old }
    requires ready { BeginsIdle O.start }
    requires few { length members.items ≤ MAX_GROUP }
    requires given { AreGiven (opening_of accounts.now) O.start (device_of shared.now) members.items }
    ensures port { IsKeptPort shared.now (opening_of accounts.now) O.start port.new }
    ensures units { (port_view port.new).units + told_units result ≡ units_all (port_view port.old) (found_in members.items) }
    ensures told { AreTold shared.now O.start (found_in members.items) result }
{
    match commit_each(rt, alloc, shared, port, members) {
        Ok(told) => Ok(told),
        Err(error) => Err(error),
    }
}

/// Ends those that lie in this place as one group, of which each is told how it ended; then the place is empty.
pub(crate) fn end_members<D: Disk + Drop, O: Origin, R: Wait>(
    rt: &R,
    alloc: Global,
    shared: &Shared<D, O>,
    port: &mut Port<D, O>,
    accounts: &[Account],
    place: &mut Option<Vec<Option<Tx<D, O>>>>,
) -> Result<Vec<Ended<D, O>>, CoreError>
    requires port { IsKeptPort shared.now (opening_of accounts.now) O.start port.old }
    requires ready { BeginsIdle O.start }
    requires few { IfSome place.old (λ v. length v.items ≤ MAX_GROUP) }
    requires given { IfSome place.old (λ v. AreGiven (opening_of accounts.now) O.start (device_of shared.now) v.items) }
    ensures port { IsKeptPort shared.now (opening_of accounts.now) O.start port.new }
    ensures units { IfSome place.old (λ v. (port_view port.new).units + told_units result ≡ units_all (port_view port.old) (found_in v.items)) }
    ensures told { IfSome place.old (λ v. AreTold shared.now O.start (found_in v.items) result) }
    ensures place { place.new ≡ None }
{
    match place.take() {
        None => Err(CoreError::Memory),
        Some(members) => end_group(rt, alloc, shared, port, accounts, members),
    }
}

/// Makes the second half of the transfer that lies in this place, and ends it; then the place is empty.
pub(crate) fn end_taken<'a, D: Disk + Drop, O: Origin, R: Wait>(
    rt: &R,
    alloc: Global,
    session: &mut Session<'a, D, O>,
    region: Region,
    accounts: &[Account],
    place: &mut Option<Half<D, O>>,
) -> Result<u64, AccountError>
    requires session { IsKept (opening_of accounts.now) O.start session.old }
    requires store { HasStore O.start region }
    requires half { IfSome place.old (IsHalf (opening_of accounts.now) O.start session.old.device) }
    ensures session { Gains (opening_of accounts.now) O.start session.old session.new (half_units place.old) }
    ensures place { place.new ≡ None }
{
    match place.take() {
        None => Err(AccountError::NotTaken),
        Some(half) => end_half(rt, alloc, session, region, accounts, half),
    }
}
