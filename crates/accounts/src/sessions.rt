// Transactions of accounts by a session: each is serial, and one of its own is tried again after a conflict.
ghost use Rattle.std.specs.Prelude.{[], ◌∷◌, IfOk, None, OnErr};
ghost use Rattle.accounts.specs.{Kept.{Gains, Gives, HasStore, IsHalf, HoldsCalls, IsKept, BeginsIdle, KeepsOn, MayBegin, Stays}, Made.{calls_of, opening_of}, Transactions.IsOfAccounts};

use crate::account::{Account, AccountError, Step, Transfer, Work};
use crate::call::AccountCall;
use crate::half::Half;
use device_calls::{end_now, hash_put, on_blocks};
use handle_pass::Session;
use iso_disk::Disk;
use iso_model::{EndReply, Mode};
use iso_shared::{Origin, Tx};
use std::alloc::Global;
use std::sync::Wait;
use store_model::Region;

/// Begins a transaction and makes a step in it. After a refusal there is none.
fn fill<'a, D: Disk + Drop, O: Origin, R: Wait>(
    rt: &R,
    alloc: Global,
    session: &mut Session<'a, D, O>,
    region: Region,
    accounts: &[Account],
    step: Step,
) -> Result<u64, AccountError>
    requires session { MayBegin (opening_of accounts.now) O.start region session.old }
    ensures filled { IfOk result (λ n. HoldsCalls (opening_of accounts.now) (calls_of (opening_of accounts.now) step n) O.start session.new) }
    ensures kept { OnErr result (IsKept (opening_of accounts.now) O.start session.new) }
    ensures stays { Stays session.old session.new }
{
    if let Err(error) = session.begin_tx(rt, Some(Mode::Serial)) {
        return Err(AccountError::Begin(error));
    }
    match on_blocks(
        rt,
        session,
        AccountCall {
            alloc,
            region,
            accounts,
            step,
        },
    ) {
        Ok(answer) => Ok(answer),
        Err(error) => {
            let _ = session.abort_tx(rt);
            Err(error)
        }
    }
}

/// The commit that a reply names. A transaction that has written nothing makes none.
fn commit_in(reply: EndReply) -> Result<u64, AccountError> {
    match reply {
        EndReply::Committed(k) => Ok(k),
        EndReply::ReadOnly => Err(AccountError::Nothing),
        EndReply::Conflict(_) => Err(AccountError::Conflict),
    }
}

/// Ends the transaction of a session, and answers its commit. After a refusal there is none: it is over, or is aborted.
fn end<'a, D: Disk + Drop, O: Origin, R: Wait>(
    rt: &R,
    session: &mut Session<'a, D, O>,
    accounts: &[Account],
) -> Result<u64, AccountError>
    requires session { HoldsCalls (opening_of accounts.now) (IsOfAccounts (opening_of accounts.now)) O.start session.old }
    requires ready { BeginsIdle O.start }
    ensures session { KeepsOn (opening_of accounts.now) O.start session.old session.new }
{
    match end_now(rt, session) {
        Ok(reply) => commit_in(reply),
        Err(error) => {
            let _ = session.abort_tx(rt);
            Err(AccountError::End(error))
        }
    }
}

/// One attempt: a serial transaction of its own, whose commit it answers. `Conflict` says that it may be tried again.
fn attempt<'a, D: Disk + Drop, O: Origin, R: Wait>(
    rt: &R,
    alloc: Global,
    session: &mut Session<'a, D, O>,
    region: Region,
    accounts: &[Account],
    work: Work,
) -> Result<u64, AccountError>
    requires session { MayBegin (opening_of accounts.now) O.start region session.old }
    ensures session { KeepsOn (opening_of accounts.now) O.start session.old session.new }
{
    fill(rt, alloc, session, region, accounts, Step::Whole(work))?;
    end(rt, session, accounts)
}

/// Does the work in a transaction of its own, in `most` attempts at most: after a conflict it is tried again.
pub(crate) fn commit<'a, D: Disk + Drop, O: Origin, R: Wait>(
    rt: &R,
    alloc: Global,
    session: &mut Session<'a, D, O>,
    region: Region,
    accounts: &[Account],
    work: Work,
    most: u32,
) -> Result<u64, AccountError>
    requires session { MayBegin (opening_of accounts.now) O.start region session.old }
    ensures session { KeepsOn (opening_of accounts.now) O.start session.old session.new }
{
    for _ in 0..most {
        match attempt(rt, alloc, session, region, accounts, work) {
            Err(AccountError::Conflict) => {}
            answer => return answer,
        }
    }
    Err(AccountError::Conflict)
}

/// Makes a transfer in a transaction that is given away before its end.
pub(crate) fn give<'a, D: Disk + Drop, O: Origin, R: Wait>(
    rt: &R,
    alloc: Global,
    session: &mut Session<'a, D, O>,
    region: Region,
    accounts: &[Account],
    transfer: &Transfer,
) -> Option<Tx<D, O>>
    requires session { MayBegin (opening_of accounts.now) O.start region session.old }
    ensures given { Gives (opening_of accounts.now) O.start 1 session.old session.new (result ∷ []) None }
{
    match fill(
        rt,
        alloc,
        session,
        region,
        accounts,
        Step::Whole(Work::Move(*transfer)),
    ) {
        Ok(_) => match session.release_tx() {
            Ok(handle) => Some(handle.into_tx()),
            Err(_) => None,
        },
        Err(_) => None,
    }
}

/// Makes the first half of a transfer, and gives its transaction away.
pub(crate) fn give_half<'a, D: Disk + Drop, O: Origin, R: Wait>(
    rt: &R,
    alloc: Global,
    session: &mut Session<'a, D, O>,
    region: Region,
    accounts: &[Account],
    transfer: &Transfer,
) -> Option<Half<D, O>>
    requires session { MayBegin (opening_of accounts.now) O.start region session.old }
    ensures given { Gives (opening_of accounts.now) O.start 1 session.old session.new [] result }
{
    match fill(rt, alloc, session, region, accounts, Step::Take(*transfer)) {
        Ok(more) => match session.release_tx() {
            Ok(handle) => Some(Half {
                handle,
                to: transfer.to,
                more,
            }),
            Err(_) => None,
        },
        Err(_) => None,
    }
}

/// Takes a transfer over that is half made, makes its second half, and ends it.
pub(crate) fn end_half<'a, D: Disk + Drop, O: Origin, R: Wait>(
    rt: &R,
    alloc: Global,
    session: &mut Session<'a, D, O>,
    region: Region,
    accounts: &[Account],
    half: Half<D, O>,
) -> Result<u64, AccountError>
    requires session { IsKept (opening_of accounts.now) O.start session.old }
    requires store { HasStore O.start region }
    requires half { IsHalf (opening_of accounts.now) O.start session.old.device half }
    ensures session { Gains (opening_of accounts.now) O.start session.old session.new 1 }
{
    let Half { handle, to, more } = half;
    if let Err(_) = session.takeover_tx(handle) {
        unreachable!()
    }
    match hash_put(rt, alloc, session, region, &to, &more.to_be_bytes()) {
        Ok(()) => end(rt, session, accounts),
        Err(error) => {
            let _ = session.abort_tx(rt);
            Err(AccountError::Store(error))
        }
    }
}
