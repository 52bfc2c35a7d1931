// What an answer of a store is told as: a reply, or why there is none.
ghost use Rattle.std.specs.Prelude.{◌≡◌};
ghost use Rattle.script_model.specs.Step.{found_reply, removed_reply};
ghost use Rattle.script_model.specs.declared.script.Reply.TheVariants as reply;
ghost use Rattle.store_calls.specs.Calls.{file_refusal_of, of_store, refusal_of, refused_access, told};

use iso_model::Bytes;
use script_model::{Reply, Stop};
use store_model::{FsError, StoreError, TxError};

// What an access that is refused is answered, or why there is no reply.
fn refused_access(error: TxError) -> Result<Reply, Stop>
    ensures { result ≡ refused_access error }
{
    match error {
        TxError::TooManyAccesses => Ok(Reply::TooManyAccesses),
        TxError::Memory => Err(Stop::Memory),
        TxError::Disk => Err(Stop::Disk),
        TxError::Down
        | TxError::NotInTx
        | TxError::BadBlock
        | TxError::BadRange
        | TxError::NoAccess
        | TxError::TooManyMarks => Err(Stop::Down),
    }
}

/// What a store that refuses is answered, or why there is no reply.
pub(crate) fn refusal(error: StoreError) -> Result<Reply, Stop>
    ensures { result ≡ refusal_of error }
{
    match error {
        StoreError::BadKey => Ok(Reply::BadKey),
        StoreError::BadValue => Ok(Reply::BadValue),
        StoreError::NoBlocks { need, free } => Ok(Reply::NoBlocks { need, free }),
        StoreError::Broken { block } => Ok(Reply::Broken { block }),
        StoreError::Tx(error) => refused_access(error),
        StoreError::Memory => Err(Stop::Memory),
    }
}

// What a call on files that is refused is answered, or why there is no reply.
fn file_refusal(error: FsError) -> Result<Reply, Stop>
    ensures { result ≡ file_refusal_of error }
{
    match error {
        FsError::BadName => Ok(Reply::BadName),
        FsError::BadRange => Ok(Reply::BadRange),
        FsError::Exists => Ok(Reply::Exists),
        FsError::Store(error) => refusal(error),
    }
}

/// An answer of the hash store or the tree store, as that of a call on files.
pub(crate) fn of_store<R>(answer: Result<R, StoreError>) -> Result<R, FsError>
    ensures { result ≡ of_store answer }
{
    match answer {
        Ok(it) => Ok(it),
        Err(error) => Err(FsError::Store(error)),
    }
}

/// What a call that puts something is told as.
pub(crate) fn done(answer: Result<(), FsError>) -> Result<Reply, Stop>
    ensures { result ≡ told (λ done. reply.Done) answer }
{
    match answer {
        Ok(()) => Ok(Reply::Done),
        Err(error) => file_refusal(error),
    }
}

/// What a call that reads is told as.
pub(crate) fn found(answer: Result<Option<Bytes>, FsError>) -> Result<Reply, Stop>
    ensures { result ≡ told found_reply answer }
{
    match answer {
        Ok(Some(value)) => Ok(Reply::Found(value)),
        Ok(None) => Ok(Reply::Missing),
        Err(error) => file_refusal(error),
    }
}

/// What a call that needs something there is told as.
pub(crate) fn removed(answer: Result<bool, FsError>) -> Result<Reply, Stop>
    ensures { result ≡ told removed_reply answer }
{
    match answer {
        Ok(true) => Ok(Reply::Done),
        Ok(false) => Ok(Reply::Missing),
        Err(error) => file_refusal(error),
    }
}
