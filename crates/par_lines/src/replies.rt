// What the answers of a session's calls are for a client: replies, or that it stops.
ghost use Rattle.std.specs.Prelude.{◌≡◌};
ghost use Rattle.par_lines.specs.Replies as spec;

use handle_pass::{BeginError, EndError, PostTxError};
use iso_core::Stat;
use iso_model::{CoreError, EndReply, InTx, LabelReplies, NotInTx};
use script_model::{Reply, Stop, refused};
use store_model::TxError;

pub(crate) fn begun(answer: Result<u64, BeginError>) -> Result<Reply, Stop>
    ensures { result ≡ spec.begun answer }
{
    match answer {
        Ok(at) => Ok(Reply::Began(at)),
        Err(BeginError::InTx) => Ok(Reply::InTx),
        Err(BeginError::Core(error)) => refused(error),
    }
}

pub(crate) fn not_ended(error: EndError) -> Result<Reply, Stop>
    ensures { result ≡ spec.not_ended error }
{
    match error {
        EndError::NotInTx => Ok(Reply::NotInTx),
        EndError::Core(error) => refused(error),
    }
}

pub(crate) fn ended(answer: Result<EndReply, EndError>) -> Result<Reply, Stop>
    ensures { result ≡ spec.ended answer }
{
    match answer {
        Ok(EndReply::Committed(number)) => Ok(Reply::Committed(number)),
        Ok(EndReply::ReadOnly) => Ok(Reply::ReadOnly),
        Ok(EndReply::Conflict(clash)) => Ok(Reply::Conflict(clash)),
        Err(error) => not_ended(error),
    }
}

pub(crate) fn aborted(answer: Result<(), NotInTx>) -> Result<Reply, Stop>
    ensures { result ≡ spec.aborted answer }
{
    match answer {
        Ok(()) => Ok(Reply::Done),
        Err(_) => Ok(Reply::NotInTx),
    }
}

pub(crate) fn posted(answer: Result<(), PostTxError>) -> Result<Reply, Stop>
    ensures { result ≡ spec.posted answer }
{
    match answer {
        Ok(()) => Ok(Reply::Done),
        Err(PostTxError::NotInTx) => Ok(Reply::NotInTx),
        Err(PostTxError::LabelTaken) => Ok(Reply::LabelTaken),
        Err(PostTxError::Memory) => Err(Stop::Memory),
    }
}

pub(crate) fn looked(answer: Result<Option<u64>, InTx>) -> Result<Reply, Stop>
    ensures { result ≡ spec.looked answer }
{
    match answer {
        Ok(Some(at)) => Ok(Reply::Began(at)),
        Ok(None) => Ok(Reply::NoHandle),
        Err(_) => Ok(Reply::InTx),
    }
}

pub(crate) fn grouped(answer: Result<LabelReplies, CoreError>) -> Result<Reply, Stop>
    ensures { result ≡ spec.grouped answer }
{
    match answer {
        Ok(answers) => Ok(Reply::Grouped(answers)),
        Err(error) => refused(error),
    }
}

pub(crate) fn trimmed(answer: Result<u64, CoreError>) -> Result<Reply, Stop>
    ensures { result ≡ spec.trimmed answer }
{
    match answer {
        Ok(number) => Ok(Reply::Trimmed(number)),
        Err(error) => refused(error),
    }
}

pub(crate) fn compacted(answer: Result<u64, CoreError>) -> Result<Reply, Stop>
    ensures { result ≡ spec.compacted answer }
{
    match answer {
        Ok(number) => Ok(Reply::Compacted(number)),
        Err(error) => refused(error),
    }
}

pub(crate) fn upgraded(answer: Result<u64, CoreError>) -> Result<Reply, Stop>
    ensures { result ≡ spec.upgraded answer }
{
    match answer {
        Ok(number) => Ok(Reply::Upgraded(number)),
        Err(error) => refused(error),
    }
}

pub(crate) fn numbers(stat: Stat) -> Reply
    ensures { result ≡ spec.numbers stat }
{
    Reply::Numbers {
        last: stat.last,
        base: stat.base,
        trim: stat.trim,
        live: stat.live,
        used: stat.used,
        versions: stat.versions,
    }
}

pub(crate) fn accessed(answer: Result<(), TxError>) -> Result<Reply, Stop>
    ensures { result ≡ spec.accessed answer }
{
    match answer {
        Ok(()) => Ok(Reply::Done),
        Err(TxError::NotInTx) => Ok(Reply::NotInTx),
        Err(TxError::BadBlock) => Ok(Reply::BadBlock),
        Err(TxError::BadRange) => Ok(Reply::BadRange),
        Err(TxError::NoAccess) => Ok(Reply::NoAccess),
        Err(TxError::TooManyMarks) => Ok(Reply::TooManyMarks),
        Err(TxError::TooManyAccesses) => Ok(Reply::TooManyAccesses),
        Err(TxError::Memory) => Err(Stop::Memory),
        Err(TxError::Down) => Err(Stop::Down),
        Err(TxError::Disk) => Err(Stop::Disk),
    }
}
