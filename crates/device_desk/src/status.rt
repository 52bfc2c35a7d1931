// What an answer comes to, in one word.
ghost use Rattle.std.specs.Prelude.{◌≡◌};
ghost use Rattle.device_desk.specs.Status.{status_of};

use script_model::{Reply, Stop};

/// What an answer comes to. `Done` is each answer that refuses nothing; what it tells stands in the reply.
#[derive(Clone, Copy, Debug, PartialEq, Eq)]
pub enum Status {
    Done,
    /// A commit behind the begin wrote what the transaction read: it is gone, and nothing of it stands.
    Conflict,
    /// No such key, pair or file.
    Missing,
    /// The name has a file.
    Exists,
    /// The record has no room in the log. The transaction stays.
    LogFull,
    TooManyTransactions,
    /// The image has transactions of its own mode alone, until it is upgraded.
    ModeFixed,
    BadBlock,
    BadRange,
    NoAccess,
    TooManyMarks,
    TooManyAccesses,
    NoStore,
    StoreMode,
    BadKey,
    BadValue,
    BadName,
    NoBlocks,
    Broken,
    /// The numbers are used up.
    Worn,
    /// Want of memory, and nothing was made.
    Memory,
    /// The disk failed.
    Disk,
    /// An earlier call took the desk down.
    Down,
    /// No live transaction has the number.
    NoTransaction,
}

/// What an answer comes to.
pub fn status_of(answer: &Result<Reply, Stop>) -> Status
    ensures { result ≡ status_of answer.now }
{
    match answer {
        Ok(reply) => status_of_reply(reply),
        Err(Stop::Down) => Status::Down,
        Err(Stop::Disk) => Status::Disk,
        Err(Stop::Memory) => Status::Memory,
    }
}

/// What a reply comes to.
pub fn status_of_reply(reply: &Reply) -> Status
    ensures { result ≡ status_of (Ok reply.now) }
{
    match reply {
        Reply::Conflict(_) => Status::Conflict,
        Reply::Missing => Status::Missing,
        Reply::Exists => Status::Exists,
        Reply::LogFull { .. } => Status::LogFull,
        Reply::TooManyTx => Status::TooManyTransactions,
        Reply::ModeFixed => Status::ModeFixed,
        Reply::BadBlock => Status::BadBlock,
        Reply::BadRange => Status::BadRange,
        Reply::NoAccess => Status::NoAccess,
        Reply::TooManyMarks => Status::TooManyMarks,
        Reply::TooManyAccesses => Status::TooManyAccesses,
        Reply::NoStore => Status::NoStore,
        Reply::StoreMode => Status::StoreMode,
        Reply::BadKey => Status::BadKey,
        Reply::BadValue => Status::BadValue,
        Reply::BadName => Status::BadName,
        Reply::NoBlocks { .. } => Status::NoBlocks,
        Reply::Broken { .. } => Status::Broken,
        Reply::Worn => Status::Worn,
        Reply::NotInTx => Status::NoTransaction,
        Reply::Done
        | Reply::Began(_)
        | Reply::Shown(_)
        | Reply::Committed(_)
        | Reply::ReadOnly
        | Reply::Grouped(_)
        | Reply::Trimmed(_)
        | Reply::Compacted(_)
        | Reply::Upgraded(_)
        | Reply::Numbers { .. }
        | Reply::Found(_)
        | Reply::Pairs(_)
        | Reply::InTx
        | Reply::NoHandle
        | Reply::LabelTaken => Status::Done,
    }
}
