// What a call did, for contracts alone: it says which entry the call leaves.

use crate::guarded::Posted;
use iso_core::{Begun, GroupEnd, Recent, Stat};
use iso_model::{CoreError, EndReply, Label, Mode};
use std::snapshot::Snapshot;
use tx_table::{PostError, Work};

/// A call, with its arguments and its answer.
#[derive(Drop)]
pub(crate) enum Told<'a> {
    Begin(Option<Mode>, Result<Begun, CoreError>),
    Fetch(u64, u32, &'a [u8], Result<(), CoreError>),
    End(u64, &'a Work, Result<EndReply, CoreError>),
    EndGroup(&'a [GroupEnd], Result<(), CoreError>),
    Abort(u64),
    Trim(Result<u64, CoreError>),
    Compact(Result<u64, CoreError>),
    Upgrade(Result<u64, CoreError>),
    Stat(Stat),
    Post(Snapshot<Label>, Snapshot<Posted>, Result<(), PostError>),
    Look(&'a Label, &'a Option<Posted>),
    Sweep(Option<u64>),
    Recent(u64, &'a Result<Recent, CoreError>),
}
