// An end that begins again after a conflict.
ghost use Rattle.std.specs.Prelude.{◌<◌};
ghost use Rattle.device_calls.specs.Retries.{HasRetried};

use crate::ending::end_now;
use handle_pass::{BeginError, EndError, Session};
use iso_disk::Disk;
use iso_model::{EndReply, Mode};
use iso_shared::Origin;
use std::sync::Wait;

/// How a transaction ended: it is over, without a conflict; or it met one, and a new one has begun, with this begin.
#[derive(Clone, Copy, Debug, PartialEq, Eq)]
pub enum Retry {
    Ended(EndReply),
    Begun(u64),
}

/// Why an end, or the begin behind it, is refused.
#[derive(Clone, Copy, Debug, PartialEq, Eq)]
pub enum RetryError {
    End(EndError),
    Begin(BeginError),
}

/// Ends the transaction of a session, as `end_now`, and begins a new one in this mode where it met a conflict: its reads are to be made
/// again. After `Begin` the session has none.
///
/// # Errors
///
/// - `End`: as those of `end_now`.
/// - `Begin`: it met a conflict, and as those of `Session::begin_tx`.
pub fn end_or_again<'a, D: Disk + Drop, O: Origin, R: Wait>(
    rt: &R,
    session: &mut Session<'a, D, O>,
    mode: Option<Mode>,
) -> Result<Retry, RetryError>
    requires units { 1 < session.old.units }
    ensures did { HasRetried O.start session.old mode result session.new }
{
    match end_now(rt, session) {
        Ok(EndReply::Conflict(_)) => match session.begin_tx(rt, mode) {
            Ok(at) => Ok(Retry::Begun(at)),
            Err(error) => Err(RetryError::Begin(error)),
        },
        Ok(reply) => Ok(Retry::Ended(reply)),
        Err(error) => Err(RetryError::End(error)),
    }
}
