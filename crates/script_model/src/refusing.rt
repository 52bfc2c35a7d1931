// What a call of a core that is refused is answered.
ghost use Rattle.std.specs.Prelude.{◌≡◌};
ghost use Rattle.script_model.specs.CoreReplies.{refused};

use crate::script::Reply;
use crate::stop::Stop;
use iso_model::CoreError;

/// The reply for an error of a core.
///
/// # Errors
///
/// An error that has no reply: `Down`, `Disk` and `Memory`, each as the stop of its name.
#[inline]
pub fn refused(error: CoreError) -> Result<Reply, Stop>
    ensures { result ≡ refused error }
{
    match error {
        CoreError::Down => Err(Stop::Down),
        CoreError::TooManyTx => Ok(Reply::TooManyTx),
        CoreError::LogFull { need, free } => Ok(Reply::LogFull { need, free }),
        CoreError::Disk => Err(Stop::Disk),
        CoreError::Memory => Err(Stop::Memory),
        CoreError::Worn { .. } => Ok(Reply::Worn),
        CoreError::ModeFixed => Ok(Reply::ModeFixed),
    }
}
