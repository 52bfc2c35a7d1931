// What the top call ends with.
ghost use Rattle.std.specs.Prelude.{◌≡◌};
ghost use Rattle.iso_top.specs.{Prints.Printed, Texts.{end_status, error_status, error_text, script_error_status}};

use crate::last_line::{error_line, put_last};
use iso_image::OpenError;
use iso_io::Sink;
use script_runner::{RunEnd, ScriptError};

/// What the top call ends with: the status of the program, and the image.
#[derive(Drop)]
pub struct Ended<I> {
    pub status: u8,
    pub image: I,
}

/// The status of a call that began no script.
pub(crate) fn error_status(error: OpenError) -> u8
    ensures { result ≡ error_status error }
{
    match error {
        OpenError::Disk => 5,
        OpenError::Memory => 8,
        OpenError::NotIsotope
        | OpenError::BadGeometry { .. }
        | OpenError::WrongSize { .. }
        | OpenError::NoHalf
        | OpenError::Damaged { .. }
        | OpenError::UnknownForm { .. } => 4,
    }
}

/// The status of a call that ran no line of its script.
pub(crate) fn script_error_status(error: ScriptError) -> u8
    ensures { result ≡ script_error_status error }
{
    match error {
        ScriptError::BadLine(_) => 3,
        ScriptError::Input => 6,
        ScriptError::Memory => 8,
    }
}

/// Puts the line that says why no script was begun, and hands the image back.
pub(crate) fn refused<I, K: Sink>(output: &mut K, error: OpenError, image: I) -> Ended<I>
    ensures status { result.status ≡ error_status error }
    ensures image { result.image ≡ image }
    ensures printed { Printed (K.state output.old) (K.state output.new) (error_text error) }
{
    put_last(output, error_line(error).as_slice());
    let status = error_status(error);
    Ended { status, image }
}

/// The status that goes with the end of a run.
pub(crate) fn end_status(end: RunEnd) -> u8
    ensures { result ≡ end_status end }
{
    match end {
        RunEnd::Done => 0,
        RunEnd::BadLine(_) => 3,
        RunEnd::Disk => 5,
        RunEnd::Input => 6,
        RunEnd::Output => 7,
        RunEnd::Memory => 8,
    }
}
