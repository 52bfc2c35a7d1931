// The numbers of statuses, which stay as they are.
ghost use Rattle.std.specs.Prelude.{◌≡◌};
ghost use Rattle.isotope_c.specs.{Codes.{code_of, code_of_open}, Told.{code as answer_code}};

use device_desk::{Status, status_of};
use iso_image::OpenError;
use script_model::{Reply, Stop};

/// More transactions than may be live.
pub(crate) const TOO_MANY: i32 = 5;

/// Beyond the image.
pub(crate) const BAD_RANGE: i32 = 8;

/// Want of memory, and nothing was made.
pub(crate) const MEMORY: i32 = 20;

/// An earlier call took the device down.
pub(crate) const DOWN: i32 = 22;

/// No live transaction has the number.
pub(crate) const NO_TRANSACTION: i32 = 23;

/// The slot has no open device.
pub(crate) const CLOSED: i32 = 24;

/// The slot is not empty.
pub(crate) const IN_USE: i32 = 25;

/// The bytes are no image of this project.
pub(crate) const NO_IMAGE: i32 = 26;

/// No image has such numbers.
pub(crate) const BAD_GEOMETRY: i32 = 27;

/// The slice is not as long as what is shown.
pub(crate) const TOO_SMALL: i32 = 28;

/// No such mode.
pub(crate) const BAD_MODE: i32 = 29;

/// The image is refused: damaged, or of a form or size that it may not have.
pub(crate) const DAMAGED: i32 = 35;

/// The number of a status.
pub(crate) fn code(status: Status) -> i32
    ensures { result ≡ code_of status }
{
    match status {
        Status::Done => 0,
        Status::Conflict => 1,
        Status::Missing => 2,
        Status::Exists => 3,
        Status::LogFull => 4,
        Status::TooManyTransactions => 5,
        Status::ModeFixed => 6,
        Status::BadBlock => 7,
        Status::BadRange => 8,
        Status::NoAccess => 9,
        Status::TooManyMarks => 10,
        Status::TooManyAccesses => 11,
        Status::NoStore => 12,
        Status::StoreMode => 13,
        Status::BadKey => 14,
        Status::BadValue => 15,
        Status::BadName => 16,
        Status::NoBlocks => 17,
        Status::Broken => 18,
        Status::Worn => 19,
        Status::Memory => 20,
        Status::Disk => 21,
        Status::Down => 22,
        Status::NoTransaction => 23,
    }
}

/// The number of an answer's status.
pub(crate) fn code_of(answer: &Result<Reply, Stop>) -> i32
    ensures { result ≡ answer_code answer.now }
{
    code(status_of(answer))
}

/// The number for an image that did not open.
pub(crate) fn code_of_open(error: OpenError) -> i32
    ensures { result ≡ code_of_open error }
{
    match error {
        OpenError::NotIsotope => NO_IMAGE,
        OpenError::Disk => 21,
        OpenError::Memory => MEMORY,
        OpenError::BadGeometry { .. }
        | OpenError::WrongSize { .. }
        | OpenError::NoHalf
        | OpenError::Damaged { .. }
        | OpenError::UnknownForm { .. } => DAMAGED,
    }
}
