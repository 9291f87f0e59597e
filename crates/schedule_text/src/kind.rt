ghost use Rattle.std.specs.Prelude.{◌≡◌};
ghost use Rattle.schedule_text.specs.declared.kind.ReadError.TheVariants.{NoMemory, Refused};

use std::alloc::AllocError;
use thiserror::Error;

/// Why a line is refused: the first that fits.
#[derive(Clone, Copy, Debug, PartialEq, Eq)]
pub enum Kind {
    /// The line is not the header line that is wanted there.
    Header,
    /// The line has no form of the schedule.
    Line,
    /// The line has a form that is not built yet.
    NotBuilt,
    /// A number is outside its range, or out of order.
    Number,
    /// A node or a device is named that the header lacks.
    Unknown,
}

/// A line was not read.
#[derive(Clone, Copy, Debug, PartialEq, Eq, Error)]
pub enum ReadError {
    /// The line is refused.
    #[error("the line is refused")]
    Refused(Kind),
    /// There is no memory for its words.
    #[error("out of memory")]
    NoMemory,
}

impl From<AllocError> for ReadError {
    ghost from_gives = { λ _ e. e ≡ NoMemory };

    fn from(_: AllocError) -> ReadError {
        ReadError::NoMemory
    }
}

impl From<Kind> for ReadError {
    ghost from_gives = { λ kind e. e ≡ Refused kind };

    fn from(kind: Kind) -> ReadError {
        ReadError::Refused(kind)
    }
}
