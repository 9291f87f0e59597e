ghost use Rattle.std.specs.Prelude.{◌≡◌};
ghost use Rattle.interpreter.specs.declared.stop.Stop.TheVariants.{NoMemory, Refused};

use schedule_text::{Kind, ReadError};
use std::alloc::{AllocError, AllocFailed};

/// Why reading stops. It does so at the line that was read last.
#[derive(Clone, Copy)]
pub enum Stop {
    /// The schedule ended.
    Ended,
    /// The line is refused.
    Refused(Kind),
    /// The line is too long, or one too many.
    TooLarge,
    /// There is no memory.
    NoMemory,
}

impl From<AllocError> for Stop {
    ghost from_gives = { λ _ e. e ≡ NoMemory };

    fn from(_: AllocError) -> Stop {
        Stop::NoMemory
    }
}

impl From<Kind> for Stop {
    ghost from_gives = { λ kind e. e ≡ Refused kind };

    fn from(kind: Kind) -> Stop {
        Stop::Refused(kind)
    }
}

impl From<ReadError> for Stop {
    ghost use Rattle.interpreter.specs.Sessions.{unread};

    ghost from_gives = { λ error e. e ≡ unread error };

    fn from(error: ReadError) -> Stop {
        match error {
            ReadError::Refused(kind) => Stop::Refused(kind),
            ReadError::NoMemory => Stop::NoMemory,
        }
    }
}

impl<T: Drop> From<AllocFailed<T>> for Stop {
    ghost from_gives = { λ _ e. e ≡ NoMemory };

    fn from(_: AllocFailed<T>) -> Stop {
        Stop::NoMemory
    }
}
