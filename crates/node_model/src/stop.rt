ghost use Rattle.std.specs.Prelude.{◌≡◌};
ghost use Rattle.node_model.specs.declared.stop.Stop.TheVariants.{NoMemory};

use status_report::DownCause;
use std::alloc::{AllocError, AllocFailed};

/// Why a step of a node that is up does not leave it up.
#[derive(Clone, Copy)]
pub enum Stop {
    /// It goes down.
    Down(DownCause),
    /// There is no memory: the run ends.
    NoMemory,
}

impl From<AllocError> for Stop {
    ghost from_gives = { λ _ e. e ≡ NoMemory };

    fn from(_: AllocError) -> Stop {
        Stop::NoMemory
    }
}

impl<T: Drop> From<AllocFailed<T>> for Stop {
    ghost from_gives = { λ _ e. e ≡ NoMemory };

    fn from(_: AllocFailed<T>) -> Stop {
        Stop::NoMemory
    }
}
