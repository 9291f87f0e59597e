ghost use Rattle.std.specs.Prelude.{◌≡◌};
ghost use Rattle.rg_deps.specs.declared.error.OrderError.TheVariants.{NoMemory};

use cl_base::Names;
use std::alloc::{AllocError, AllocFailed};
use thiserror::Error;

/// Why there is no order.
#[derive(Debug, Drop, Error)]
pub enum OrderError {
    /// Each of these comes after the next, and the last after the first.
    #[error("a cycle")]
    Cycle(Names),
    /// There was no memory.
    #[error("no memory")]
    NoMemory,
}

impl From<AllocError> for OrderError {
    ghost from_gives = { λ _ e. e ≡ NoMemory };

    fn from(_: AllocError) -> OrderError {
        OrderError::NoMemory
    }
}
