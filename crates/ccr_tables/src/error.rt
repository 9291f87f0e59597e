ghost use Rattle.std.specs.Prelude.{◌≡◌};
ghost use Rattle.ccr_tables.specs.declared.error.ApplyError.TheVariants as because;

use cl_base::Refusal;
use std::alloc::{AllocError, AllocFailed};
use thiserror::Error;

/// There was no memory.
#[derive(Clone, Copy, Debug, PartialEq, Eq, Error)]
#[error("no memory")]
pub struct NoMemory;

/// Why an update is not applied.
#[derive(Debug, Drop, Error)]
pub enum ApplyError {
    /// It is refused.
    #[error("the update is refused")]
    Refused(Refusal),
    /// There was no memory.
    #[error("no memory")]
    NoMemory,
}

impl From<AllocError> for NoMemory {
    fn from(_: AllocError) -> NoMemory {
        NoMemory
    }
}

impl<T: Drop> From<AllocFailed<T>> for NoMemory {
    fn from(_: AllocFailed<T>) -> NoMemory {
        NoMemory
    }
}

impl From<rt_types::NoMemory> for NoMemory {
    fn from(_: rt_types::NoMemory) -> NoMemory {
        NoMemory
    }
}

impl From<rg_props::NoMemory> for NoMemory {
    fn from(_: rg_props::NoMemory) -> NoMemory {
        NoMemory
    }
}

impl From<NoMemory> for ApplyError {
    ghost from_gives = { λ _ e. e ≡ because.NoMemory };

    fn from(_: NoMemory) -> ApplyError {
        ApplyError::NoMemory
    }
}
