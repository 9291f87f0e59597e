ghost use Rattle.std.specs.Prelude.{◌≡◌};
ghost use Rattle.admin_commands.specs.declared.error.CheckError.TheVariants as because;

use cl_base::Refusal;
use std::alloc::AllocError;
use thiserror::Error;

/// There was no memory.
#[derive(Clone, Copy, Debug, PartialEq, Eq, Error)]
#[error("no memory")]
pub struct NoMemory;

/// Why a command is not accepted.
#[derive(Debug, Drop, Error)]
pub enum CheckError {
    /// It is refused.
    #[error("the command is refused")]
    Refused(Refusal),
    /// There was no memory.
    #[error("no memory")]
    NoMemory,
}

impl From<AllocError> for NoMemory {
    fn from(_: AllocError) -> NoMemory {
        NoMemory
    }
}

impl From<ccr_tables::NoMemory> for NoMemory {
    fn from(_: ccr_tables::NoMemory) -> NoMemory {
        NoMemory
    }
}

impl From<NoMemory> for CheckError {
    ghost from_gives = { λ _ e. e ≡ because.NoMemory };

    fn from(_: NoMemory) -> CheckError {
        CheckError::NoMemory
    }
}
