ghost use Rattle.std.specs.Prelude.{◌≡◌};
ghost use Rattle.record_disk.specs.declared.error.DiskError.TheVariants.{NoMemory};

use std::alloc::AllocError;

/// How a record was not read or not saved.
#[derive(Clone, Copy, Debug, PartialEq, Eq)]
pub enum Loss {
    /// The disk was stopped in a call.
    Stopped,
    /// A call failed of itself, the disk was not mounted, or the record fits no disk.
    Fault,
}

/// Why a call of a record's disk failed.
#[derive(Clone, Copy, Debug, PartialEq, Eq)]
pub enum DiskError {
    /// The record was not read or not saved.
    Lost(Loss),
    /// Memory ran out.
    NoMemory,
}

impl From<AllocError> for DiskError {
    ghost from_gives = { λ _ e. e ≡ NoMemory };

    fn from(_: AllocError) -> DiskError {
        DiskError::NoMemory
    }
}
