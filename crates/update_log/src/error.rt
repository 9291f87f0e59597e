use std::alloc::AllocError;
use thiserror::Error;

/// There was no memory.
#[derive(Clone, Copy, Debug, PartialEq, Eq, Error)]
#[error("no memory")]
pub struct NoMemory;

impl From<AllocError> for NoMemory {
    fn from(_: AllocError) -> NoMemory {
        NoMemory
    }
}

impl From<ccr_tables::NoMemory> for NoMemory {
    fn from(_: ccr_tables::NoMemory) -> NoMemory {
        NoMemory
    }
}

impl From<admin_commands::NoMemory> for NoMemory {
    fn from(_: admin_commands::NoMemory) -> NoMemory {
        NoMemory
    }
}
