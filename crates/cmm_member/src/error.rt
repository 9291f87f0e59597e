ghost use Rattle.std.specs.Prelude.{◌≡◌};
ghost use Rattle.cmm_member.specs.declared.error.InstallError.TheVariants.{NoMemory};

use crate::forming::FormingNode;
use cl_base::Epoch;
use std::alloc::AllocError;
use thiserror::Error;

/// Why a node did not install.
#[derive(Debug, Drop)]
pub enum InstallError {
    /// The node is not in the session of that attempt; the node as it was, and its promise.
    Refused(FormingNode, Epoch),
    /// Memory ran out.
    NoMemory,
}

impl From<AllocError> for InstallError {
    ghost from_gives = { λ _ e. e ≡ NoMemory };

    fn from(_: AllocError) -> InstallError {
        InstallError::NoMemory
    }
}

/// The node has not joined the device in this membership.
#[derive(Clone, Copy, Debug, PartialEq, Eq, Error)]
#[error("the device is not joined")]
pub struct NotHeld;
