ghost use Rattle.std.specs.Prelude.{◌≡◌, ◌≢◌, ℕ};
ghost use Rattle.pgr_device.specs.Allowed.{IsAllowed};
ghost use Rattle.pgr_device.specs.Device.{Device};
ghost use Rattle.pgr_device.specs.Ports.{IsPortCall, HasCause};

use crate::command::{PrAnswer, PrCommand};
use cl_base::DevId;
use std::alloc::AllocError;
use thiserror::Error;

/// The command failed: the device did it or did not, and its answer is lost.
#[derive(Clone, Copy, Debug, PartialEq, Eq, Error)]
#[error("the device's command failed")]
pub struct Failed;

/// Why a port gave no answer.
#[derive(Clone, Copy, Debug, PartialEq, Eq, Error)]
pub enum PortError {
    /// The command failed: the device did it or did not.
    #[error("the device's command failed")]
    Failed,
    /// Memory is wanting: the device did the command or did not.
    #[error("out of memory")]
    NoMemory,
}

impl From<AllocError> for PortError {
    ghost use Rattle.std.specs.Prelude.{◌≡◌};
    ghost use Rattle.pgr_device.specs.declared.port.PortError.TheVariants.{NoMemory};

    ghost from_gives = { λ _ e. e ≡ NoMemory };

    fn from(_: AllocError) -> PortError {
        PortError::NoMemory
    }
}

/// One node's way to one device.
pub trait Port {
    /// The node whose way it is.
    ghost node: { Self → ℕ };

    /// The device at its end.
    ghost device: { Self → Device };

    /// How many commands failed so far.
    ghost faults: { Self → ℕ };

    /// Sends a command to the device, and gives its answer. The sender of a `Preempt` names a
    /// victim's key that is neither zero nor its own.
    fn execute(&mut self, command: PrCommand) -> Result<PrAnswer, PortError>
        requires { IsAllowed command }
        ensures call { IsPortCall (device self.old) (device self.new) (node self.old) command result }
        ensures same { node self.new ≡ node self.old }
        ensures cause { HasCause (faults self.old) (faults self.new) result };
}

/// One node's ways to all devices.
pub trait Ports {
    /// The node whose ways they are.
    ghost node: { Self → ℕ };

    /// The device of each number.
    ghost device: { Self → ℕ → Device };

    /// How many commands failed so far.
    ghost faults: { Self → ℕ };

    /// Sends a command to one device, and gives its answer. All others stay as they are. The
    /// sender of a `Preempt` names a victim's key that is neither zero nor its own.
    fn execute(&mut self, dev: DevId, command: PrCommand) -> Result<PrAnswer, PortError>
        requires { IsAllowed command }
        ensures call { IsPortCall (device self.old dev) (device self.new dev) (node self.old) command result }
        ensures others { (other : ℕ) → other ≢ dev → device self.new other ≡ device self.old other }
        ensures same { node self.new ≡ node self.old }
        ensures cause { HasCause (faults self.old) (faults self.new) result };
}
