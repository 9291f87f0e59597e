use cl_base::{DevId, Epoch, NodeId};
use pgr_device::{PrAnswer, PrCommand};

/// What a node has of a command to a device.
#[derive(Clone, Copy)]
pub enum DeviceAnswer {
    /// The device's answer.
    Given(PrAnswer),
    /// The command failed; whether it was done is not known.
    Failed,
}

/// Why a write is refused.
#[derive(Clone, Copy)]
pub enum WriteRefusal {
    /// The node is no member.
    NotMember,
    /// It is not attached to the device.
    NoPath,
    /// Its membership does not hold the device, or it has not joined it.
    NotHeld,
    /// The device refused the write: the node is fenced.
    Fenced,
    /// The command failed.
    Fault,
}

/// What a node does at a device.
#[derive(Clone, Copy)]
pub enum DeviceEntry {
    /// A command and its answer.
    Command {
        /// The node.
        node: NodeId,
        /// The device.
        device: DevId,
        /// The command.
        command: PrCommand,
        /// The answer.
        answer: DeviceAnswer,
    },
    /// A write that the device took.
    Accepted {
        /// The epoch of the node's membership.
        epoch: Epoch,
        /// The node.
        node: NodeId,
        /// The device.
        device: DevId,
        /// What it wrote.
        value: u64,
    },
    /// A write that was refused.
    Refused {
        /// The node.
        node: NodeId,
        /// The device.
        device: DevId,
        /// What it would have written.
        value: u64,
        /// Why.
        cause: WriteRefusal,
    },
}
