use cl_base::{DropCause, NodeId};
use thiserror::Error;

/// What became of a send.
#[derive(Clone, Copy, Debug, PartialEq, Eq)]
pub struct Sent {
    /// The number of the packet that is in flight now, if it is.
    pub number: Option<u64>,
    /// The number of a packet that was dropped, and why.
    pub dropped: Option<(u64, DropCause)>,
}

/// A packet that was delivered.
#[derive(Clone, Copy, Debug, PartialEq, Eq)]
pub struct Delivery {
    /// Who sent it.
    pub from: NodeId,
    /// Whom it was sent to.
    pub to: NodeId,
    /// Its length in bytes.
    pub length: u64,
}

/// No packet of this number is in flight.
#[derive(Clone, Copy, Debug, PartialEq, Eq, Error)]
#[error("no such packet")]
pub struct NoSuchPacket;
