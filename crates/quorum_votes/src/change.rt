use crate::state::DevState;
use cl_base::{DevId, NodeId};
use thiserror::Error;

/// A change of one node or device.
#[derive(Clone, Copy, Debug, PartialEq, Eq)]
pub enum VoteChange {
    /// The node's vote, 0 or 1.
    NodeVote { node: NodeId, vote: u64 },
    /// The device's state.
    Device { dev: DevId, state: DevState },
    /// The node is configured, with vote 0: it is in maintenance.
    Configure(NodeId),
    /// The node is taken out: it is not configured any more, and its vote, if it has one, is lost.
    Remove(NodeId),
}

/// Why nothing is changed.
#[derive(Clone, Copy, Debug, PartialEq, Eq, Error)]
pub enum VoteError {
    /// The node has this vote already or is configured already, or the device has this state.
    #[error("the vote is as wanted already")]
    SameValue,
    /// The node is not configured, and was to be taken out or given a vote, or the header has no such
    /// device.
    #[error("no such node or device")]
    Unknown,
}
