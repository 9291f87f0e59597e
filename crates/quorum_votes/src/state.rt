use cl_base::NodeSet;

/// What a node counts for.
#[derive(Clone, Copy, Debug, PartialEq, Eq)]
pub enum NodeState {
    /// It is not configured: it is no node of the cluster, and has no vote.
    Unconfigured,
    /// It is in maintenance: a node of the cluster without a vote.
    Maintenance,
    /// It has one vote.
    Voting,
}

/// What a device counts for.
#[derive(Clone, Copy, Debug, PartialEq, Eq)]
pub enum DevState {
    /// It is no quorum device.
    Absent,
    /// It is a quorum device that has votes.
    Enabled,
    /// It is a quorum device without votes.
    Disabled,
}

/// A device of the header.
#[derive(Clone, Copy, Debug, PartialEq, Eq)]
pub struct VoteDevice {
    /// What it counts for.
    pub state: DevState,
    /// The nodes that have a path to it.
    pub attached: NodeSet,
}
