use cl_base::{Bytes, DevId, GroupState, Name, NodeId, Reason, ResourceState};

/// How a quorum device stands.
#[derive(Clone, Copy)]
pub enum QuorumState {
    /// The membership holds it.
    Held,
    /// The membership does not hold it.
    Lost,
    /// It is disabled.
    Off,
}

/// A line of a table's text.
#[derive(Drop)]
pub enum TableLine {
    /// The table's generation number.
    Generation(u64),
    /// The SHA-256 digest of its rows.
    Checksum([u8; 32]),
    /// A row.
    Row {
        /// Its key.
        key: Bytes,
        /// Its value.
        value: Bytes,
    },
}

/// A line of a query's answer.
#[derive(Drop)]
pub enum StatusEntry {
    /// How a group stands on a node.
    Group {
        /// The group.
        group: Name,
        /// The node.
        node: NodeId,
        /// How it stands there.
        state: GroupState,
    },
    /// Why a group is not online on a node.
    Why {
        /// The group.
        group: Name,
        /// The node.
        node: NodeId,
        /// Why.
        reason: Reason,
    },
    /// How a resource stands on a node.
    Resource {
        /// The resource.
        resource: Name,
        /// The node.
        node: NodeId,
        /// How it stands there.
        state: ResourceState,
    },
    /// All votes that there are, and those that a majority needs.
    QuorumVotes {
        /// All votes.
        total: u64,
        /// The votes needed.
        need: u64,
    },
    /// A node's vote.
    QuorumNode {
        /// The node.
        node: NodeId,
        /// Its vote.
        vote: u64,
        /// Whether it is a member.
        member: bool,
    },
    /// A quorum device's votes.
    QuorumDevice {
        /// The device.
        device: DevId,
        /// Its votes.
        votes: u64,
        /// How it stands.
        state: QuorumState,
    },
    /// A line of a table.
    Table(TableLine),
}
